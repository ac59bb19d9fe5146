// The causes of refusals, in words.
ghost use Rattle.std.specs.Prelude.{◌≡◌};
ghost use Rattle.town.specs.Causes.{cause_of};

use network::Refusal;

// The cause of a refusal in words.
pub fn cause(refusal: Refusal) -> &'static str
    ensures { result.now ≡ cause_of refusal }
{
    match refusal {
        Refusal::LinksFull => "there are 1,024 links already",
        Refusal::NodeOutside => "a node is outside 1 to 512",
        Refusal::StartsFall => "the start is below the start of the link before",
        Refusal::TooLong => "the length is over 1,000,000",
        Refusal::TurnsFull => "there are 2,048 turn entries already",
        Refusal::NoSuchLink => "no such link is laid",
        Refusal::LinksApart => "the link in does not end where the link out starts",
        Refusal::PairTaken => "the pair has an entry already",
        Refusal::NoSuchLetter => "the letter is none of S, L, R, U and X",
        Refusal::ExtraTooLarge => "the extra is over 1,000,000",
        Refusal::QuestionOpen => "a question is open",
        Refusal::NoQuestion => "no question is open",
        Refusal::LentTooShort => "the lent book or cost table is too short",
        Refusal::BookFull => "sixteen routes are listed already",
        Refusal::BookSpoilt => "the book does not hold the routes that it listed",
        Refusal::NoFurtherRoute => "no further route",
        Refusal::ContentsWrong => "the length or the table of contents of the image is wrong",
        Refusal::RecordNotLaid => "a record of the image was not laid",
        Refusal::BufferTooShort => "the buffer is too short",
        Refusal::NotACommand => "not a command",
    }
}
