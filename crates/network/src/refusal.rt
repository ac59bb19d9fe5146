// Why a call is refused.
ghost use Rattle.std.specs.Prelude.{◌≡◌, Some, decimal};
ghost use Rattle.network.specs.Refusals.{number};

use std::fmt;

#[derive(Clone, Copy, PartialEq, Eq, Debug)]
pub enum Refusal {
    LinksFull = 1,
    NodeOutside = 2,
    StartsFall = 3,
    TooLong = 4,
    TurnsFull = 5,
    NoSuchLink = 6,
    LinksApart = 7,
    PairTaken = 8,
    NoSuchLetter = 9,
    ExtraTooLarge = 10,
    QuestionOpen = 11,
    NoQuestion = 12,
    LentTooShort = 13,
    BookFull = 14,
    BookSpoilt = 15,
    NoFurtherRoute = 16,
    ContentsWrong = 17,
    RecordNotLaid = 18,
    BufferTooShort = 19,
    NotACommand = 20,
}

impl Refusal {
    // The number that a refusal is told by.
    pub fn number(self) -> u8
        ensures { result ≡ number self }
    {
        self as u8
    }
}

impl fmt::Display for Refusal {
    ghost output = { λ refusal. Some (decimal (number refusal)) };

    fn fmt<W: fmt::Write>(&self, f: &mut fmt::Formatter<W>) -> fmt::Result {
        write!(f, "{}", self.number())
    }
}
