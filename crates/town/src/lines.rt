// What a line of a town's text says.
ghost use Rattle.std.specs.Prelude.{◌≡◌, false, [], ◌∷◌, length, MatchOption, ◌==◌};
ghost use Rattle.text.specs.Words.{words};
ghost use Rattle.town.specs.Line.{tightness_of, letter_of, link_of, turn_of, record_of, line_of};

use network::{Record, Refusal};
use text::{first_word, number};

// The record that a line holds, or nothing where it is blank or a comment.
pub fn read_line(line: &[u8]) -> Result<Option<Record>, Refusal>
    ensures { result ≡ line_of line.now }
{
    match first_word(line) {
        None | Some(([b'#', ..], _)) => Ok(None),
        Some((keyword, fields)) => read_record(keyword, fields)
            .map(Some)
            .ok_or(Refusal::NotACommand),
    }
}

// The record that a keyword and the fields after it hold.
fn read_record(keyword: &[u8], fields: &[u8]) -> Option<Record>
    ensures { result ≡ record_of keyword.now (words fields.now) }
{
    match keyword {
        b"link" => read_link(fields),
        b"turn" => read_turn(fields),
        _ => None,
    }
}

// The link whose start, end, length and tightness are the fields.
fn read_link(fields: &[u8]) -> Option<Record>
    ensures { result ≡ link_of (words fields.now) }
{
    let (start, end, length, tightness) = four_words(fields)?;
    Some(Record::Link {
        start: number(start)?,
        end: number(end)?,
        length: number(length)?,
        tightness: read_tightness(tightness)?,
    })
}

// The turn entry whose link in, link out, letter and extra are the fields.
fn read_turn(fields: &[u8]) -> Option<Record>
    ensures { result ≡ turn_of (words fields.now) }
{
    let (into, out, letter, extra) = four_words(fields)?;
    Some(Record::Turn {
        into: number(into)?,
        out: number(out)?,
        letter: read_letter(letter)?,
        extra: number(extra)?,
    })
}

// The words of a line that has exactly four.
fn four_words(line: &[u8]) -> Option<(&[u8], &[u8], &[u8], &[u8])>
    ensures { MatchOption result ((length (words line.now) == 4) ≡ false)
        (λ p. words line.now ≡ p.0.now ∷ (p.1.now ∷ (p.2.now ∷ (p.3.now ∷ [])))) }
{
    let (first, line) = first_word(line)?;
    let (second, line) = first_word(line)?;
    let (third, line) = first_word(line)?;
    let (fourth, line) = first_word(line)?;
    first_word(line)
        .is_none()
        .then_some((first, second, third, fourth))
}

// The tightness that a word writes.
fn read_tightness(word: &[u8]) -> Option<u8>
    ensures { result ≡ tightness_of word.now }
{
    u8::try_from(number(word)?).ok()
}

// The letter that a word is.
fn read_letter(word: &[u8]) -> Option<char>
    ensures { result ≡ letter_of word.now }
{
    match word {
        [byte] => Some(char::from(*byte)),
        _ => None,
    }
}
