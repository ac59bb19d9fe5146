// Lines read as commands.
ghost use Rattle.std.specs.Prelude.{◌≡◌, Some, None, MatchOption};
ghost use Rattle.console.specs.Commands.{Understood};
ghost use Rattle.console.specs.Cuts.{ask_of, lettered, turn_of, on_link, command_by, words_command, command_of};

use crate::command::Command;
use network::Refusal;
use text::{cut_at, number};

// The command that a line says; the line comes without its line feed.
pub fn read_command(line: &[u8]) -> Result<Command, Refusal>
    ensures { Understood line.now result }
{
    find_command(line).ok_or(Refusal::NotACommand)
}

// The command that a line says, if it says one.
fn find_command(line: &[u8]) -> Option<Command>
    ensures { result ≡ command_of line.now }
{
    match line {
        b"next" => Some(Command::Next),
        b"end" => Some(Command::End),
        _ => read_words(line),
    }
}

// The command of a line that has fields after its first word.
fn read_words(line: &[u8]) -> Option<Command>
    ensures { result ≡ words_command line.now }
{
    let (word, fields) = cut_at(line, b' ')?;
    read_fields(word, fields)
}

// The command of a first word and the fields after it.
fn read_fields(word: &[u8], fields: &[u8]) -> Option<Command>
    ensures { result ≡ command_by word.now fields.now }
{
    match word {
        b"ask" => read_ask(fields),
        b"turn" => read_turn(fields),
        _ => on_link(word, number(fields)?),
    }
}

// The command of a first word and the one link after it.
fn on_link(word: &[u8], link: u32) -> Option<Command>
    ensures { result ≡ on_link word.now link }
{
    match word {
        b"trial" => Some(Command::Trial { link }),
        b"close" => Some(Command::Close { link }),
        b"open" => Some(Command::Open { link }),
        _ => None,
    }
}

// The question between the two nodes that the fields write.
fn read_ask(fields: &[u8]) -> Option<Command>
    ensures { result ≡ ask_of fields.now }
{
    let (from, to) = cut_at(fields, b' ')?;
    Some(Command::Ask {
        from: number(from)?,
        to: number(to)?,
    })
}

// The setting of a turn whose link in, link out, letter and extra are the fields.
fn read_turn(fields: &[u8]) -> Option<Command>
    ensures { result ≡ turn_of fields.now }
{
    let (into, rest) = cut_at(fields, b' ')?;
    let (out, rest) = cut_at(rest, b' ')?;
    let (letter, extra) = read_letter(rest)?;
    Some(Command::Turn {
        into: number(into)?,
        out: number(out)?,
        letter,
        extra: number(extra)?,
    })
}

// The letter that a text begins with, any one byte, and what stands after the blank behind it.
fn read_letter(text: &[u8]) -> Option<(char, &[u8])>
    ensures { MatchOption result (lettered text.now ≡ None) (λ p. lettered text.now ≡ Some (p.0, p.1.now)) }
{
    match text {
        [letter, b' ', rest @ ..] => Some((char::from(*letter), rest)),
        _ => None,
    }
}

#[cfg(test)]
mod tests {
    use super::*;

    // The command that a line says, or the number of the refusal.
    fn told(line: &[u8]) -> Result<Command, u8> {
        read_command(line).map_err(Refusal::number)
    }

    #[test]
    fn reads_the_commands(rt: HostRuntime) {
        assert_eq!(rt; told(b"ask 1 4"), Ok(Command::Ask { from: 1, to: 4 }));
        assert_eq!(rt; told(b"next"), Ok(Command::Next));
        assert_eq!(rt; told(b"trial 0"), Ok(Command::Trial { link: 0 }));
        assert_eq!(rt; told(b"end"), Ok(Command::End));
        assert_eq!(rt; told(b"close 1024"), Ok(Command::Close { link: 1024 }));
        assert_eq!(rt;
            told(b"open 999999999"),
            Ok(Command::Open { link: 999_999_999 })
        );
    }

    #[test]
    fn takes_any_byte_as_a_letter(rt: HostRuntime) {
        assert_eq!(rt;
            told(b"turn 1 3   0"),
            Ok(Command::Turn {
                into: 1,
                out: 3,
                letter: ' ',
                extra: 0,
            })
        );
        assert_eq!(rt;
            told(b"turn 2 5 \xff 120"),
            Ok(Command::Turn {
                into: 2,
                out: 5,
                letter: '\u{ff}',
                extra: 120,
            })
        );
    }

    // Whether a line is not a command.
    fn refused(line: &[u8]) -> bool {
        told(line) == Err(20)
    }

    #[test]
    fn refuses_what_is_no_command(rt: HostRuntime) {
        assert!(rt; refused(b""));
        assert!(rt; refused(b" next"));
        assert!(rt; refused(b"next "));
        assert!(rt; refused(b"next\r"));
        assert!(rt; refused(b"Next"));
        assert!(rt; refused(b"ask 1"));
        assert!(rt; refused(b"ask  1 4"));
        assert!(rt; refused(b"ask 1 4 "));
        assert!(rt; refused(b"ask 01 4"));
        assert!(rt; refused(b"trial 00"));
        assert!(rt; refused(b"trial"));
        assert!(rt; refused(b"trial "));
    }

    #[test]
    fn refuses_what_is_nearly_a_command(rt: HostRuntime) {
        assert!(rt; refused(b"open 1000000000"));
        assert!(rt; refused(b"open -1"));
        assert!(rt; refused(b"close 1 2"));
        assert!(rt; refused(b"turn 1 3  0"));
        assert!(rt; refused(b"turn 1 3 SS 0"));
        assert!(rt; refused(b"turn 1 3 S"));
        assert!(rt; refused(b"turn 1 3 S 0 0"));
    }
}
