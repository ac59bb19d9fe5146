// Laying a town from its text.
ghost use Rattle.std.specs.Prelude.{◌≡◌};
ghost use Rattle.network.specs.Refusals.{refusal_in};
ghost use Rattle.network.specs.Laid.{drafted};
ghost use Rattle.town.specs.Town.{line_refusal, with_line, town, outcome_of};

use crate::fault::TownFault;
use crate::lines::read_line;
use network::{Draft, Refusal};
use text::first_line;

// The draft in which the records of a town's text are laid, line by line, or the first line that is refused.
pub fn lay_town(text: &[u8]) -> Result<Draft, TownFault>
    ensures { outcome_of result ≡ town text.now }
{
    let mut draft = Draft::new();
    // Counted by hand: `split` gives an empty piece behind a last line feed, and an iterator over lines is a type more.
    let mut left = text;
    let mut line = 0;
    while let Some((first, rest)) = first_line(left) {
        line += 1;
        lay_line(&mut draft, first).map_err(|refusal| TownFault { line, refusal })?;
        left = rest;
    }
    Ok(draft)
}

// Lays what a line says.
fn lay_line(draft: &mut Draft, line: &[u8]) -> Result<(), Refusal>
    ensures answer { refusal_in result ≡ line_refusal (drafted draft.old) line.now }
    ensures after { drafted draft.new ≡ with_line (drafted draft.old) line.now }
{
    match read_line(line)? {
        Some(record) => draft.lay(record),
        None => Ok(()),
    }
}

#[cfg(test)]
mod tests {
    use super::*;
    use crate::causes::cause;

    // The line that is refused and the number of its refusal, or nothing where all of a text is laid.
    fn fault(text: &[u8]) -> Option<(usize, u8)> {
        let fault = lay_town(text).err()?;
        Some((fault.line, fault.refusal.number()))
    }

    #[test]
    fn lays_a_town(rt: HostRuntime) {
        assert_eq!(rt;
            fault(b"link 1 2 350 2\nlink 2 1 80 255\nturn 1 2 U 5\nturn 2 1 X 0\n"),
            None
        );
    }

    #[test]
    fn passes_over_what_says_nothing(rt: HostRuntime) {
        assert_eq!(rt;
            fault(b"# a town\r\n\r\n\t link 1 2 350 2\r\n #link\r\n"),
            None
        );
        assert_eq!(rt; fault(b""), None);
    }

    #[test]
    fn tells_the_first_line_that_is_refused(rt: HostRuntime) {
        assert_eq!(rt;
            fault(b"link 1 2 350 2\nlink 0 2 1 1\nroad\n"),
            Some((2, 2))
        );
        assert_eq!(rt; fault(b"\n#\nturn 1 1 S 0"), Some((3, 6)));
    }

    #[test]
    fn refuses_what_is_no_command(rt: HostRuntime) {
        assert_eq!(rt; fault(b"road 1 2 350 2"), Some((1, 20)));
        assert_eq!(rt; fault(b"link 1 2 350"), Some((1, 20)));
        assert_eq!(rt; fault(b"link 1 2 350 2 0"), Some((1, 20)));
        assert_eq!(rt; fault(b"link 1 2 350 256"), Some((1, 20)));
        assert_eq!(rt; fault(b"link 1 2 350 2\nturn 1 1 SS 0"), Some((2, 20)));
    }

    #[test]
    fn says_the_cause(rt: HostRuntime) {
        assert_eq!(rt; cause(Refusal::NotACommand), "not a command");
    }
}
