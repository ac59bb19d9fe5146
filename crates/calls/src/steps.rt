// The calls on a sealed map, and their answers, as they are printed.
use measure::Metres;
use navigator::Map;
use network::Refusal;
use std::fmt;

// A call: a link; link in, link out, letter and extra; or origin and destination. It is data and no closure, since it is
// printed beside its answer; and it does not name its numbers, since it is a line of a table.
#[derive(Clone, Copy)]
pub enum Step {
    Close(u32),
    Open(u32),
    SetTurn(u32, u32, char, u32),
    Ask(u32, u32),
    End,
}

impl Step {
    // Makes the call on a map.
    pub(crate) fn call(self, map: &mut Map<Metres>) -> Answer {
        Answer(match self {
            Step::Close(link) => map.close(link),
            Step::Open(link) => map.open(link),
            Step::SetTurn(into, out, letter, extra) => map.set_turn(into, out, letter, extra),
            Step::Ask(from, to) => map.ask(from, to),
            Step::End => map.end(),
        })
    }
}

impl fmt::Display for Step {
    fn fmt<W: fmt::Write>(&self, f: &mut fmt::Formatter<W>) -> fmt::Result {
        match *self {
            Step::Close(link) => write!(f, "close {link}"),
            Step::Open(link) => write!(f, "open {link}"),
            Step::SetTurn(into, out, letter, extra) => {
                write!(f, "turn {into} {out} {letter} {extra}")
            }
            Step::Ask(from, to) => write!(f, "ask {from} {to}"),
            Step::End => write!(f, "end"),
        }
    }
}

// What a call answers.
#[derive(Clone, Copy)]
pub struct Answer(Result<(), Refusal>);

impl fmt::Display for Answer {
    fn fmt<W: fmt::Write>(&self, f: &mut fmt::Formatter<W>) -> fmt::Result {
        match self.0 {
            Ok(()) => write!(f, "accepted"),
            Err(refusal) => write!(f, "refused {refusal}"),
        }
    }
}
