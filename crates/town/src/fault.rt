// Where the reading of a town's text ended, and why.
use crate::causes::cause;
use network::Refusal;
use std::fmt;

// The line counts from 1.
#[derive(Clone, Copy, PartialEq, Eq, Debug)]
pub struct TownFault {
    pub line: usize,
    pub refusal: Refusal,
}

// The line that a program says of it.
impl fmt::Display for TownFault {
    ghost use Rattle.std.specs.Prelude.{Some};
    ghost use Rattle.town.specs.Faults.{fault_text};

    ghost output = { λ fault. Some (fault_text fault) };

    fn fmt<W: fmt::Write>(&self, f: &mut fmt::Formatter<W>) -> fmt::Result {
        let TownFault { line, refusal } = *self;
        let words = cause(refusal);
        write!(f, "line {line}: refused {refusal}: {words}")
    }
}

impl std::error::Error for TownFault {}
