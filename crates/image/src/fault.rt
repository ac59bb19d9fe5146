// Why an image is refused: its length or table of contents is wrong, or the record of a number was not laid.
use network::Refusal;
use std::fmt;

#[derive(Clone, Copy, PartialEq, Eq, Debug)]
pub enum ReadFault {
    ContentsWrong,
    RecordNotLaid(usize),
}

// The refusal's number, and the record's where one is told.
impl fmt::Display for ReadFault {
    ghost use Rattle.std.specs.Prelude.{Some};
    ghost use Rattle.image.specs.Faults.{fault_text};

    ghost output = { λ fault. Some (fault_text fault) };

    fn fmt<W: fmt::Write>(&self, f: &mut fmt::Formatter<W>) -> fmt::Result {
        match self {
            ReadFault::ContentsWrong => write!(f, "{}", Refusal::ContentsWrong),
            ReadFault::RecordNotLaid(record) => write!(f, "{} {record}", Refusal::RecordNotLaid),
        }
    }
}
