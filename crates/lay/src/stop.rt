// What stops the program.
use std::fmt;

// A line that says it, or an error that says itself: an `anyhow::Error` keeps 120 bytes of a message, and a path may be longer.
#[derive(Debug, Drop)]
pub(crate) enum Stop {
    Line(String),
    Other(anyhow::Error),
}

impl fmt::Display for Stop {
    fn fmt<W: fmt::Write>(&self, f: &mut fmt::Formatter<W>) -> fmt::Result {
        match self {
            Stop::Line(line) => write!(f, "{line}"),
            Stop::Other(error) => write!(f, "{error}"),
        }
    }
}

impl<E: Into<anyhow::Error>> From<E> for Stop {
    fn from(error: E) -> Stop {
        Stop::Other(error.into())
    }
}
