// Records written as rows of a table, and laid in a draft.
use network::{Draft, Record};

// A link by its start, end, length and tightness.
macro_rules! link {
    ($start:expr, $end:expr, $length:expr, $tightness:expr) => {
        network::Record::Link {
            start: $start,
            end: $end,
            length: $length,
            tightness: $tightness,
        }
    };
}

pub(crate) use link;

// A turn entry by its link in, link out, letter and extra.
macro_rules! turn {
    ($into:expr, $out:expr, $letter:expr, $extra:expr) => {
        network::Record::Turn {
            into: $into,
            out: $out,
            letter: $letter,
            extra: $extra,
        }
    };
}

pub(crate) use turn;

// A fresh draft in which the records are laid.
pub(crate) fn laid(records: &[Record]) -> Draft {
    let mut draft = Draft::new();
    for record in records {
        let _ = draft.lay(*record);
    }
    draft
}
