// The sample map, six links and four turn entries, and its image.
use crate::records::{laid, link, turn};
use network::{Draft, Record};

const RECORDS: [Record; 10] = [
    link!(1, 2, 350, 2),
    link!(1, 3, 200, 5),
    link!(2, 4, 400, 1),
    link!(3, 2, 100, 3),
    link!(3, 4, 450, 4),
    link!(4, 3, 150, 2),
    turn!(2, 5, 'R', 120),
    turn!(4, 3, 'L', 30),
    turn!(5, 6, 'X', 0),
    turn!(6, 5, 'U', 200),
];

// The image of the sample map: the table of contents, six links and four turn entries.
pub const IMAGE: &[u8; 106] = b"\
    \x4C\x00\x00\x06\x00\x00\x00\x10\
    \x54\x00\x00\x04\x00\x00\x00\x46\
    \x00\x01\x00\x02\x00\x00\x01\x5E\x02\
    \x00\x01\x00\x03\x00\x00\x00\xC8\x05\
    \x00\x02\x00\x04\x00\x00\x01\x90\x01\
    \x00\x03\x00\x02\x00\x00\x00\x64\x03\
    \x00\x03\x00\x04\x00\x00\x01\xC2\x04\
    \x00\x04\x00\x03\x00\x00\x00\x96\x02\
    \x00\x02\x00\x05\x52\x00\x00\x00\x78\
    \x00\x04\x00\x03\x4C\x00\x00\x00\x1E\
    \x00\x05\x00\x06\x58\x00\x00\x00\x00\
    \x00\x06\x00\x05\x55\x00\x00\x00\xC8\
";

// The image of a map without links.
pub const EMPTY: &[u8; 16] = b"\
    \x4C\x00\x00\x00\x00\x00\x00\x10\
    \x54\x00\x00\x00\x00\x00\x00\x10\
";

// The sample map, laid by the calls for links and for turn entries; `recorded` lays it by the call for records.
pub(crate) fn draft() -> Draft {
    let mut draft = Draft::new();
    for record in RECORDS {
        let _ = match record {
            Record::Link {
                start,
                end,
                length,
                tightness,
            } => draft.lay_link(start, end, length, tightness),
            Record::Turn {
                into,
                out,
                letter,
                extra,
            } => draft.lay_turn(into, out, letter, extra),
        };
    }
    draft
}

// The sample map, laid record by record.
pub(crate) fn recorded() -> Draft {
    laid(&RECORDS)
}
