// Closing and opening links. Closed marks are not written, so the image stays the same.
use crate::steps::Step;
use crate::{scripts, towns};
use network::Draft;
use std::io;

// Links that are not laid, and links that are closed and opened once and twice.
const SHUT: [Step; 18] = [
    Step::Close(0),
    Step::Close(7),
    Step::Close(65_537),
    Step::Close(4_294_967_295),
    Step::Open(0),
    Step::Open(7),
    Step::Open(65_542),
    Step::Open(4_294_967_295),
    Step::Close(1),
    Step::Close(1),
    Step::Close(6),
    Step::Close(6),
    Step::Close(7),
    Step::Open(1),
    Step::Open(1),
    Step::Open(6),
    Step::Open(6),
    Step::Open(3),
];

// An open question refuses each, also for links that are not laid.
const OPEN: [Step; 14] = [
    Step::Close(2),
    Step::Ask(1, 4),
    Step::Close(1),
    Step::Close(2),
    Step::Open(2),
    Step::Close(0),
    Step::Close(7),
    Step::Close(4_294_967_295),
    Step::Open(0),
    Step::Open(7),
    Step::Open(4_294_967_295),
    Step::End,
    Step::Open(2),
    Step::Open(7),
];

// The last of 1,024 links, and links beside the edges of words of 64.
const MOST: [Step; 8] = [
    Step::Close(63),
    Step::Close(64),
    Step::Close(65),
    Step::Close(1024),
    Step::Close(1025),
    Step::Open(64),
    Step::Open(1024),
    Step::Open(1025),
];

// A map without links.
const NONE: [Step; 4] = [
    Step::Close(0),
    Step::Close(1),
    Step::Open(1),
    Step::SetTurn(1, 1, 'S', 0),
];

// Closes and opens links of the sample map, of a map of 1,024 links and of one without links.
pub(crate) fn show_marks(rt: &HostRuntime) -> io::Result<()> {
    scripts::show_script(rt, "marks", towns::sample(), &SHUT)?;
    scripts::show_script(rt, "marks, question", towns::sample(), &OPEN)?;
    scripts::show_script(rt, "marks, 1024 links", towns::rings(1023), &MOST)?;
    scripts::show_script(rt, "marks, no links", Draft::new(), &NONE)
}
