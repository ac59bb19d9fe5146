// Asking questions and ending them.
use crate::steps::Step;
use crate::{scripts, towns};
use network::Draft;
use std::io;

// Nodes outside, while the question is shut. A refused ask leaves it shut.
const OUTSIDE: [Step; 12] = [
    Step::End,
    Step::Ask(0, 4),
    Step::Ask(1, 0),
    Step::Ask(513, 4),
    Step::Ask(1, 513),
    Step::Ask(0, 513),
    Step::Ask(65_537, 4),
    Step::Ask(1, 4_294_967_295),
    Step::Close(1),
    Step::Open(1),
    Step::SetTurn(5, 6, 'X', 0),
    Step::End,
];

// Asked while a question is open, and ended twice.
const TWICE: [Step; 12] = [
    Step::Ask(1, 4),
    Step::Ask(1, 4),
    Step::Ask(4, 1),
    Step::Ask(0, 4),
    Step::Ask(1, 0),
    Step::Ask(513, 4),
    Step::Ask(1, 513),
    Step::Close(1),
    Step::End,
    Step::End,
    Step::Close(1),
    Step::Ask(513, 4),
];

// Nodes at the edges, and origin and destination equal.
const EDGES: [Step; 10] = [
    Step::Ask(1, 1),
    Step::End,
    Step::Ask(3, 3),
    Step::End,
    Step::Ask(1, 512),
    Step::End,
    Step::Ask(512, 1),
    Step::End,
    Step::Ask(512, 512),
    Step::End,
];

// Asks on the sample map and on a map without links.
pub(crate) fn show_questions(rt: &HostRuntime) -> io::Result<()> {
    scripts::show_script(rt, "questions, outside", towns::sample(), &OUTSIDE)?;
    scripts::show_script(rt, "questions, twice", towns::sample(), &TWICE)?;
    scripts::show_script(rt, "questions, edges", towns::sample(), &EDGES)?;
    scripts::show_script(rt, "questions, no links", Draft::new(), &EDGES)
}
