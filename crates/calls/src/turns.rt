// Changing the turn of a pair.
use crate::steps::Step;
use crate::{scripts, towns};
use std::io;

// One cause: links not laid, links apart, letters and extras, with an entry and without one.
const REFUSED: [Step; 18] = [
    Step::SetTurn(0, 5, 'R', 120),
    Step::SetTurn(2, 0, 'R', 120),
    Step::SetTurn(7, 5, 'R', 120),
    Step::SetTurn(2, 7, 'R', 120),
    Step::SetTurn(65_538, 5, 'R', 120),
    Step::SetTurn(2, 65_541, 'R', 120),
    Step::SetTurn(4_294_967_295, 5, 'R', 120),
    Step::SetTurn(2, 4_294_967_295, 'R', 120),
    Step::SetTurn(1, 2, 'S', 0),
    Step::SetTurn(5, 2, 'R', 120),
    Step::SetTurn(1, 1, 'S', 0),
    Step::SetTurn(2, 5, 'Q', 120),
    Step::SetTurn(2, 5, 'r', 120),
    Step::SetTurn(3, 6, 'Q', 0),
    Step::SetTurn(3, 6, 'é', 0),
    Step::SetTurn(2, 5, 'R', 1_000_001),
    Step::SetTurn(3, 6, 'S', 1_000_001),
    Step::SetTurn(5, 6, 'X', 4_294_967_295),
];

// Two causes or more: the earlier answers.
const TOGETHER: [Step; 16] = [
    Step::SetTurn(1, 7, 'Q', 0),
    Step::SetTurn(0, 5, 'R', 1_000_001),
    Step::SetTurn(1, 2, 'Q', 0),
    Step::SetTurn(1, 2, 'S', 1_000_001),
    Step::SetTurn(2, 5, 'Q', 1_000_001),
    Step::SetTurn(3, 6, 'Q', 1_000_001),
    Step::Ask(1, 4),
    Step::SetTurn(2, 5, 'L', 120),
    Step::SetTurn(3, 6, 'S', 0),
    Step::SetTurn(0, 5, 'R', 120),
    Step::SetTurn(1, 2, 'S', 0),
    Step::SetTurn(2, 5, 'Q', 120),
    Step::SetTurn(2, 5, 'R', 1_000_001),
    Step::SetTurn(7, 0, 'Q', 4_294_967_295),
    Step::End,
    Step::SetTurn(7, 0, 'Q', 4_294_967_295),
];

// Entries changed and changed back.
const CHANGED: [Step; 14] = [
    Step::SetTurn(2, 5, 'L', 120),
    Step::SetTurn(2, 5, 'R', 120),
    Step::SetTurn(2, 5, 'S', 1_000_000),
    Step::SetTurn(2, 5, 'Q', 0),
    Step::SetTurn(2, 5, 'R', 120),
    Step::SetTurn(4, 3, 'L', 31),
    Step::SetTurn(4, 3, 'L', 286),
    Step::SetTurn(6, 5, 'X', 0),
    Step::SetTurn(4, 3, 'L', 30),
    Step::SetTurn(6, 5, 'U', 200),
    Step::SetTurn(5, 6, 'X', 0),
    Step::SetTurn(5, 6, 'S', 0),
    Step::SetTurn(5, 6, 'U', 0),
    Step::SetTurn(5, 6, 'X', 0),
];

// Entries added at the table's end, and changed there.
const ADDED: [Step; 6] = [
    Step::SetTurn(3, 6, 'S', 7),
    Step::SetTurn(3, 6, 'U', 1_000_000),
    Step::SetTurn(3, 6, 'U', 1_000_001),
    Step::SetTurn(1, 3, 'X', 0),
    Step::SetTurn(2, 5, 'L', 120),
    Step::SetTurn(2, 5, 'R', 120),
];

// The last entry that there is room for.
const LAST: [Step; 3] = [
    Step::SetTurn(32, 64, 'S', 0),
    Step::SetTurn(33, 1, 'S', 0),
    Step::SetTurn(33, 33, 'S', 0),
];

// A table of 2,048 entries.
const FULL: [Step; 16] = [
    Step::SetTurn(33, 1, 'S', 0),
    Step::SetTurn(64, 65, 'X', 1_000_000),
    Step::SetTurn(33, 1, 'S', 1_000_001),
    Step::SetTurn(33, 1, 'Q', 0),
    Step::SetTurn(65, 1, 'S', 0),
    Step::SetTurn(66, 1, 'S', 0),
    Step::Ask(1, 1),
    Step::SetTurn(33, 1, 'S', 0),
    Step::End,
    Step::SetTurn(1, 1, 'R', 11),
    Step::SetTurn(33, 1, 'S', 0),
    Step::SetTurn(1, 1, 'L', 10),
    Step::SetTurn(32, 64, 'X', 1_000_000),
    Step::SetTurn(32, 64, 'Q', 0),
    Step::SetTurn(32, 64, 'X', 1_000_001),
    Step::SetTurn(32, 64, 'L', 10),
];

// Changes turns of the sample map, and of maps with 2,047 and 2,048 entries.
pub(crate) fn show_turns(rt: &HostRuntime) -> io::Result<()> {
    scripts::show_script(rt, "turns", towns::sample(), &REFUSED)?;
    scripts::show_script(rt, "turns, two causes", towns::sample(), &TOGETHER)?;
    scripts::show_script(rt, "turns, changed", towns::sample(), &CHANGED)?;
    scripts::show_script(rt, "turns, added", towns::sample(), &ADDED)?;
    scripts::show_script(rt, "turns, 2047 entries", towns::turned_rings(2047), &LAST)?;
    scripts::show_script(rt, "turns, 2048 entries", towns::turned_rings(2048), &FULL)
}
