// Runs cases of the rules through the public calls, and prints what each answers.
#![tactic(auto)]

mod answers;
mod buffers;
mod cases;
mod changes;
mod full;
mod held;
mod holding;
mod images;
mod lengths;
mod limits;
mod links;
mod records;
mod sample;
mod tally;
mod turns;

use std::io;

fn main(rt: HostRuntime) -> io::Result<()> {
    links::show_links(&rt)?;
    turns::show_turns(&rt)?;
    buffers::show_buffers(&rt)?;
    lengths::show_lengths(&rt)?;
    changes::show_changes(&rt)?;
    limits::show_limits(&rt)?;
    held::show_held(&rt)?;
    full::show_full(&rt)
}
