// Asks small towns for their routes under each measure, and prints what the routes cost, in the order in which they come.
#![tactic(auto)]

mod asking;
mod barred;
mod equal;
mod sample;
mod shapes;
mod towns;
mod written;

use std::io;

fn main(rt: HostRuntime) -> io::Result<()> {
    sample::show_sample(&rt)?;
    shapes::show_shapes(&rt)?;
    equal::show_equal(&rt)?;
    barred::show_barred(&rt)?;
    written::show_written(&rt)
}
