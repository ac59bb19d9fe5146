// Runs calls on sealed maps and on the three measures, and prints what each answers.
#![tactic(auto)]

mod images;
mod marks;
mod measures;
mod questions;
mod scripts;
mod steps;
mod texts;
mod towns;
mod turns;

use std::io;

fn main(rt: HostRuntime) -> io::Result<()> {
    marks::show_marks(&rt)?;
    turns::show_turns(&rt)?;
    questions::show_questions(&rt)?;
    texts::show_texts(&rt)?;
    measures::show_measures(&rt)
}
