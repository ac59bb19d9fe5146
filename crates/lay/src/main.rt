// Lays the text of a town, seals it, writes the image to map.img and reads that file back.
#![tactic(auto)]

mod input;
mod output;
mod stop;

use input::read_town;
use output::write_map;
use std::process::ExitCode;
use stop::Stop;
use town::lay_town;

fn run(rt: &HostRuntime) -> Result<(), Stop> {
    let text = read_town(rt)?;
    let draft = lay_town(&text)?;
    let links = draft.link_count();
    let turns = draft.turn_count();
    println!(rt; "laid {links} links and {turns} turns")?;
    write_map(rt, draft)?;
    Ok(())
}

// `routes` ends in the same way: a crate for these lines would be longer than both.
fn main(rt: HostRuntime) -> anyhow::Result<ExitCode> {
    match run(&rt) {
        Ok(()) => Ok(ExitCode::SUCCESS),
        Err(error) => {
            eprintln!(rt; "{error}")?;
            Ok(ExitCode::FAILURE)
        }
    }
}
