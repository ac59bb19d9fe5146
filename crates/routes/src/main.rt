// Answers lines of commands about the map in the file map.img, with one reply for each line.
#![tactic(auto)]

mod mapfile;
mod session;
mod talk;

use image::read_image;
use mapfile::read_map;
use measure::Metres;
use navigator::seal;
use network::Draft;
use session::Session;
use std::process::ExitCode;
use talk::talk_about;

fn run(rt: &HostRuntime) -> anyhow::Result<()> {
    let image = read_map(rt);
    let mut draft = Draft::new();
    if let Err(fault) = read_image(&mut draft, image.as_slice()) {
        println!(rt; "refused {fault}")?;
        return Ok(());
    }
    let session = Session::new(rt.alloc(), seal(draft, Metres))?;
    talk_about(rt, session)?;
    Ok(())
}

// `lay` ends in the same way: a crate for these lines would be longer than both.
fn main(rt: HostRuntime) -> anyhow::Result<ExitCode> {
    match run(&rt) {
        Ok(()) => Ok(ExitCode::SUCCESS),
        Err(error) => {
            eprintln!(rt; "{error}")?;
            Ok(ExitCode::FAILURE)
        }
    }
}
