#![tactic(auto)]

mod asking;
mod changes;
mod checking;
mod guard;
mod handing;
mod imaging;
mod listing;
mod map;
mod question;
mod runs;
mod sealing;
mod town;
mod trying;

pub use imaging::write_image;
pub use map::Map;
pub use question::Question;
pub use runs::{SevenAnswers, each_call_once};
pub use sealing::seal;
pub use town::Town;
