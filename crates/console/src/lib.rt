#![tactic(auto)]

mod command;
mod lines;
mod replies;
mod reply;
mod writing;

pub use command::Command;
pub use lines::read_command;
pub use replies::write_reply;
pub use reply::Reply;
