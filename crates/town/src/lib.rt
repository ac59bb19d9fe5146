#![tactic(auto)]

mod causes;
mod fault;
mod lines;
mod town;

pub use causes::cause;
pub use fault::TownFault;
pub use lines::read_line;
pub use town::lay_town;
