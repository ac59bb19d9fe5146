// The cheapest completion of a beginning.
#![tactic(auto)]

mod beginning;
mod completing;
mod growing;
mod onward;
mod quest;
mod relaxing;
mod search;
mod searches;
mod tree;
mod trees;
mod way;

pub use beginning::{Beginning, Departure, Trip};
pub use completing::complete;
pub use onward::{cost_after, is_dear};
pub use search::Search;
