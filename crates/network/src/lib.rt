#![tactic(auto)]

mod changing;
mod draft;
mod laying;
mod link;
mod linkset;
mod linksets;
mod network;
mod record;
mod refusal;
mod starthints;
mod streets;
mod turn;
mod turntable;
mod turntables;

pub use draft::Draft;
pub use laying::is_node;
pub use link::Link;
pub use linkset::LinkSet;
pub use network::Network;
pub use record::Record;
pub use refusal::Refusal;
pub use turn::Turn;
