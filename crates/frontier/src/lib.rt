#![tactic(auto)]

mod frontier;
mod labelledfrontier;
mod labelling;
mod labels;
mod linknumber;
mod numbering;
mod playing;
mod waiting;

pub use frontier::Frontier;
pub use labelledfrontier::LabelledFrontier;
pub use linknumber::LinkNumber;
