#![tactic(auto)]

mod contents;
mod entry;
mod fault;
mod reading;
mod writing;

pub use fault::ReadFault;
pub use reading::read_image;
pub use writing::write_network;
