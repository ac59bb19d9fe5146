#![tactic(auto)]

mod measures;
mod metres;
mod narrowest;
mod nostop;
mod shown;
mod texts;
mod turnsfirst;
mod writing;

pub use measures::Measure;
pub use metres::Metres;
pub use narrowest::Narrowest;
pub use nostop::no_stop_is_met;
pub use shown::Shown;
pub use turnsfirst::TurnsFirst;
pub use writing::write_decimal;
