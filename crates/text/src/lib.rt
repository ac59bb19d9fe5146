#![tactic(auto)]

mod cuts;
mod lines;
mod numbers;
mod words;
mod writing;

pub use cuts::cut_at;
pub use lines::first_line;
pub use numbers::number;
pub use words::first_word;
pub use writing::{put_decimal, put_word};
