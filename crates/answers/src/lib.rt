//! From a record's bytes to the answer that is printed.
#![tactic(auto)]

mod telling;
mod text;

pub use telling::answer;
pub use text::{Account, Answer};
