//! Which line waits for which, what a word is, and where the words that were read stand.
#![tactic(auto)]

pub mod rule;
pub mod sheet;
pub mod wait;
pub mod words;
