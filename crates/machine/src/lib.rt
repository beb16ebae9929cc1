//! The machine: closing a draft, issue, drain, finish, and whole runs.
#![tactic(auto)]

pub mod ended;
mod inner;
pub mod machine;
mod mark;
pub mod play;
mod spots;
