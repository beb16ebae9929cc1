//! The judge: which axiom an order breaks; and in one that passes, the write that each read should have and where its word
//! comes from.
#![tactic(auto)]

mod complete;
mod events;
mod judge;
mod naming;
mod pairs;
pub mod passing;
pub mod proposal;
mod rows;
mod sources;
mod standing;
mod swaps;
mod trace;
mod values;
