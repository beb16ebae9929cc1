//! The schedule: the calls that make a machine complete an order that passes.
#![tactic(auto)]

mod needed;
mod progress;
pub mod schedule;
