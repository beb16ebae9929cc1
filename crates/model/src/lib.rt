//! What orders, the six axioms, the machine and the trace mean, the theorems that tie them, and the words that lines write.
#![tactic(auto)]

pub mod call;
pub mod stored;
pub mod theorems;
pub mod verdict;
pub mod waiting;
