// Reading and writing with their faults told: what moved, or the number of the error that stopped it. No public call has a `requires`.
#![tactic(auto)]

pub mod fault;
pub mod reading;
pub mod sentence;
pub mod sink;
pub mod status;
pub mod streams;
pub mod writing;
