// The pairs of a payload, the table of its keys, the last pair of a key, and the dwords of a bracketed value.
#![tactic(auto)]

pub mod dwords;
pub mod keys;
pub mod pair;
