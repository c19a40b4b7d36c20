// Text put into a lent buffer at a place: whole where it fits, else nothing. Each call hands back the place behind what it put.
#![tactic(auto)]

pub mod digits;
pub mod hex;
pub mod page;
pub mod put;
