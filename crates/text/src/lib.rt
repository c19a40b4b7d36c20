// Texts as lists of bytes: classes, places, runs, numbers; and what makes reading them fast: blocks of sixteen bytes, one table of digits and word bytes,
// bytes as one number. Calls of these three and `number::leading` ask for room, for the table or for a place within the text; every other public call
// takes all input.
#![tactic(auto)]

mod block;
pub mod class;
pub mod copy;
pub mod number;
pub mod place;
pub mod run;
pub mod table;
pub mod word;
