// The one walk over a payload: the last pair of each of the thirteen keys, its number read on the way.
//
//     last     the walk, which keeps what each key's last pair says
//     start    the word run that starts at a place, and whose key it is
//     value    the value behind a key's `=`, and what is kept of it
#![tactic(auto)]

pub mod last;
mod start;
mod value;
