#![tactic(auto)]
// The boundary: the calls of the crates below, over numbers and slices of words alone. Crate exports_c hands them to programs in Rust and C.
// A state stands as words in a lent slice, and so do the values of an answer; a call that refuses writes nothing.
mod bounds;
mod halves;
pub mod leading;
pub mod log;
pub mod quorums;
pub mod reads;
mod rows;
pub mod window;
mod window_words;
mod words;
pub mod writes;
