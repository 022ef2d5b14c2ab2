#![tactic(auto)]
// The static library: each call of crate exports under its name for C, with the clauses that it has there. Its result is the refusal's number, 0 where there is none.
// A crate is a library or a static library, so C's names have functions of their own here.
// For C a slice is a pointer and then a length in words; a slice that a call may write overlaps no other that it is lent.
mod leading;
mod log;
mod quorums;
mod reads;
mod window;
mod writes;
