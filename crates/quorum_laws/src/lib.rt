#![tactic(auto)]
// Theorems only (specs/ and proofs/): what the promises of the crate quorum amount to, with no code.
