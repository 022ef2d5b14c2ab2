#![tactic(auto)]
// Theorems only (specs/ and proofs/): what the leader counts, a majority holds, with no code.
