#![tactic(auto)]
// Theorems only (specs/ and proofs/): what the promises of the log say of each other, with no code.
