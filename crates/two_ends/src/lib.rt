#![tactic(auto)]
// Theorems only (specs/ and proofs/): what the two ends of the line owe each other, with no code.
