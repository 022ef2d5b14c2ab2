#![tactic(auto)]
// Definitions and theorems only (specs/ and proofs/): what the Raft paper says, with no code.
