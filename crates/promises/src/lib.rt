#![tactic(auto)]
// Theorems only (specs/ and proofs/): that no promise leaves a choice; document 01's cases as one table; for each call wrong answers that its promise rules out, and wrong engines that differ from it; and that the premises of the theorems can be met.
