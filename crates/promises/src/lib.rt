// Theorems alone: what is promised of the code's run (specs/ and proofs/).
#![tactic(auto)]
