// Theorems alone: what more fuel changes in a run, and what it does not (specs/ and proofs/).
#![tactic(auto)]
