// Definitions and theorems alone: requests L3, L7 and L10, and that demand 3 carries over to them (specs/ and proofs/).
#![tactic(auto)]
