// Demand 3: what a run answers is what its question can reach by rewriting. Theorems only.
#![tactic(auto)]
