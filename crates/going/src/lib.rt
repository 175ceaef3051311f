// Theorems alone: going on with a stopped run (request L12): fuel a followed by b more is fuel a plus b (specs/ and proofs/).
#![tactic(auto)]
