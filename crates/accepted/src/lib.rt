// Theorems alone: the states from which a second call goes on (request L12), that every run's states are such, and that every turn keeps them so (specs/ and proofs/).
#![tactic(auto)]
