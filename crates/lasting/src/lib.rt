// Theorems alone: every state that a run of the later machine leaves is accepted (requests L3, L7, L10 with L12; specs/ and proofs/).
#![tactic(auto)]
