// The tagged listing: what it says, the book that is made of it, levels and the circle. Definitions and theorems; the code is in crates `terms`, `listings` and `circles`.
#![tactic(auto)]
