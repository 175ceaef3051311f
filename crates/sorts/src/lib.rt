// What admission accepts fits the sorts of the book's symbols, and every step of a run keeps it so. Theorems only.
#![tactic(auto)]
