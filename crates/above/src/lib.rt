// What the book of a listing can reach. Definitions and theorems only.
#![tactic(auto)]
