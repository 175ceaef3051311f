// What the runs of a listing book cost. Definitions and theorems only.
#![tactic(auto)]
