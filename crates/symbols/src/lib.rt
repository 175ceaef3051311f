// The symbols of a book, looked up by their places. The symbol part is read in crate `symbol_part`.
#![tactic(auto)]

pub mod table;
