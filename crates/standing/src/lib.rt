// What stands in bytes and in lent numbers, as the layers of a run read it: definitions and lemmas, and the shapes of symbols in code.
#![tactic(auto)]

mod shapes;

pub use shapes::{arity_in, fill_shapes, is_operation_in};
