// Whether a tagged listing is good, and what it says of broader terms, in two rows of numbers.
#![tactic(auto)]

mod faults;
mod judge;
mod lines;
mod terms;

pub use faults::{Fault, Refusal};
pub use terms::{HEADINGS, ROWS, TERMS, Terms, terms_of};
