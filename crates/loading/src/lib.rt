// Questions: read and weighed, one or a row of them (request L3), and their nodes made in the order given.
#![tactic(auto)]

mod make;
mod weigh;

pub use make::{Questions, load_question, load_row};
pub use weigh::{Refused, Weighed, weigh_question, weigh_row};
