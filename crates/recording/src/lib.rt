// The record of an answer: a value's symbols and its decisions, behind the answers that are written already.
#![tactic(auto)]

mod put;
mod record;

pub use record::record_answer;
