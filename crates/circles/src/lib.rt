// The circle of a tagged listing named before the night, or a level for each heading.
#![tactic(auto)]

mod circle;

pub use circle::{Saved, save_listing};
