// Books from the tagged listing.
#![tactic(auto)]

mod write;

pub use write::write_listing;
