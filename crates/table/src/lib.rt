// The table of known tags.
#![tactic(auto)]

pub mod kinds;
pub mod rows;
