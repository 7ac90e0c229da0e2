// The tags outside the frame buffer group: what each answers, and what a set leaves.
#![tactic(auto)]

pub mod clock;
pub mod fact;
pub mod memory;
pub mod outside;
pub mod place;
pub mod power;
pub mod state;
pub mod temperature;
pub mod voltage;
