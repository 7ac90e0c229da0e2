// The frame buffer group as one operation.
#![tactic(auto)]

pub mod answer;
pub mod decision;
pub mod operation;
pub mod valid;
