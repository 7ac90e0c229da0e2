// A message file, served on the bench record.
#![tactic(auto)]

pub mod bytes;
pub mod serve;
