// Answers of tags, written into their message: the tag word, and the value's first bytes.
#![tactic(auto)]

pub mod writing;
