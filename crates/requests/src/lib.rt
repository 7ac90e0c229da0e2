// What the tags of a message ask of the board.
#![tactic(auto)]

pub mod ask;
