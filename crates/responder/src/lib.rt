// The responder: the emulated board serves a message.
#![tactic(auto)]

pub mod respond;
pub mod walk;
