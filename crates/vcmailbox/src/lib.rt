// The library for programs in C and other languages; include/vcmailbox.h declares its functions.
#![tactic(auto)]

pub mod apart;
pub mod build;
pub mod emulator;
