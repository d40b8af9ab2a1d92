//! Two seats and the messages between them, where a script leads them.
//!
//! The definitions say where the seats of two hosts and a bag of messages are once lines and replies are known: what each
//! host has by its side, with its worker and its emulator, and which messages are in the bag. The laws say that what a host
//! makes of a line, real device and emulator included, is what the definitions of `two_hosts` make of it.
//!
//! Nothing here runs. The world of two hosts is in `vt_world`.
#![tactic(auto)]

pub mod laws;
