//! A guest moves from one host to the other, each message from hand to hand. One message of the move may be lost.
#![tactic(auto)]

pub mod bridge;
mod delivering;
mod recovering;
mod starting;
mod whole_move;

pub use whole_move::move_guest;
