//! Tests of one host: its saved stream and its world.
//!
//! They compare with values from outside, and make each public call once. What a clause says isn't tried again here.
#![tactic(auto)]

#[cfg(test)]
mod move_core_tests;
#[cfg(test)]
mod pair_tests;
#[cfg(test)]
mod piece_tests;
#[cfg(test)]
mod saved_stream_tests;
#[cfg(test)]
mod vt_world_tests;
