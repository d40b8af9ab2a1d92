//! What control messages and commands do to an emulator: its state, and the step of each message, as definitions. The client
//! and the emulator are both proved against them.
//!
//! `EmulatorState` is an emulator, `HandlesRequest` what a whole request does to it, and `Link` an emulator with the bytes
//! that are on their way to it and from it. The numbers are those of the emulator's profile.
#![tactic(auto)]

pub mod laws;
mod profile;

pub use profile::{
    BAD_ORDINAL, BAD_PARAMETER, CAPABILITIES, DELETE_VOLATILE, FLAGS_PLACE, GREATEST_BUFFER,
    LARGEST_PIECE, LEAST_BUFFER, LENGTH_PLACE, PERMANENT_BLOB, SAVED_BLOB, SUCCESS, TOTAL_PLACE,
    VOLATILE_BLOB,
};
