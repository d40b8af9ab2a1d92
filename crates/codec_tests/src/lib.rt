//! Tests of what is reported as bytes or as text: control messages, migration messages, the lines of scripts, and the
//! lines that are made.
//!
//! They compare with values from outside, and make each public call once. What a clause says isn't tried again here.
#![tactic(auto)]

#[cfg(test)]
mod bulk_lines_tests;
#[cfg(test)]
mod ctrl_codec_tests;
#[cfg(test)]
mod move_codec_tests;
#[cfg(test)]
mod vt_script_tests;
