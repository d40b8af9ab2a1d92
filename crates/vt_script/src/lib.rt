//! The lines of a script and the replies to them, as text.
//!
//! A script is bytes. [`Lines`] reads its lines one by one from a source, and keeps no more than one of them.
//! [`parse_line`] gives the [`Event`] that a line asks for, and [`print_reply`] writes the text of a [`Reply`]. A script
//! that sends whole commands has other lines: [`parse_drive`] gives what one asks for, and [`print_response`] writes the
//! text of a response. What a line does, and what answers it, is left to the crates above.
#![tactic(auto)]

mod drive;
mod event;
mod line_reader;
mod number;
mod parts;
mod reply;

pub use drive::{DriveLine, commands_are_read_as_spelled, parse_drive, print_response};
pub use event::{Event, parse_line};
pub use line_reader::{Lines, Next};
pub use reply::{Reply, print_reply};
