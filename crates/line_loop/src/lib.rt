//! The lines of an input, done one by one: what every command shares that reads lines and writes what they give.
#![tactic(auto)]

mod actor;
mod lines;
mod output;

pub use actor::{Acted, Actor};
pub use lines::each_line;
pub use output::write_and_end;
