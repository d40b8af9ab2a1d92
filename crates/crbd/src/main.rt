//! Runs the parts of the virtual TPM as processes that talk over sockets. It has one command, `emulator`.
//!
//! The connections are served by `emulator_server`, which has the contracts. What is here is words, sockets, threads and exit
//! statuses; standard error says to a person why a run ended with another status than 0.
#![tactic(auto)]

mod emulator;
mod ending;
#[cfg(test)]
mod tests;
mod words;

use crate::ending::Ending;
use crate::words::{EmulatorCommand, parse_words};
pub use emulator_server::{LockedDesk, Served, serve_emulator};
use std::alloc::AllocError;
use std::io::ErrorKind;
use std::process::ExitCode;
use vt_base::Status;

fn main(rt: HostRuntime) -> ExitCode {
    let ending = match command_of(&rt) {
        Ok(Some(command)) => emulator::run(&rt, rt.alloc(), &command),
        Ok(None) => Ending::Status(Status::Usage),
        Err(AllocError) => Ending::Status(Status::Memory),
    };
    ExitCode::from(print_end(&rt, ending).number())
}

// The command that the words behind the program's name are, if they are one.
fn command_of(rt: &HostRuntime) -> Result<Option<EmulatorCommand>, AllocError> {
    let mut words = Vec::new(rt.alloc());
    match std::env::args(rt) {
        Ok(args) => {
            for word in args.skip(1) {
                words.push(word)?;
            }
        }
        Err(error) if error.kind() == ErrorKind::OutOfMemory => return Err(AllocError),
        // A word that isn't text is in no grammar, and neither is an empty list of words.
        Err(_) => {}
    }
    Ok(parse_words(&words))
}

// Writes the text of an end to standard output, and the reason to standard error. A text that can't be written is a fault of
// the output.
fn print_end(rt: &HostRuntime, ending: Ending) -> Ending {
    let ending = match ending.text() {
        Some(text) if println!(rt; "{text}").is_err() => Ending::Status(Status::WriteFault),
        _ => ending,
    };
    if let Some(why) = ending.explanation() {
        // Where standard error can't be written either, the status alone says it.
        let _written = eprintln!(rt; "{why}");
    }
    ending
}
