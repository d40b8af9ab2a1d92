//! Runs scripts on hosts in one process: `script_run` over the program's words, its standard input and its standard output.
//! Standard error, which no contract speaks of and no script reads, says to a person why a run ended with another status
//! than 0.
#![tactic(auto)]

use script_run::run;
use std::io::ErrorKind;
use std::process::ExitCode;
use vt_base::{Status, StdSink, StdSource};

const HELP: &str =
    "crbsim: these words are no command. A command reads standard input and writes standard output:
  crbsim replay        runs a script of lines on two hosts, and replies to each line
  crbsim drive         runs whole TPM commands, one a line as cmd HEX, and moves the guest between them
  crbsim suspend       runs a script on one host, and writes the saved state of device and TPM
  crbsim resume        reads a saved state and then a script, and goes on as replay from that state
  crbsim check         reads a saved state, and writes how many bytes it has
  crbsim bulk N COUNT  makes lines for drive from the seed N, and writes a digest of what they give
options: --seed HEX (64 digits) of replay, drive and suspend; --piece P (1 to 4096) of these and resume
statuses: 0 done, 2 words, 3 line, 4 read, 5 write, 6 memory, 7 limit, 8 refused, 9 not yet
example: printf 'r 30 4\\n' | crbsim replay. docs/PROGRAMS.md has all lines, replies and limits.";

fn main(rt: HostRuntime) -> ExitCode {
    let status = run_with_words(&rt);
    if let Some(why) = explanation(&status) {
        // Where standard error can't be written either, the status alone says it.
        let _written = eprintln!(rt; "{why}");
    }
    ExitCode::from(status.number())
}

fn run_with_words(rt: &HostRuntime) -> Status {
    let alloc = rt.alloc();
    let mut words = Vec::new(alloc);
    match std::env::args(rt) {
        Ok(args) => {
            for word in args.skip(1) {
                if words.push(word).is_err() {
                    return Status::Memory;
                }
            }
        }
        Err(error) if error.kind() == ErrorKind::OutOfMemory => return Status::Memory,
        // A word that isn't text is in no grammar, and neither is an empty list of words.
        Err(_) => {}
    }
    let mut source = StdSource::new(rt.stdin());
    let mut sink = StdSink::new(rt.stdout());
    let ran = run(alloc, &words, &mut source, &mut sink);
    let status = ran.status;
    // (The hosts are dropped by a call: dropped in passing, each of their parts is proved once more here.)
    drop(ran);
    status
}

// Why a run ended so, in one sentence for a person, and what to do.
fn explanation(status: &Status) -> Option<&'static str> {
    match status {
        Status::Ok => None,
        Status::Usage => Some(HELP),
        Status::Script => Some(
            "crbsim: the line with the number that the output ends with isn't in the grammar. Words have exactly one space \
             between them; there are no comments, no empty lines and no carriage returns. The grammar is in docs/PROGRAMS.md.",
        ),
        Status::ReadFault => Some("crbsim: standard input couldn't be read."),
        Status::WriteFault => Some("crbsim: standard output couldn't be written."),
        Status::Memory => Some("crbsim: there wasn't enough memory."),
        Status::Limit => Some("crbsim: the input is over a limit that docs/PROGRAMS.md names."),
        Status::Refused => Some(
            "crbsim: the input is no saved state, or has bytes that can't stand in one. The output has the reason and the place.",
        ),
        Status::NotYet => Some(
            "crbsim: the last command is claimed and unfinished, so nothing was saved. Add up to three `work` lines at the end.",
        ),
    }
}
