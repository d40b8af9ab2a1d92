//! The words of a run.
ghost use Rattle.std.specs.Prelude.{◌≡◌, ℕ, map, Some, IfSome};
ghost use Rattle.std.specs.String.{string_bytes};
ghost use Rattle.script_run.specs.Words.{BulkWords, IsTask, ResumeWords, StartWords};
ghost use Rattle.script_run.specs.declared.action.Task.{Task};
ghost use Rattle.script_run.specs.declared.action.Task.TheVariants.{Bulk};
ghost use Rattle.script_run.specs.declared.start.Start.{Start};

use crate::decimal::number;
use crate::options::Options;
use crate::start::Start;

/// What is done with an input.
#[derive(Clone, Copy, Debug, PartialEq, Eq)]
pub enum Action {
    /// Its lines are done one by one, and each has a reply.
    Replay {
        /// How the run begins.
        start: Start,
    },
    /// Its lines are commands for the TPM, and each has a response.
    Drive {
        /// How the run begins.
        start: Start,
    },
    /// Its lines are done one by one, and then the host is saved.
    Suspend {
        /// How the run begins.
        start: Start,
    },
    /// A saved stream is loaded, and the lines behind it are done one by one, each with a reply.
    Resume {
        /// The most bytes of a piece, from 1 to 4096.
        piece: u32,
    },
    /// A saved stream is looked at.
    Check,
}

/// What the words of a run ask for.
#[derive(Clone, Copy, Debug, PartialEq, Eq)]
pub enum Task {
    /// An input is read, and this is done with it.
    Read(Action),
    /// Drive lines are made and done, and a summary of them is written.
    Bulk {
        /// The seed of the generator of lines.
        seed: u64,
        /// How many lines it draws, at most 100,000.
        count: u32,
    },
}

/// The most lines that may be drawn.
const LARGEST_COUNT: u64 = 100_000;

/// The task that the words name; `None` comes where they aren't in the grammar.
pub fn task_of(words: &[String]) -> Option<Task>
    ensures named { IfSome result (λ task. IsTask task words.now) }
    ensures only { (task : Task) → IsTask task words.now → result ≡ Some task }
{
    let (command, rest) = words.split_first()?;
    match command.as_str() {
        "replay" => Some(Task::Read(Action::Replay {
            start: start_of(rest)?,
        })),
        "drive" => Some(Task::Read(Action::Drive {
            start: start_of(rest)?,
        })),
        "suspend" => Some(Task::Read(Action::Suspend {
            start: start_of(rest)?,
        })),
        "resume" => Some(Task::Read(Action::Resume {
            piece: piece_alone(rest)?,
        })),
        "check" => match rest {
            [] => Some(Task::Read(Action::Check)),
            _ => None,
        },
        "bulk" => bulk_of(rest),
        _ => None,
    }
}

// How a run begins by the options behind its command.
fn start_of(words: &[String]) -> Option<Start>
    ensures named { IfSome result (λ start. StartWords start (map string_bytes words.now)) }
    ensures only { (start : Start) → StartWords start (map string_bytes words.now) → result ≡ Some start }
{
    let given = Options::parse(words)?;
    Some(given.start())
}

// The size of a piece by the options behind a command that takes neither seed nor banks.
fn piece_alone(words: &[String]) -> Option<u32>
    ensures named { IfSome result (λ piece. ResumeWords piece (map string_bytes words.now)) }
    ensures only { (piece : ℕ) → ResumeWords piece (map string_bytes words.now) → result ≡ Some piece }
{
    let given = Options::parse(words)?;
    if given.seed.is_some() || given.banks.is_some() {
        return None;
    }
    Some(given.start().piece)
}

// The task of the two numbers behind `bulk`.
fn bulk_of(words: &[String]) -> Option<Task>
    ensures named { IfSome result (λ task. (seed : ℕ) × (count : ℕ) × (task ≡ Bulk seed count) × BulkWords seed count (map string_bytes words.now)) }
    ensures only { (seed count : ℕ) → BulkWords seed count (map string_bytes words.now) → result ≡ Some (Bulk seed count) }
{
    let [seed, count] = words else {
        return None;
    };
    let seed = number(seed.as_str(), u64::MAX)?;
    let count = number(count.as_str(), LARGEST_COUNT)?;
    Some(Task::Bulk {
        seed,
        count: count as u32,
    })
}
