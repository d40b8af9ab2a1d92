//! The fields of a record before its content, and the bytes that stand for flags and phases.

ghost use Rattle.std.specs.Prelude.{◌≡◌};
ghost use Rattle.device_record.specs.Records.{flag_byte, flag_at, phase_code, phase_at};

use crate::format::{CLEAR, COMPLETION, EXECUTION, IDLE, LOST, READY, RECEPTION, SET};
use crb_regs::{Phase, Regs};

/// What a record gives before its content.
#[derive(Clone, Copy, Debug, PartialEq, Eq)]
pub struct Fields {
    /// The registers.
    pub regs: Regs,
    /// Whether the job that waits is cancelled.
    pub cancelled: bool,
    /// The number of the last job.
    pub number: u64,
    /// How many bytes of content follow.
    pub count: u16,
}

/// The byte of a flag.
pub fn flag_byte(flag: bool) -> u8
    ensures { result ≡ flag_byte flag }
{
    if flag { SET } else { CLEAR }
}

/// The flag of a byte, if it is one.
pub fn flag_at(byte: u8) -> Option<bool>
    ensures { result ≡ flag_at byte }
{
    match byte {
        CLEAR => Some(false),
        SET => Some(true),
        _ => None,
    }
}

/// The code of a phase.
pub fn phase_code(phase: Phase) -> u8
    ensures { result ≡ phase_code phase }
{
    match phase {
        Phase::Idle => IDLE,
        Phase::Ready => READY,
        Phase::Reception => RECEPTION,
        Phase::Execution => EXECUTION,
        Phase::Completion => COMPLETION,
        Phase::Lost => LOST,
    }
}

/// The phase of a code, if a record may have it.
pub fn phase_at(code: u8) -> Option<Phase>
    ensures { result ≡ phase_at code }
{
    match code {
        IDLE => Some(Phase::Idle),
        READY => Some(Phase::Ready),
        RECEPTION => Some(Phase::Reception),
        EXECUTION => Some(Phase::Execution),
        COMPLETION => Some(Phase::Completion),
        _ => None,
    }
}
