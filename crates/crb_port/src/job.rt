//! What goes through a port.
use vt_base::Buf;

/// How a command ended.
#[derive(Clone, Copy, Debug, PartialEq, Eq)]
pub enum Outcome {
    /// The TPM executed it, and the buffer holds its response.
    Done,
    /// It was cancelled before it was executed.
    Cancelled,
    /// Nobody knows whether it was executed.
    Lost,
}

/// A command that was started: its number, whether it was cancelled while it waited, and the buffer that holds it.
#[derive(Debug, Drop)]
pub struct Job {
    pub number: u64,
    pub cancelled: bool,
    pub buf: Buf,
}

/// The end of the job of that number, with the buffer that left with the job.
#[derive(Debug, Drop)]
pub struct Answer {
    pub number: u64,
    pub outcome: Outcome,
    pub buf: Buf,
}

/// What a pull brings back.
#[derive(Debug, Drop)]
pub enum Pull {
    /// Nothing: the port was free.
    Free,
    /// The job, which nobody had claimed.
    Job(Job),
    /// The answer to the job.
    Answer(Answer),
    /// Nothing: the job is claimed.
    Busy,
}

/// What stands in a port.
#[derive(Debug, Drop)]
pub enum PortState {
    /// Nothing: the port is free.
    Nothing,
    /// A job that nobody has claimed.
    Waiting(Job),
    /// The job of this number was claimed, and isn't answered.
    Claimed(u64),
    /// An answer that nobody has collected.
    Answered(Answer),
}

/// What one step of a call can find at a port.
#[derive(Clone, Copy, Debug, PartialEq, Eq)]
pub enum PortStage {
    /// Nothing stands.
    Free,
    /// A job waits, and isn't cancelled.
    Queued,
    /// A job waits, and is cancelled.
    Cancelled,
    /// The job is claimed.
    Claimed,
    /// An answer stands.
    Answered,
}
