//! How far a worker is, and what one step did.
use crb_port::Job;
use tpm_frame::HEADER_SIZE;

/// How far a worker is with its job.
#[derive(Debug, Drop)]
pub enum Progress {
    /// It has none.
    Free,
    /// The job is claimed.
    Claimed(Job),
    /// Its command was sent.
    Sent(Job),
    /// The header of its response was received.
    HeaderReceived(Job, [u8; HEADER_SIZE]),
}

/// What one step did, with the number of the job.
#[derive(Clone, Copy, Debug, PartialEq, Eq)]
pub enum Step {
    /// Nothing: the worker has no job, and no job was claimed.
    Idle,
    /// A job was claimed.
    Claim(u64),
    /// Its command was sent.
    Sent(u64),
    /// The header of its response was received.
    Exec(u64),
    /// The whole response was received, and went back with the answer.
    Done(u64),
    /// The answer says that the command was cancelled.
    Cancelled(u64),
    /// The answer says that nobody knows whether the command was executed: a call on the wires failed, or what came isn't
    /// the header of a response.
    Lost(u64),
}
