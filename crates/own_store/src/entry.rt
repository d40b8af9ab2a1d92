//! What a ledger keeps.
use vt_base::Bytes;

/// The longest stream of an entry.
pub const STREAM_LIMIT: usize = 7285;

/// What a host may do, by its ledger.
#[derive(Clone, Copy, Debug, PartialEq, Eq)]
pub enum Role {
    /// It has no guest.
    Empty,
    /// Its guest may run.
    Running,
    /// It let its guest go.
    Released,
    /// It has all of a guest that may not run yet.
    Prepared,
}

/// A host's role, the epoch of the latest offer that it saw, and the saved stream that it boots from.
#[derive(Debug, Drop)]
pub struct Entry {
    pub role: Role,
    pub top: u64,
    pub stream: Bytes,
}
