//! The list of the calls that a disk has done. Its memory is taken beforehand, so that no call takes any.
ghost use Rattle.std.specs.Prelude.{◌≡◌, ◌<◌, ◌≤◌, ◌-◌, ◌*◌, ◌++◌, [], ◌∷◌, length, OnOk};
ghost use Rattle.own_store.specs.Steps.Step.{Wrote};

use std::alloc::{AllocError, Global};
use std::marker::Model;

/// For how many calls memory is taken at once.
pub const CALLS: usize = 16;

// Each call may be followed by a loss of power, which needs an entry too, and so may the last call before them.
const ENTRIES: usize = 2 * CALLS + 1;

// No call writes more.
const LONGEST_WRITE: usize = 16384;

/// A call that was done. The bytes of a write are in the list of all bytes that were written, after those of the writes
/// before it.
#[derive(Clone, Copy, Debug)]
pub enum Call {
    Write { at: u32, count: usize },
    Sync,
    Loss { keep: bool },
    Read,
}

/// All calls that were done, and the bytes of their writes.
#[derive(Debug, Drop)]
pub struct CallLog {
    calls: Vec<Call>,
    written: Vec<u8>,
}

impl Model for CallLog {
    ghost use Rattle.std.specs.Prelude.{◌≡◌, ◌-◌, length, vec_len, vec_capacity};
    ghost use Rattle.own_store.specs.Logged.{LoggedCalls, steps_of, written_length};

    ghost Value = { LoggedCalls };

    ghost view = { λ r. record { steps = steps_of r.calls.items r.written.items; entries = vec_capacity r.calls - vec_len r.calls; bytes = vec_capacity r.written - vec_len r.written } };

    ghost invariant = { λ r. written_length r.calls.items ≡ length r.written.items };
}

impl CallLog {
    ghost use Rattle.own_store.specs.Logged.{IsBare, bare};

    /// No calls.
    pub fn new(alloc: Global) -> CallLog
        ensures none { result.steps ≡ [] }
    {
        CallLog {
            calls: Vec::new(alloc),
            written: Vec::new(alloc),
        }
    }

    /// Takes memory for 16 more calls from now. What there was stays, also where it can't be had.
    pub fn reserve(&mut self) -> Result<(), AllocError>
        ensures steps { self.new.steps ≡ self.old.steps }
        ensures entries_stay { self.old.entries ≤ self.new.entries }
        ensures bytes_stay { self.old.bytes ≤ self.new.bytes }
        ensures entries { OnOk result (33 ≤ self.new.entries) }
        ensures bytes { OnOk result (16 * 16384 ≤ self.new.bytes) }
    {
        self.calls.reserve(ENTRIES)?;
        self.written.reserve(CALLS * LONGEST_WRITE)
    }

    /// Adds a write. There has to be memory for it.
    pub fn add_write(&mut self, at: u32, bytes: &[u8])
        requires entry { 0 < self.old.entries }
        requires room { length bytes.now ≤ self.old.bytes }
        ensures steps { self.new.steps ≡ self.old.steps ++ Wrote at bytes.now ∷ [] }
        ensures entries { self.new.entries ≡ self.old.entries - 1 }
        ensures bytes { self.old.bytes - length bytes.now ≤ self.new.bytes }
    {
        let count = bytes.len();
        if self.written.extend_from_slice(bytes).is_ok() {
            self.calls.push_reserved(Call::Write { at, count });
        }
    }

    /// Adds a call other than a write. There has to be memory for it.
    pub fn add(&mut self, call: Call)
        requires entry { 0 < self.old.entries }
        requires bare { IsBare call }
        ensures steps { self.new.steps ≡ self.old.steps ++ bare call ∷ [] }
        ensures entries { self.new.entries ≡ self.old.entries - 1 }
        ensures bytes { self.new.bytes ≡ self.old.bytes }
    {
        self.calls.push_reserved(call);
    }
}
