//! Bytes that wait to be received.
ghost use Rattle.std.specs.Prelude.{◌≡◌, ◌≢◌, [], length, take, drop, min, None, IfOk, IfSome};
ghost use Rattle.ctrl_model.specs.Emulator.{is_nil, response_to, ran};

use ctrl_codec::Out;
use std::alloc::{AllocError, Global};
use std::marker::Model;
use vt_base::Buf;
use vt_emulator::{Desk, Emulator};

/// A reply that waits, up to its last byte.
#[derive(Drop)]
pub(crate) struct PendingReply {
    out: Out,
    from: usize,
}

impl Model for PendingReply {
    ghost use Rattle.std.specs.Prelude.{◌≤◌, ℕ, List, length, drop};

    ghost Value = { List ℕ };

    ghost view = { λ r. drop r.from r.out };

    ghost invariant = { λ r. r.from ≤ length r.out };
}

impl PendingReply {
    pub(crate) fn new() -> PendingReply
        ensures { result ≡ [] }
    {
        PendingReply {
            out: Out::new(),
            from: 0,
        }
    }

    pub(crate) fn is_empty(&self) -> bool
        ensures { result ≡ is_nil self.now }
    {
        self.from == self.out.bytes().len()
    }

    pub(crate) fn clear(&mut self)
        ensures { self.new ≡ [] }
    {
        self.out.clear();
        self.from = 0;
    }

    /// Lets the reply wait, and nothing else.
    pub(crate) fn hold(&mut self, reply: Out)
        ensures { self.new ≡ reply }
    {
        self.out = reply;
        self.from = 0;
    }

    /// Gives as many of the bytes as the slice holds.
    pub(crate) fn give(&mut self, into: &mut [u8]) -> usize
        ensures count { result ≡ min (length into.old) (length self.old) }
        ensures given { take result into.new ≡ take (length into.old) self.old }
        ensures left { self.new ≡ drop (length into.old) self.old }
    {
        let count = give(&self.out.bytes()[self.from..], into);
        self.from += count;
        count
    }
}

/// A response that waits, up to its last byte.
#[derive(Drop)]
pub(crate) struct PendingResponse {
    buf: Buf,
    from: usize,
    to: usize,
}

impl Model for PendingResponse {
    ghost use Rattle.std.specs.Prelude.{◌≡◌, ◌≤◌, ℕ, List, length};
    ghost use Rattle.vt_seat.specs.Wires.{slice_between};

    ghost Value = { List ℕ };

    ghost view = { λ r. slice_between r.from r.to r.buf };

    ghost invariant = { λ r. (r.from ≤ r.to) × (r.to ≤ 3968) × (length r.buf ≡ 3968) };
}

impl PendingResponse {
    pub(crate) fn new(alloc: Global) -> Result<PendingResponse, AllocError>
        ensures { IfOk result (λ r. r ≡ []) }
    {
        Ok(PendingResponse {
            buf: Buf::new(alloc)?,
            from: 0,
            to: 0,
        })
    }

    pub(crate) fn is_empty(&self) -> bool
        ensures { result ≡ is_nil self.now }
    {
        self.from == self.to
    }

    pub(crate) fn clear(&mut self)
        ensures { self.new ≡ [] }
    {
        self.from = 0;
        self.to = 0;
    }

    /// Has the emulator answer the command that it holds, if there is one: nothing but its response waits then.
    pub(crate) fn run(&mut self, emulator: &mut Emulator)
        requires nothing { self.old ≡ [] }
        ensures none { emulator.old.emulator.held ≡ None → (self.new ≡ []) × (emulator.new ≡ emulator.old) }
        ensures some { IfSome emulator.old.emulator.held (λ h.
            (self.new ≡ response_to h emulator.old.emulator) × (self.new ≢ [])
            × (emulator.new ≡ record emulator.old { emulator = ran h emulator.old.emulator })) }
    {
        self.from = 0;
        self.to = emulator.run_held(&mut self.buf);
    }

    /// Gives as many of the bytes as the slice holds.
    pub(crate) fn give(&mut self, into: &mut [u8]) -> usize
        ensures count { result ≡ min (length into.old) (length self.old) }
        ensures given { take result into.new ≡ take (length into.old) self.old }
        ensures left { self.new ≡ drop (length into.old) self.old }
    {
        let count = give(&self.buf.bytes()[self.from..self.to], into);
        self.from += count;
        count
    }
}

// Copies as many of the bytes as the slice holds.
fn give(bytes: &[u8], into: &mut [u8]) -> usize
    ensures count { result ≡ min (length into.old) (length bytes.now) }
    ensures given { take result into.new ≡ take (length into.old) bytes.now }
{
    let count = into.len().min(bytes.len());
    into[..count].copy_from_slice(&bytes[..count]);
    count
}
