// A list of bytes that owns its memory.
ghost use Rattle.std.specs.Borrow.{sem};
ghost use Rattle.std.specs.Prelude.{◌≡◌, ◌≤◌, length, take, IfOk};
ghost use Rattle.vt_base.specs.Lending.{LendsBytes};

use std::alloc::{AllocError, Global};
use std::marker::Model;

/// A list of bytes.
#[derive(Debug, Drop)]
pub struct Bytes {
    items: Vec<u8>,
}

impl Model for Bytes {
    ghost use Rattle.std.specs.Prelude.{ℕ, List};

    ghost Value = { List ℕ };

    ghost view = { λ b. b.items.items };
}

impl Bytes {
    /// A copy of these bytes, in memory of its own.
    pub fn from_slice(alloc: Global, s: &[u8]) -> Result<Bytes, AllocError>
        ensures same { IfOk result (λ b. b ≡ s.now) }
    {
        Ok(Bytes {
            items: Vec::from_slice(alloc, s)?,
        })
    }

    /// All bytes.
    pub fn as_slice(&self) -> &[u8]
        ensures value { result.now ≡ self.now }
    {
        self.items.as_slice()
    }

    /// All bytes, to be changed in place: what the caller leaves in the slice is the list afterwards.
    pub fn as_mut_slice(&mut self) -> &mut [u8]
        ensures* writes_back { sem 𝓛 (LendsBytes self.entry result) }
        ensures value { result.now ≡ self.old }
    {
        self.items.as_mut_slice()
    }

    /// Keeps the first `n` bytes, and no others.
    pub fn cut(&mut self, n: usize)
        requires within { n ≤ length self.old }
        ensures prefix { self.new ≡ take n self.old }
    {
        self.items.truncate(n);
    }
}
