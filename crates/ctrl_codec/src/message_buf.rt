// Bytes to be sent.
ghost use Rattle.std.specs.Prelude.{◌≡◌, ◌+◌, ◌≤◌, ◌++◌, [], length};
ghost use Rattle.vt_base.specs.Numbers.{number, long};

use crate::codes::LARGEST_MESSAGE;
use std::marker::Model;
use vt_base::ByteBuf;

/// The bytes of a message that is to be sent, at most 4112, kept in place with no memory of the heap.
#[derive(Drop)]
pub struct Out {
    held: ByteBuf<LARGEST_MESSAGE>,
}

impl Model for Out {
    ghost use Rattle.std.specs.Prelude.{ℕ, List};

    ghost Value = { List ℕ };

    ghost view = { λ o. o.held };
}

impl Out {
    /// No bytes.
    pub fn new() -> Self
        ensures { result ≡ [] }
    {
        Out {
            held: ByteBuf::new(),
        }
    }

    /// All bytes.
    pub fn bytes(&self) -> &[u8]
        ensures bytes { result.now ≡ self.now }
        ensures room { length self.now ≤ 4112 }
    {
        self.held.as_slice()
    }

    /// Forgets all bytes.
    pub fn clear(&mut self)
        ensures { self.new ≡ [] }
    {
        self.held.clear();
    }

    pub(crate) fn push(&mut self, more: &[u8])
        requires { length self.old + length more.now ≤ 4112 }
        ensures { self.new ≡ self.old ++ more.now }
    {
        self.held.push(more);
    }

    pub(crate) fn push_number(&mut self, n: u32)
        requires { length self.old ≤ 100 }
        ensures { self.new ≡ self.old ++ number n }
    {
        self.push(&n.to_be_bytes());
    }

    pub(crate) fn push_long(&mut self, n: u64)
        requires { length self.old ≤ 100 }
        ensures { self.new ≡ self.old ++ long n }
    {
        self.push(&n.to_be_bytes());
    }
}
