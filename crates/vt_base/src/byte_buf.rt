// Bytes of one message, read from pieces of any size.
ghost use Rattle.std.specs.Prelude.{◌≡◌, ℕ, ◌+◌, ◌≤◌, ◌<◌, List, [], ◌++◌, length, take, IfSome, IfNone, OnSome};
ghost use Rattle.vt_base.specs.Numbers.{IsBytes};
ghost use Rattle.vt_base.specs.Layout.{Encodes, IsOpen};

use crate::grammar::{Grammar, Missing};
use std::marker::Model;

/// At most `N` bytes, kept in place with no memory of the heap.
#[derive(Debug, Drop)]
pub struct ByteBuf<const N: usize> {
    bytes: [u8; N],
    len: usize,
}

impl<const N: usize> Model for ByteBuf<N> {
    ghost Value = { List ℕ };

    ghost view = { λ h. take h.len h.bytes };

    ghost invariant = { λ h. (h.len ≤ N) × IsBytes h.bytes };
}

impl<const N: usize> ByteBuf<N> {
    /// No bytes.
    pub fn new() -> Self
        ensures empty { result ≡ [] }
    {
        ByteBuf {
            bytes: [0; N],
            len: 0,
        }
    }

    /// All bytes that are kept.
    pub fn as_slice(&self) -> &[u8]
        ensures bytes { result.now ≡ self.now }
        ensures room { length self.now ≤ N }
        ensures fits { IsBytes self.now }
    {
        &self.bytes[..self.len]
    }

    /// Forgets all bytes.
    pub fn clear(&mut self)
        ensures empty { self.new ≡ [] }
    {
        self.len = 0;
    }

    /// Keeps the first `len` bytes.
    pub fn truncate(&mut self, len: usize)
        requires within { len ≤ length self.old }
        ensures prefix { self.new ≡ take len self.old }
    {
        self.len = len;
    }

    /// Keeps these bytes behind the others.
    pub fn push(&mut self, more: &[u8])
        requires room { length self.old + length more.now ≤ N }
        ensures appended { self.new ≡ self.old ++ more.now }
    {
        let end = self.len + more.len();
        let all = &mut self.bytes[..];
        all[self.len..end].copy_from_slice(more);
        self.len = end;
    }

    /// Takes bytes of the piece up to the end of one message, and no byte past it. It gives how many it took, and how
    /// the message ended, or `None` where the piece ends first; then the next piece goes on there. Once a message
    /// ended, `clear` the bytes before the next.
    pub fn feed<G: Grammar>(&mut self, grammar: &G, piece: &[u8]) -> (usize, Option<G::End>)
        requires room { G.room grammar.now ≤ N }
        requires open { IsOpen (G.layout grammar.now) self.old }
        ensures used { result.0 ≤ length piece.now }
        ensures taken { self.new ≡ self.old ++ take result.0 piece.now }
        ensures ended { IfSome result.1 (λ end. Encodes (G.layout grammar.now) end self.new) }
        ensures fits { OnSome result.1 (IsBytes self.new) }
        ensures open { IfNone result.1 (IsOpen (G.layout grammar.now) self.new) }
        ensures whole { IfNone result.1 (result.0 ≡ length piece.now) }
    {
        let mut used = 0;
        loop {
            match grammar.parse(self.as_slice()) {
                Ok(end) => return (used, Some(end)),
                Err(Missing(missing)) => {
                    let rest = &piece[used..];
                    if rest.len() < missing {
                        self.push(rest);
                        return (piece.len(), None);
                    }
                    self.push(&rest[..missing]);
                    used += missing;
                }
            }
        }
    }
}
