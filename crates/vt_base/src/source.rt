// Where bytes come from.
ghost use Rattle.std.specs.Prelude.{◌≡◌, ◌≢◌, ◌+◌, ◌≤◌, ◌<◌, ℕ, List, Bool, Option, IsTrue, IsOk};
ghost use Rattle.std.specs.Io.{ReadsAtMost};
ghost use Rattle.std.specs.Io.KnownBytes.{ReadConsumes};
ghost use Rattle.vt_base.specs.Faults.{Counts, Rose};
ghost use Rattle.vt_base.specs.Input.{CountsInput, ReadsToEnd, LosesAtMost, ReadsExactly};

use crate::Failed;
use std::alloc::Global;

/// Where bytes come from.
pub trait Source {
    /// The bytes that are left to read, where they are known.
    ghost left: { Self → Option (List ℕ) };

    /// How many reads have failed. A counter that has reached its last value stays there.
    ghost faults: { Self → ℕ };

    /// Whether the source promises that no later read fails.
    ghost never_fails: { Self → Bool };

    /// Writes the next bytes to the start of the slice and gives their number. For a slice that isn't empty, 0 is the
    /// end of the input. A read that fails takes no byte, and the next one goes on where it stood.
    fn read(&mut self, into: &mut [u8]) -> Result<usize, Failed>
        ensures bound { ReadsAtMost result into.new }
        ensures bytes { ReadConsumes (left self.old) (left self.new) result into.new }
        ensures counts { Counts (faults self.old) (faults self.new) result }
        ensures never_fails { IsTrue (never_fails self.old) → IsOk result }
        ensures stays { IsTrue (never_fails self.old) → IsTrue (never_fails self.new) };
}

/// What came of reading an input to its end.
#[derive(Debug, Drop)]
pub enum Input {
    /// All its bytes.
    Whole(Vec<u8>),
    /// It has more bytes than the limit.
    TooLong,
    /// A read failed.
    Fault,
    /// There was no memory for its bytes.
    Memory,
}

// How many bytes one read asks for: large enough that reads are few, small enough for the stack.
const CHUNK: usize = 4096;

/// Reads an input to its end, if it has at most `limit` bytes. Whatever the answer, what was read up to then is gone
/// from the source: at most `limit` bytes and one chunk of 4096.
pub fn read_all<S: Source>(alloc: Global, source: &mut S, limit: usize) -> Input
    ensures input { ReadsExactly (S.left source.old) limit result }
    ensures ended { ReadsToEnd (S.left source.new) result }
    ensures gone { LosesAtMost (S.left source.old) (S.left source.new) (limit + 4096) }
    ensures counts { CountsInput (S.faults source.old) (S.faults source.new) result }
    ensures fault { result ≡ Input.Fault → Rose (S.faults source.old) (S.faults source.new) }
    ensures later { S.faults source.old ≤ S.faults source.new }
    ensures never_fails { IsTrue (S.never_fails source.old) → result ≢ Input.Fault }
{
    let mut bytes = Vec::new(alloc);
    let mut chunk = [0u8; CHUNK];
    while bytes.len() <= limit {
        match source.read(&mut chunk) {
            Err(Failed) => return Input::Fault,
            Ok(0) => return Input::Whole(bytes),
            Ok(count) => {
                if bytes.extend_from_slice(&chunk[..count]).is_err() {
                    return Input::Memory;
                }
            }
        }
    }
    Input::TooLong
}
