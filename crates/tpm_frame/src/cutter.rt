//! Bytes as they come are cut into frames.

ghost use Rattle.std.specs.Prelude.{◌≡◌, ◌≤◌, ◌++◌, length, [], take, true, IfOk};
ghost use Rattle.std.specs.Bool.{OnTrue, OnFalse};
ghost use Rattle.tpm_frame.specs.Frames.{frames, frame_length_of, first_frame, frames_within, IsFrame, IsPartOfFrame};

use crate::{HEADER_SIZE, LARGEST_FRAME, SIZE_FIELD};
use std::alloc::{AllocError, Global};
use std::marker::Model;
use vt_base::{ByteBuf, Grammar, Missing, field_of, u32_at};

/// How many bytes of a frame say how long it is: the tag and the size field.
const SIZED_FRONT: usize = 6;

/// How many bytes the frame has that begins so: its size field, or the nearest length that a frame has.
pub fn frame_length(head: &[u8]) -> usize
    requires { 6 ≤ length head.now }
    ensures { result ≡ frame_length_of head.now }
{
    let size = u32_at(head, SIZE_FIELD) as usize;
    size.clamp(HEADER_SIZE, LARGEST_FRAME)
}

/// The frame at the start of the bytes, as long as `frame_length` says; or all of them, where they are fewer.
pub fn first_frame(bytes: &[u8]) -> &[u8]
    requires { 6 ≤ length bytes.now }
    ensures prefix { result.now ≡ first_frame bytes.now }
    ensures fits { length result.now ≤ 3968 }
    ensures whole { frame_length_of bytes.now ≤ length bytes.now → IsFrame result.now }
{
    let size = frame_length(bytes).min(bytes.len());
    let (prefix, _) = bytes.split_at(size);
    prefix
}

/// What a piece came to.
#[derive(Clone, Copy, Debug, PartialEq, Eq)]
pub struct Took {
    /// How many bytes of the piece were taken.
    pub used: usize,
    /// Whether a whole frame is held now.
    pub whole: bool,
}

struct Frames;

impl Grammar for Frames {
    type End = ();

    ghost layout = { λ _. frames };

    ghost room = { λ _. 3968 };

    ghost within = { λ _. frames_within };

    #[tactic(auto, unfolding(crate::specs::Frames::frames))]
    fn parse(&self, bytes: &[u8]) -> Result<(), Missing> {
        let (head, rest) = field_of(bytes, SIZED_FRONT)?;
        let _body = field_of(rest, frame_length(head) - SIZED_FRONT)?;
        Ok(())
    }
}

/// Takes the bytes of one frame at a time out of a stream; seen as the bytes that it holds.
#[derive(Drop)]
pub struct Cutter {
    held: Box<ByteBuf<LARGEST_FRAME>>,
    whole: bool,
}

impl Model for Cutter {
    ghost use Rattle.std.specs.Prelude.{List, ℕ};
    ghost use Rattle.std.specs.Bool.{OnTrue, OnFalse};
    ghost use Rattle.tpm_frame.specs.Frames.{IsFrame, IsPartOfFrame};

    ghost Value = { List ℕ };

    ghost view = { λ c. c.held.value };

    ghost invariant = { λ c. OnTrue c.whole (IsFrame c.held.value) × OnFalse c.whole (IsPartOfFrame c.held.value) };
}

impl Cutter {
    /// Holds nothing.
    #[tactic(auto, using(crate::proofs::Parts::part_nil))]
    pub fn new(alloc: Global) -> Result<Cutter, AllocError>
        ensures { IfOk result (λ c. c ≡ []) }
    {
        Ok(Cutter {
            held: Box::new(alloc, ByteBuf::new())?,
            whole: false,
        })
    }

    /// Takes bytes up to the end of one frame, and none while a whole frame is held.
    pub fn feed(&mut self, piece: &[u8]) -> Took
        ensures within { result.used ≤ length piece.now }
        ensures held { self.new ≡ self.old ++ take result.used piece.now }
        ensures whole { OnTrue result.whole (IsFrame self.new) }

        // Where no frame became whole, all bytes are taken, and no prefix of them is a frame.
        ensures all { OnFalse result.whole (result.used ≡ length piece.now) }
        ensures part { OnFalse result.whole (IsPartOfFrame self.new) }
        ensures kept { IsFrame self.old → (result.used ≡ 0) × (result.whole ≡ true) }
    {
        if self.whole {
            return Took {
                used: 0,
                whole: true,
            };
        }
        let (used, end) = self.held.feed(&Frames, piece);
        self.whole = end.is_some();
        Took {
            used,
            whole: self.whole,
        }
    }

    /// The bytes that are held.
    pub fn held(&self) -> &[u8]
        ensures items { result.now ≡ self.now }
        ensures within_limit { length self.now ≤ 3968 }
    {
        self.held.as_slice()
    }

    /// Holds nothing again.
    #[tactic(auto, using(crate::proofs::Parts::part_nil))]
    pub fn drop_held(&mut self)
        ensures { self.new ≡ [] }
    {
        self.held.clear();
        self.whole = false;
    }
}
