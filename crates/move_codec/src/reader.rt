// Messages read from pieces of any size.
ghost use Rattle.std.specs.Prelude.{◌≡◌, ◌≤◌, ◌++◌, length, [], take, drop, false, IfOk, OnErr, Err};
ghost use Rattle.vt_base.specs.Layout.{IsOpen};
ghost use Rattle.move_codec.specs.Messages.{messages};
ghost use Rattle.move_codec.specs.Encoding.{Moves};
ghost use Rattle.move_codec.specs.Refusals.{Refuses, IsUndecided};

use crate::format::{BYTES_PLACE, LARGEST_MESSAGE};
use crate::grammar::Messages;
use crate::message::Message;
use std::alloc::{AllocError, Global};
use std::marker::Model;
use vt_base::{ByteBuf, Malformed};

/// What a piece of the stream made.
#[derive(Debug, Drop)]
pub enum FedMessage {
    /// All bytes were taken, and no message is whole yet.
    More,
    /// A message is whole. The bytes behind those that were taken are the next one's.
    Whole(Message),
    /// A field is refused, and the reader is done.
    Bad(Malformed),
    /// A field was refused before.
    Failed,
}

/// Reads migration messages from pieces of any size. Its memory, that of the longest message, is taken by `new`.
#[derive(Debug, Drop)]
pub struct Reader {
    begun: Box<ByteBuf<LARGEST_MESSAGE>>,
    failed: bool,
}

impl Model for Reader {
    ghost use Rattle.move_codec.specs.Reading.{MessageReaderState};
    ghost use Rattle.move_codec.specs.Messages.{messages};
    ghost use Rattle.vt_base.specs.Layout.{IsOpen};

    ghost Value = { MessageReaderState };

    ghost view = { λ r. record { begun = r.begun.value; failed = r.failed } };

    ghost invariant = { λ r. IsOpen messages r.begun.value };
}

impl Reader {
    ghost use Rattle.move_codec.specs.Answers.{IfWhole, IfBad, OnMore, OnFailed, is_failed, after};
    ghost use Rattle.move_codec.specs.Ends.{EndsMessage, Fills};

    /// A reader before its first byte.
    #[tactic(auto, using(crate::proofs::Begins::open_nil))]
    pub fn new(alloc: Global) -> Result<Reader, AllocError>
        ensures fresh { IfOk result (λ r. r ≡ record { begun = []; failed = false }) }
    {
        Ok(Reader {
            begun: Box::new(alloc, ByteBuf::new())?,
            failed: false,
        })
    }

    /// Takes bytes up to the end of one message, or of a field that is refused, and gives how many it took. Memory is
    /// taken for the bytes of a [`Body::Piece`](crate::Body::Piece) alone.
    pub fn feed(&mut self, alloc: Global, piece: &[u8]) -> Result<(usize, FedMessage), AllocError>
        ensures within { IfOk result (λ fed. fed.0 ≤ length piece.now) }
        // The bytes so far, up to the last one taken, are this message.
        ensures whole { IfOk result (λ fed.
            IfWhole fed.1 (λ m. Moves m (self.old.begun ++ take fed.0 piece.now))) }
        // They end with the field that is refused.
        ensures bad { IfOk result (λ fed.
            IfBad fed.1 (λ fault. Refuses fault (self.old.begun ++ take fed.0 piece.now))) }
        // All bytes are taken, and in them no message is whole and no field is refused.
        ensures more { IfOk result (λ fed.
            OnMore fed.1 ((fed.0 ≡ length piece.now) × IsUndecided (self.old.begun ++ piece.now))) }
        // Exactly after a refusal.
        ensures failed { IfOk result (λ fed. is_failed fed.1 ≡ self.old.failed) }
        ensures failed_takes { IfOk result (λ fed. OnFailed fed.1 (fed.0 ≡ 0)) }
        ensures after { IfOk result (λ fed. self.new ≡ after self.old piece.now fed.1) }
        ensures err { OnErr result (self.new ≡ self.old) }
    {
        self.advance(alloc, piece)
    }

    #[tactic(auto, using(crate::proofs::Begins::open_nil))]
    fn advance(&mut self, alloc: Global, piece: &[u8]) -> Result<(usize, FedMessage), AllocError>
        ensures within { IfOk result (λ fed. fed.0 ≤ length piece.now) }
        ensures whole { IfOk result (λ fed.
            IfWhole fed.1 (λ m. Fills m (self.old.begun ++ take fed.0 piece.now))) }
        ensures bad { IfOk result (λ fed.
            IfBad fed.1 (λ fault. EndsMessage (Err fault) (self.old.begun ++ take fed.0 piece.now))) }
        ensures more { IfOk result (λ fed.
            OnMore fed.1 ((fed.0 ≡ length piece.now) × IsOpen messages (self.old.begun ++ piece.now))) }
        ensures failed { IfOk result (λ fed. is_failed fed.1 ≡ self.old.failed) }
        ensures failed_takes { IfOk result (λ fed. OnFailed fed.1 (fed.0 ≡ 0)) }
        ensures after { IfOk result (λ fed. self.new ≡ after self.old piece.now fed.1) }
        ensures err { OnErr result (self.new ≡ self.old) }
    {
        if self.failed {
            return Ok((0, FedMessage::Failed));
        }
        let before = self.begun.as_slice().len();
        let (used, end) = self.begun.feed(&Messages, piece);
        let Some(end) = end else {
            return Ok((used, FedMessage::More));
        };
        match end {
            Ok(outline) => match outline.filled(alloc, piece_bytes(self.begun.as_slice())) {
                Ok(message) => {
                    self.begun.clear();
                    Ok((used, FedMessage::Whole(message)))
                }
                Err(error) => {
                    self.begun.truncate(before);
                    Err(error)
                }
            },
            Err(malformed) => {
                self.begun.clear();
                self.failed = true;
                Ok((used, FedMessage::Bad(malformed)))
            }
        }
    }

    /// How many bytes were taken of a message that isn't whole.
    pub fn pending(&self) -> u32
        ensures bytes { result ≡ length self.now.begun }
    {
        self.begun.as_slice().len() as u32
    }
}

/// The bytes of a piece, in a message that is one.
fn piece_bytes(message: &[u8]) -> &[u8]
    ensures { result.now ≡ drop 26 message.now }
{
    if message.len() <= BYTES_PLACE {
        &[]
    } else {
        &message[BYTES_PLACE..]
    }
}
