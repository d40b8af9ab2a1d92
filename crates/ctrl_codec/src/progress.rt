// How far a reader of control messages has come, in either direction.
ghost use Rattle.std.specs.Prelude.{◌≡◌, ◌≤◌, length, [], drop, false};
ghost use Rattle.vt_base.specs.Layout.{IsOpen};
ghost use Rattle.ctrl_codec.specs.Progress.{AnswerIsExact, IsLeft};

use crate::codes::{DATA_PLACE, LARGEST_DATA, LARGEST_MESSAGE};
use crate::feed_result::FeedResult;
use std::marker::Model;
use vt_base::{ByteBuf, Grammar};

/// The bytes of the message that isn't whole, the data of the last whole one, and whether bytes were refused.
#[derive(Drop)]
pub(crate) struct Progress {
    begun: ByteBuf<LARGEST_MESSAGE>,
    payload: ByteBuf<LARGEST_DATA>,
    failed: bool,
}

impl Model for Progress {
    ghost use Rattle.ctrl_codec.specs.Reading.{ReaderState};

    ghost Value = { ReaderState };

    ghost view = { λ p. record { begun = p.begun; payload = p.payload; failed = p.failed } };
}

impl Progress {
    pub(crate) fn new() -> Self
        ensures { result ≡ record { begun = []; payload = []; failed = false } }
    {
        Progress {
            begun: ByteBuf::new(),
            payload: ByteBuf::new(),
            failed: false,
        }
    }

    pub(crate) fn data(&self) -> &[u8]
        ensures { result.now ≡ self.now.payload }
    {
        self.payload.as_slice()
    }

    /// Forgets the bytes so far and a refusal.
    pub(crate) fn begin(&mut self)
        ensures { self.new ≡ record { begun = []; payload = self.old.payload; failed = false } }
    {
        self.begun.clear();
        self.failed = false;
    }

    /// Forgets all.
    pub(crate) fn clear(&mut self)
        ensures { self.new ≡ record { begun = []; payload = []; failed = false } }
    {
        self.begin();
        self.payload.clear();
    }

    /// Takes bytes up to the end of one message, or of a field that is refused.
    pub(crate) fn feed<G, V, F>(&mut self, grammar: &G, piece: &[u8]) -> (usize, FeedResult<V, F>)
    where
        G: Grammar<End = Result<V, F>>,
        requires room { G.room grammar.now ≤ LARGEST_MESSAGE }
        requires open { IsOpen (G.layout grammar.now) self.old.begun }
        ensures within { result.0 ≤ length piece.now }
        ensures exact { AnswerIsExact (G.layout grammar.now) self.old piece.now result.0 result.1 }
        ensures left { IsLeft self.old piece.now result.0 result.1 self.new }
    {
        if self.failed {
            return (0, FeedResult::Failed);
        }
        let (used, end) = self.begun.feed(grammar, piece);
        let Some(end) = end else {
            return (used, FeedResult::More);
        };
        let fed = match end {
            Ok(message) => {
                self.payload.clear();
                self.payload.push(data_of(self.begun.as_slice()));
                FeedResult::Whole(message)
            }
            Err(fault) => {
                self.failed = true;
                FeedResult::Refused(fault)
            }
        };
        self.begun.clear();
        (used, fed)
    }
}

/// The data follows the fixed bytes of the one message that has data.
fn data_of(bytes: &[u8]) -> &[u8]
    ensures { result.now ≡ drop DATA_PLACE bytes.now }
{
    if bytes.len() <= DATA_PLACE {
        &[]
    } else {
        &bytes[DATA_PLACE..]
    }
}
