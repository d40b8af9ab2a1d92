// Reads the replies to control requests from a stream.
ghost use Rattle.std.specs.Prelude.{◌≡◌, ◌≤◌, ◌++◌, length, [], take, false, None, IsSome, IfSome};
ghost use Rattle.ctrl_codec.specs.Commands.{command_at};
ghost use Rattle.ctrl_codec.specs.Replies.{Says, RefusesReply, replies_to};
ghost use Rattle.ctrl_codec.specs.ReplyReading.{reply_answer_of, awaits_after};

use crate::feed_result::FeedResult;
use crate::progress::Progress;
use crate::reply::{Reply, ReplyFault};
use crate::reply_grammar::Replies;
use crate::request_code::RequestCode;
use std::marker::Model;

/// What a piece of the stream came to.
#[derive(Clone, Copy, Debug, PartialEq, Eq)]
pub enum FedReply {
    /// All of it was taken, and the reply isn't whole.
    More,
    /// The reply is whole. Its data, where it has some, is at hand as `data`.
    Whole(Reply),
    /// The data of a reply to GET_STATEBLOB would have so many bytes, more than 4096.
    BadLength(u32),
    /// The byte at this place of a reply to GET_TPMESTABLISHED, counted from 0, has to be 0 and isn't.
    BadValue(u32),
    /// Bytes were refused before, and nothing was taken.
    Failed,
}

/// Reads the reply to one command at a time from pieces of any size, kept in place with no memory of the heap. Once bytes
/// were refused it answers `Failed` until the next `begin`.
#[derive(Drop)]
pub struct ReplyReader {
    awaits: Option<RequestCode>,
    progress: Progress,
}

impl Model for ReplyReader {
    ghost use Rattle.std.specs.Prelude.{IfSome};
    ghost use Rattle.ctrl_codec.specs.Replies.{replies_to};
    ghost use Rattle.ctrl_codec.specs.ReplyReading.{ReplyReaderState, awaiting};
    ghost use Rattle.vt_base.specs.Layout.{IsOpen};

    ghost Value = { ReplyReaderState };

    ghost view = { λ r. awaiting r.awaits r.progress };

    ghost invariant = { λ r. IfSome r.awaits (λ command. IsOpen (replies_to command) r.progress.begun) };
}

impl ReplyReader {
    ghost use Rattle.ctrl_codec.specs.ReplyReading.{IfWholeReply, IfRefusedReply, IfMoreReply, IsReplyUndecided, IsReplyReaderAfter};

    /// A reader that awaits no reply.
    pub fn new() -> ReplyReader
        ensures { result ≡ record { awaits = None; begun = []; payload = []; failed = false } }
    {
        ReplyReader {
            awaits: None,
            progress: Progress::new(),
        }
    }

    /// Awaits the reply to the command of this code, and forgets what was begun or refused.
    #[tactic(auto, using(crate::proofs::Replies::reply_open_nil))]
    pub fn begin(&mut self, code: u32)
        requires profile { IsSome (command_at code) }
        ensures awaited { IsSome self.new.awaits }
        ensures begun { self.new ≡ record {
          awaits = command_at code;
          begun = [];
          payload = self.old.payload;
          failed = false;
        } }
    {
        self.awaits = RequestCode::from_code(code);
        self.progress.begin();
    }

    /// The data of the last whole reply.
    pub fn data(&self) -> &[u8]
        ensures { result.now ≡ self.now.payload }
    {
        self.progress.data()
    }

    /// Takes bytes up to the end of the reply, or of a field that is refused, and says how many it took.
    pub fn feed(&mut self, piece: &[u8]) -> (usize, FedReply)
        requires awaited { IsSome self.old.awaits }
        ensures within { result.0 ≤ length piece.now }

        // The bytes so far, up to the last one taken, say this reply to the command, with this data; or they end with
        // the field that is refused.
        ensures whole { IfSome self.old.awaits (λ command. IfWholeReply result.1
            (λ r. Says command r self.new.payload (self.old.begun ++ take result.0 piece.now))) }
        ensures refused { IfSome self.old.awaits (λ command. IfRefusedReply result.1
            (λ fault. RefusesReply command fault (self.old.begun ++ take result.0 piece.now))) }

        // In the bytes so far, the whole piece among them, no reply is whole and no field is refused.
        ensures more { IfSome self.old.awaits (λ command. IfMoreReply result.1
            (IsReplyUndecided command (self.old.begun ++ piece.now))) }
        ensures awaits { IfMoreReply result.1 (self.new.awaits ≡ self.old.awaits) }
        ensures after { IsReplyReaderAfter self.old piece.now result.0 result.1 self.new }
    {
        let Some(command) = self.awaits else {
            unreachable!();
        };
        let (used, fed) = self.progress.feed(&Replies(command), piece);
        (used, self.answer(fed))
    }

    fn answer(&mut self, fed: FeedResult<Reply, ReplyFault>) -> FedReply
        ensures answer { result ≡ reply_answer_of fed }
        ensures awaits { self.new ≡ record self.old { awaits = awaits_after fed self.old.awaits } }
    {
        match fed {
            FeedResult::More => FedReply::More,
            FeedResult::Whole(reply) => {
                self.awaits = None;
                FedReply::Whole(reply)
            }
            FeedResult::Refused(ReplyFault::Length(length)) => FedReply::BadLength(length),
            FeedResult::Refused(ReplyFault::Value(place)) => FedReply::BadValue(place),
            FeedResult::Failed => FedReply::Failed,
        }
    }
}
