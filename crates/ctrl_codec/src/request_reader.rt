// Reads control requests from a stream.
ghost use Rattle.std.specs.Prelude.{◌≡◌, ◌≤◌, ◌++◌, length, [], take, false, IfOk};
ghost use Rattle.ctrl_codec.specs.Requests.{Asks, Refuses};
ghost use Rattle.ctrl_codec.specs.RequestReading.{answer_of};

use crate::feed_result::FeedResult;
use crate::progress::Progress;
use crate::request::{Request, RequestFault};
use crate::request_grammar::Requests;
use std::alloc::{AllocError, Global};
use std::marker::Model;

/// What a piece of the stream came to.
#[derive(Clone, Copy, Debug, PartialEq, Eq)]
pub enum FedRequest {
    /// All of it was taken, and no request is whole.
    More,
    /// A request is whole. Its data, where it has some, is at hand as `data`.
    Whole(Request),
    /// No command has this code; it stands at byte 0 of the request.
    BadCode(u32),
    /// The data of a SET_STATEBLOB would have so many bytes, more than 4096.
    BadLength(u32),
    /// Bytes were refused before, and nothing was taken.
    Failed,
}

/// Reads control requests from pieces of any size. Once bytes were refused it answers `Failed` until it is cleared.
#[derive(Drop)]
pub struct RequestReader {
    progress: Box<Progress>,
}

impl Model for RequestReader {
    ghost use Rattle.ctrl_codec.specs.Reading.{ReaderState};
    ghost use Rattle.ctrl_codec.specs.Requests.{requests};
    ghost use Rattle.vt_base.specs.Layout.{IsOpen};

    ghost Value = { ReaderState };

    ghost view = { λ r. r.progress.value };

    ghost invariant = { λ r. IsOpen requests r.progress.value.begun };
}

impl RequestReader {
    ghost use Rattle.ctrl_codec.specs.RequestReading.{IfWhole, IfRefused, IfMore, IsUndecided, IsReaderAfter};

    /// A reader at the beginning of a stream. All memory that it needs is taken here.
    #[tactic(auto, using(crate::proofs::Requests::open_nil))]
    pub fn new(alloc: Global) -> Result<RequestReader, AllocError>
        ensures { IfOk result (λ r. r ≡ record { begun = []; payload = []; failed = false }) }
    {
        Ok(RequestReader {
            progress: Box::new(alloc, Progress::new())?,
        })
    }

    /// Makes the reader as `new` does, at the beginning of another stream.
    #[tactic(auto, using(crate::proofs::Requests::open_nil))]
    pub fn clear(&mut self)
        ensures { self.new ≡ record { begun = []; payload = []; failed = false } }
    {
        self.progress.clear();
    }

    /// The data of the last whole request.
    pub fn data(&self) -> &[u8]
        ensures { result.now ≡ self.now.payload }
    {
        self.progress.data()
    }

    /// Takes bytes up to the end of one request, or of a field that is refused, and says how many it took.
    pub fn feed(&mut self, piece: &[u8]) -> (usize, FedRequest)
        ensures within { result.0 ≤ length piece.now }

        // The bytes so far, up to the last one taken, are this request with this data; or they end with the field that
        // is refused.
        ensures whole { IfWhole result.1
            (λ q. Asks q self.new.payload (self.old.begun ++ take result.0 piece.now)) }
        ensures refused { IfRefused result.1
            (λ fault. Refuses fault (self.old.begun ++ take result.0 piece.now)) }

        // In the bytes so far, the whole piece among them, no request is whole and no field is refused.
        ensures more { IfMore result.1 (IsUndecided (self.old.begun ++ piece.now)) }
        ensures after { IsReaderAfter self.old piece.now result.0 result.1 self.new }
    {
        let (used, fed) = self.progress.feed(&Requests, piece);
        (used, answer(fed))
    }
}

fn answer(fed: FeedResult<Request, RequestFault>) -> FedRequest
    ensures { result ≡ answer_of fed }
{
    match fed {
        FeedResult::More => FedRequest::More,
        FeedResult::Whole(request) => FedRequest::Whole(request),
        FeedResult::Refused(RequestFault::Code(code)) => FedRequest::BadCode(code),
        FeedResult::Refused(RequestFault::Length(length)) => FedRequest::BadLength(length),
        FeedResult::Failed => FedRequest::Failed,
    }
}
