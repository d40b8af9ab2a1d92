//! Control messages between a host and a TPM emulator: the requests and replies, as they are written and as they are read
//! from a stream in pieces of any size.
//!
//! ```text
//! let mut out = Out::new();
//! write_request(&Request::GetStateBlob { flags: 0, kind: 2, offset: 0 }, &[], &mut out);
//! // the host sends out.bytes()
//!
//! let mut requests = RequestReader::new(alloc)?;
//! let (used, fed) = requests.feed(&piece);
//! if let FedRequest::Whole(request) = fed {
//!     // the emulator does it, with requests.data(), and goes on with &piece[used..]
//! }
//!
//! let mut replies = ReplyReader::new();
//! replies.begin(Command::GetStateBlob.code());
//! let (used, fed) = replies.feed(&piece);
//! if let FedReply::Whole(Reply::Blob { result: 0, .. }) = fed {
//!     // the host takes replies.data()
//! }
//! ```
//!
//! The commands and their codes are those of swtpm's manual; the bodies are our own. A message ends where its fields end:
//! the code of a request, or the command that a reply answers, says which fields follow, and a length field how much data.
//! So no message begins another, and [`laws`] says so. A reader refuses a code that isn't known, data that would be too
//! long, and a byte that has to be zero and isn't; nothing can be read after that, so it answers `Failed` from then on.
//! What a request does, and whether its numbers make sense, is left to others.
#![tactic(auto)]

mod codes;
mod feed_result;
pub mod laws;
mod message_buf;
mod progress;
mod reply;
mod reply_grammar;
mod reply_reader;
mod request;
mod request_code;
mod request_grammar;
mod request_reader;
mod writing;

pub use codes::{DATA_PLACE, LARGEST_DATA};
pub use message_buf::Out;
pub use reply::{Reply, ReplyFault};
pub use reply_reader::{FedReply, ReplyReader};
pub use request::{Request, RequestFault};
pub use request_code::RequestCode;
pub use request_reader::{FedRequest, RequestReader};
pub use writing::{write_reply, write_request};
