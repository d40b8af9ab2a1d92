// Parses replies field by field, each by the command that it answers.
ghost use Rattle.std.specs.Prelude.{◌≡◌};
ghost use Rattle.vt_base.specs.Parsing.{parsed};
ghost use Rattle.ctrl_codec.specs.Replies.{replies_to, established, blob};
ghost use Rattle.ctrl_codec.specs.ReplyRoom.{replies_within};

use crate::codes::{FIRST_ZERO, LARGEST_DATA, SECOND_ZERO, THIRD_ZERO};
use crate::reply::{Reply, ReplyFault};
use crate::request_code::RequestCode;
use vt_base::{Grammar, Missing, byte_of, field_of, long_of, number_of};

/// The grammar of the replies to a command.
#[derive(Drop)]
pub(crate) struct Replies(pub(crate) RequestCode);

type Parsed = Result<Result<Reply, ReplyFault>, Missing>;

fn established_of(rest: &[u8]) -> Parsed
    ensures { result ≡ parsed established rest.now }
{
    let (result, rest) = number_of(rest)?;
    let (bit, rest) = byte_of(rest)?;
    let (first, rest) = byte_of(rest)?;
    if first != 0 {
        return Ok(Err(ReplyFault::Value(FIRST_ZERO)));
    }
    let (second, rest) = byte_of(rest)?;
    if second != 0 {
        return Ok(Err(ReplyFault::Value(SECOND_ZERO)));
    }
    let (third, _) = byte_of(rest)?;
    if third != 0 {
        return Ok(Err(ReplyFault::Value(THIRD_ZERO)));
    }
    Ok(Ok(Reply::Established { result, bit }))
}

fn blob_of(rest: &[u8]) -> Parsed
    ensures { result ≡ parsed blob rest.now }
{
    let (result, rest) = number_of(rest)?;
    let (flags, rest) = number_of(rest)?;
    let (total, rest) = number_of(rest)?;
    let (length, rest) = number_of(rest)?;
    if length as usize > LARGEST_DATA {
        return Ok(Err(ReplyFault::Length(length)));
    }
    let _data = field_of(rest, length as usize)?;
    Ok(Ok(Reply::Blob {
        result,
        flags,
        total,
        length,
    }))
}

#[tactic(auto, unfolding(crate::specs::Replies::replies_to))]
fn reply_of(command: RequestCode, bytes: &[u8]) -> Parsed
    ensures { result ≡ parsed (replies_to command) bytes.now }
{
    match command {
        RequestCode::GetCapability => {
            let (value, _) = long_of(bytes)?;
            Ok(Ok(Reply::Capability { value }))
        }
        RequestCode::GetEstablished => established_of(bytes),
        RequestCode::GetStateBlob => blob_of(bytes),
        RequestCode::GetConfig => {
            let (result, rest) = number_of(bytes)?;
            let (flags, _) = number_of(rest)?;
            Ok(Ok(Reply::Config { result, flags }))
        }
        RequestCode::SetBufferSize => {
            let (result, rest) = number_of(bytes)?;
            let (size, rest) = number_of(rest)?;
            let (least, rest) = number_of(rest)?;
            let (greatest, _) = number_of(rest)?;
            Ok(Ok(Reply::Buffer {
                result,
                size,
                least,
                greatest,
            }))
        }
        _ => {
            let (result, _) = number_of(bytes)?;
            Ok(Ok(Reply::Result { result }))
        }
    }
}

impl Grammar for Replies {
    type End = Result<Reply, ReplyFault>;

    ghost use Rattle.ctrl_codec.specs.declared.codes.TheConstants.{LARGEST_MESSAGE};

    ghost layout = { λ g. replies_to g.0 };

    ghost room = { λ _. LARGEST_MESSAGE };

    ghost within = { λ g. replies_within g.0 };

    fn parse(&self, bytes: &[u8]) -> Parsed {
        reply_of(self.0, bytes)
    }
}
