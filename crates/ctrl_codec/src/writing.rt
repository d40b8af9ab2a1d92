// Writes control messages.
ghost use Rattle.std.specs.Prelude.{◌≡◌, ◌∷◌, []};
ghost use Rattle.ctrl_codec.specs.Requests.{HasData, encode_request};
ghost use Rattle.ctrl_codec.specs.Replies.{ReplyHasData, encode_reply};

use crate::message_buf::Out;
use crate::reply::Reply;
use crate::request::Request;

/// Writes a request and its data, the ignored bytes behind a locality as zeros.
pub fn write_request(q: &Request, tail: &[u8], into: &mut Out)
    requires empty { into.old ≡ [] }
    requires data { HasData q.now tail.now }
    ensures { into.new ≡ encode_request q.now (0 ∷ 0 ∷ 0 ∷ []) tail.now }
{
    into.push_number(q.command().code());
    match *q {
        Request::Init { flags } => into.push_number(flags),
        Request::SetLocality { locality } => into.push(&[locality, 0, 0, 0]),
        Request::ResetEstablished { locality } => into.push(&[locality, 0, 0, 0]),
        Request::GetStateBlob {
            flags,
            kind,
            offset,
        } => {
            into.push_number(flags);
            into.push_number(kind);
            into.push_number(offset);
        }
        Request::SetStateBlob {
            flags,
            kind,
            length,
        } => {
            into.push_number(flags);
            into.push_number(kind);
            into.push_number(length);
            into.push(tail);
        }
        Request::SetBufferSize { size } => into.push_number(size),
        Request::GetCapability
        | Request::Shutdown
        | Request::GetEstablished
        | Request::CancelCommand
        | Request::StoreVolatile
        | Request::Stop
        | Request::GetConfig => {}
    }
}

/// Writes a reply and its data.
pub fn write_reply(r: &Reply, tail: &[u8], into: &mut Out)
    requires empty { into.old ≡ [] }
    requires data { ReplyHasData r.now tail.now }
    ensures { into.new ≡ encode_reply r.now tail.now }
{
    match *r {
        Reply::Capability { value } => into.push_long(value),
        Reply::Result { result } => into.push_number(result),
        Reply::Established { result, bit } => {
            into.push_number(result);
            into.push(&[bit, 0, 0, 0]);
        }
        Reply::Blob {
            result,
            flags,
            total,
            length,
        } => {
            into.push_number(result);
            into.push_number(flags);
            into.push_number(total);
            into.push_number(length);
            into.push(tail);
        }
        Reply::Config { result, flags } => {
            into.push_number(result);
            into.push_number(flags);
        }
        Reply::Buffer {
            result,
            size,
            least,
            greatest,
        } => {
            into.push_number(result);
            into.push_number(size);
            into.push_number(least);
            into.push_number(greatest);
        }
    }
}
