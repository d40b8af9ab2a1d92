//! Control messages as bytes, and how they are read in pieces.

ghost use Rattle.std.specs.Prelude.{◌<◌, IsSome};
ghost use Rattle.ctrl_codec.specs.Commands.{command_at};
ghost use Rattle.ctrl_codec.specs.Replies.{ReplyHasData};
ghost use Rattle.ctrl_codec.specs.Requests.{HasData};

use ctrl_codec::*;
use std::alloc::{AllocError, Global};
use std::test::*;

/// The volatile state of a TPM that isn't started, as it is sent.
const NOT_STARTED: [u8; 10] = [0x43, 0x52, 0x42, 0x56, 1, 0, 0, 0, 1, 0];

const GET_CAPABILITY: [u8; 4] = [0, 0, 0, 1];

const INIT: [u8; 8] = [0, 0, 0, 2, 0, 0, 0, 0];

const SET_BUFFERSIZE: [u8; 8] = [0, 0, 0, 0x11, 0, 0, 0x0F, 0x80];

const GET_VOLATILE: [u8; 16] = [0, 0, 0, 0x0C, 0, 0, 0, 0, 0, 0, 0, 2, 0, 0, 0, 0];

const GET_TYPE_4: [u8; 16] = [0, 0, 0, 0x0C, 0, 0, 0, 0, 0, 0, 0, 4, 0, 0, 0, 0];

const CAPABILITY: [u8; 8] = [0, 0, 0, 0, 0, 0, 0x2F, 0xEF];

const SUCCESS: [u8; 4] = [0, 0, 0, 0];

const BUFFER: [u8; 16] = [0, 0, 0, 0, 0, 0, 0x0F, 0x80, 0, 0, 4, 0, 0, 0, 0x10, 0];

const VOLATILE: [u8; 26] = [
    0, 0, 0, 0, 0, 0, 0, 0, 0, 0, 0, 0x0A, 0, 0, 0, 0x0A, 0x43, 0x52, 0x42, 0x56, 1, 0, 0, 0, 1, 0,
];

const BAD_PARAMETER: [u8; 16] = [0, 0, 0, 3, 0, 0, 0, 0, 0, 0, 0, 0, 0, 0, 0, 0];

/// The first 16 bytes of a SET_STATEBLOB of the permanent state with 4096 bytes of data.
const SET_PERMANENT: [u8; 16] = [0, 0, 0, 0x0D, 0, 0, 0, 0, 0, 0, 0, 1, 0, 0, 0x10, 0];

/// Whether the bytes, which come one by one, are this with the last of them and no request before.
fn is_fed_singly(reader: &mut RequestReader, bytes: &[u8], wanted: FedRequest) -> bool {
    for (before, byte) in bytes.iter().enumerate() {
        let is_last = before == bytes.len().saturating_sub(1);
        let wanted = if is_last { wanted } else { FedRequest::More };
        if reader.feed(&[*byte]) != (1, wanted) {
            return false;
        }
    }
    true
}

/// Whether the request is written as these bytes, and read from them whole and byte by byte.
fn is_request(reader: &mut RequestReader, q: Request, tail: &[u8], bytes: &[u8]) -> bool
    requires { HasData q tail.now }
{
    let mut out = Out::new();
    write_request(&q, tail, &mut out);
    out.bytes() == bytes
        && reader.feed(bytes) == (bytes.len(), FedRequest::Whole(q))
        && reader.data() == tail
        && is_fed_singly(reader, bytes, FedRequest::Whole(q))
        && reader.data() == tail
}

/// Whether each request without data is read and written so.
fn are_requests(reader: &mut RequestReader) -> [bool; 6] {
    let volatile = Request::GetStateBlob {
        flags: 0,
        kind: 2,
        offset: 0,
    };
    let unknown = Request::GetStateBlob {
        flags: 0,
        kind: 4,
        offset: 0,
    };
    let buffer = Request::SetBufferSize { size: 0xF80 };
    let locality = Request::SetLocality { locality: 3 };
    [
        is_request(reader, Request::GetCapability, &[], &GET_CAPABILITY),
        is_request(reader, Request::Init { flags: 0 }, &[], &INIT),
        is_request(reader, buffer, &[], &SET_BUFFERSIZE),
        is_request(reader, volatile, &[], &GET_VOLATILE),
        is_request(reader, unknown, &[], &GET_TYPE_4),
        is_request(reader, locality, &[], &[0, 0, 0, 5, 3, 0, 0, 0]),
    ]
}

#[test]
fn requests_both_ways(rt: HostRuntime) -> Result<(), Fail> {
    let mut reader = RequestReader::new(rt.alloc())?;
    assert_eq!(rt; are_requests(&mut reader), [true; 6]);
    Ok(())
}

/// Whether bytes that are ignored may be any, and a code outside the profile is refused.
fn ignores_and_refuses(reader: &mut RequestReader) -> bool {
    let locality = Request::SetLocality { locality: 3 };
    let refused = reader.feed(&[0, 0, 0, 5, 3, 0xFF, 1, 2]) == (8, FedRequest::Whole(locality))
        && reader.feed(&[0, 0, 0, 0x63, 0]) == (4, FedRequest::BadCode(0x63))
        && reader.feed(&GET_CAPABILITY) == (0, FedRequest::Failed);
    reader.clear();
    refused && is_fed_singly(reader, &[0, 0, 0, 0x63], FedRequest::BadCode(0x63))
}

#[test]
fn ignored_and_refused(rt: HostRuntime) -> Result<(), Fail> {
    let mut reader = RequestReader::new(rt.alloc())?;
    assert!(rt; ignores_and_refuses(&mut reader));
    Ok(())
}

/// Whether the bytes, which come one by one, are this reply with the last of them and none before.
fn is_reply_singly(reader: &mut ReplyReader, code: u32, r: Reply, bytes: &[u8]) -> bool
    requires profile { IsSome (command_at code) }
{
    reader.begin(code);
    for (before, byte) in bytes.iter().enumerate() {
        let is_last = before == bytes.len().saturating_sub(1);
        match reader.feed(&[*byte]) {
            (1, FedReply::More) if !is_last => {}
            (1, FedReply::Whole(read)) => return is_last && read == r,
            _ => return false,
        }
    }
    false
}

/// Whether the reply is written as these bytes, and read from them whole and byte by byte.
fn is_reply(code: u32, r: Reply, tail: &[u8], bytes: &[u8]) -> bool
    requires profile { IsSome (command_at code) }
    requires data { ReplyHasData r tail.now }
{
    let mut out = Out::new();
    write_reply(&r, tail, &mut out);
    let mut reader = ReplyReader::new();
    reader.begin(code);
    out.bytes() == bytes
        && reader.feed(bytes) == (bytes.len(), FedReply::Whole(r))
        && reader.data() == tail
        && is_reply_singly(&mut reader, code, r, bytes)
        && reader.data() == tail
}

/// Whether each reply is read and written so.
fn are_replies() -> [bool; 7] {
    let buffer = Reply::Buffer {
        result: 0,
        size: 0xF80,
        least: 0x400,
        greatest: 0x1000,
    };
    let established = Reply::Established { result: 0, bit: 1 };
    let config = Reply::Config {
        result: 0,
        flags: 0,
    };
    let volatile = Reply::Blob {
        result: 0,
        flags: 0,
        total: 10,
        length: 10,
    };
    let refused = Reply::Blob {
        result: 3,
        flags: 0,
        total: 0,
        length: 0,
    };
    let code = RequestCode::GetStateBlob.code();
    [
        is_reply(1, Reply::Capability { value: 0x2FEF }, &[], &CAPABILITY),
        is_reply(2, Reply::Result { result: 0 }, &[], &SUCCESS),
        is_reply(0x11, buffer, &[], &BUFFER),
        is_reply(4, established, &[], &[0, 0, 0, 0, 1, 0, 0, 0]),
        is_reply(15, config, &[], &[0, 0, 0, 0, 0, 0, 0, 0]),
        is_reply(code, volatile, &NOT_STARTED, &VOLATILE),
        is_reply(code, refused, &[], &BAD_PARAMETER),
    ]
}

#[test]
fn replies_both_ways(rt: HostRuntime) {
    assert_eq!(rt; are_replies(), [true; 7]);
}

/// The number in the four bytes at a place, if they are there.
fn big_endian_at(bytes: &[u8], at: usize) -> Option<u32>
    requires { at < 1000 }
{
    let field = bytes.get(at..at + 4)?;
    Some(u32::from_be_bytes([field[0], field[1], field[2], field[3]]))
}

/// How a message ends.
#[derive(Clone, Copy, Debug, PartialEq, Eq)]
enum End {
    Whole,
    Code(u32),
    Length(u32),
    Value(u32),
}

/// What exactly these bytes are as a request, by the table of bodies.
fn request_end(bytes: &[u8]) -> Option<End> {
    let code = big_endian_at(bytes, 0)?;
    let body = match code {
        1 | 3 | 4 | 9 | 10 | 14 | 15 => 0,
        2 | 5 | 11 | 17 => 4,
        12 => 12,
        13 => match big_endian_at(bytes, 12)? {
            length if length > 4096 => return Some(End::Length(length)),
            length => 12 + length as usize,
        },
        _ => return Some(End::Code(code)),
    };
    (bytes.len() == 4 + body).then_some(End::Whole)
}

/// What exactly these bytes are as a reply to the command, by the table of replies.
fn reply_end(code: u32, bytes: &[u8]) -> Option<End> {
    let size = match code {
        1 | 15 => 8,
        4 => {
            let size = bytes.len();
            if size > 5 && size < 9 && bytes[size - 1] != 0 {
                return Some(End::Value(size as u32 - 1));
            }
            8
        }
        12 => match big_endian_at(bytes, 12)? {
            length if length > 4096 => return Some(End::Length(length)),
            length => 16 + length as usize,
        },
        17 => 16,
        _ => 4,
    };
    (bytes.len() == size).then_some(End::Whole)
}

/// How the first message in these bytes ends, and how many bytes it has, by trying each prefix of them in turn.
fn slowly(bytes: &[u8], code: Option<u32>) -> (usize, Option<End>) {
    for n in 0..bytes.len() + 1 {
        let end = match code {
            None => request_end(&bytes[..n]),
            Some(code) => reply_end(code, &bytes[..n]),
        };
        if end.is_some() {
            return (n, end);
        }
    }
    (bytes.len(), None)
}

fn request_answered(answer: FedRequest) -> Option<End> {
    match answer {
        FedRequest::More | FedRequest::Failed => None,
        FedRequest::Whole(_) => Some(End::Whole),
        FedRequest::BadCode(code) => Some(End::Code(code)),
        FedRequest::BadLength(length) => Some(End::Length(length)),
    }
}

fn reply_answered(answer: FedReply) -> Option<End> {
    match answer {
        FedReply::More | FedReply::Failed => None,
        FedReply::Whole(_) => Some(End::Whole),
        FedReply::BadLength(length) => Some(End::Length(length)),
        FedReply::BadValue(place) => Some(End::Value(place)),
    }
}

const STRANGE: u8 = 0xFF;

/// The first bytes of a code outside the profile.
const UNKNOWN: [u8; 4] = [0, 0, 0, 0x63];

/// Requests that are cut at each place.
const REQUESTS: [&[u8]; 7] = [
    &GET_CAPABILITY,
    &INIT,
    &SET_BUFFERSIZE,
    &GET_VOLATILE,
    &GET_TYPE_4,
    &SET_PERMANENT,
    &UNKNOWN,
];

/// How many bytes a reader takes of a prefix and a strange byte behind it, and how the request ends.
fn request_read(reader: &mut RequestReader, prefix: &[u8]) -> (usize, Option<End>) {
    reader.clear();
    match reader.feed(prefix) {
        (taken, FedRequest::More) => {
            let (more, answer) = reader.feed(&[STRANGE]);
            (taken.saturating_add(more), request_answered(answer))
        }
        (taken, answer) => (taken, request_answered(answer)),
    }
}

/// How many bytes the first prefix has that is read otherwise than by the table.
fn wrong_request(
    alloc: Global,
    reader: &mut RequestReader,
    whole: &[u8],
) -> Result<Option<usize>, AllocError> {
    for n in 0..whole.len() + 1 {
        let prefix = whole.get(..n).unwrap_or(&[]);
        let mut bytes = Vec::from_slice(alloc, prefix)?;
        bytes.push(STRANGE)?;
        if request_read(reader, prefix) != slowly(&bytes, None) {
            return Ok(Some(n));
        }
    }
    Ok(None)
}

#[test]
fn cut_requests_and_a_strange_byte(rt: HostRuntime) -> Result<(), Fail> {
    let mut reader = RequestReader::new(rt.alloc())?;
    for whole in REQUESTS {
        assert_eq!(rt; wrong_request(rt.alloc(), &mut reader, whole)?, None);
    }
    Ok(())
}

/// The fixed bytes of a reply with 4096 bytes of data.
const LARGEST: [u8; 16] = [0, 0, 0, 0, 0, 0, 0, 0, 0, 0, 0x10, 0, 0, 0, 0x10, 0];

/// Replies that are cut at each place.
const REPLIES: [(RequestCode, &[u8]); 8] = [
    (RequestCode::GetCapability, &CAPABILITY),
    (RequestCode::Init, &SUCCESS),
    (RequestCode::GetEstablished, &[0, 0, 0, 0, 0, 0, 0, 0]),
    (RequestCode::SetBufferSize, &BUFFER),
    (RequestCode::GetStateBlob, &VOLATILE),
    (RequestCode::GetStateBlob, &BAD_PARAMETER),
    (RequestCode::GetStateBlob, &LARGEST),
    (RequestCode::GetConfig, &CAPABILITY),
];

/// How many bytes a reader takes of a prefix and a strange byte behind it, and how the reply ends.
fn reply_read(command: RequestCode, prefix: &[u8]) -> (usize, Option<End>) {
    let mut reader = ReplyReader::new();
    reader.begin(command.code());
    match reader.feed(prefix) {
        (taken, FedReply::More) => {
            let (more, answer) = reader.feed(&[STRANGE]);
            (taken.saturating_add(more), reply_answered(answer))
        }
        (taken, answer) => (taken, reply_answered(answer)),
    }
}

/// How many bytes the first prefix has that is read otherwise than by the table.
fn wrong_reply(
    alloc: Global,
    command: RequestCode,
    whole: &[u8],
) -> Result<Option<usize>, AllocError> {
    for n in 0..whole.len() + 1 {
        let prefix = whole.get(..n).unwrap_or(&[]);
        let mut bytes = Vec::from_slice(alloc, prefix)?;
        bytes.push(STRANGE)?;
        if reply_read(command, prefix) != slowly(&bytes, Some(command.code())) {
            return Ok(Some(n));
        }
    }
    Ok(None)
}

#[test]
fn cut_replies_and_a_strange_byte(rt: HostRuntime) -> Result<(), Fail> {
    for (command, whole) in REPLIES {
        assert_eq!(rt; wrong_reply(rt.alloc(), command, whole)?, None);
    }
    Ok(())
}

/// Replies to GET_TPMESTABLISHED whose last three bytes aren't zeros, and the place of the first that isn't.
const NOT_ZERO: [([u8; 8], u32); 4] = [
    ([0, 0, 0, 0, 0, 1, 0, 0], 5),
    ([0, 0, 0, 0, 1, 0, 1, 0], 6),
    ([0, 0, 0, 0, 0, 0, 0, 1], 7),
    ([0, 0, 0, 9, 0, 0, 1, 1], 6),
];

/// Whether the reply is refused at that place, and the reader takes nothing more before it begins anew.
fn is_refused_at(reply: &[u8], place: u32) -> bool {
    let mut reader = ReplyReader::new();
    reader.begin(4);
    let refused = reader.feed(reply) == (place as usize + 1, FedReply::BadValue(place))
        && reader.feed(reply) == (0, FedReply::Failed);
    reader.begin(15);
    refused && reader.feed(&SUCCESS) == (4, FedReply::More)
}

#[test]
fn bytes_that_have_to_be_zero(rt: HostRuntime) {
    for (reply, place) in NOT_ZERO {
        assert!(rt; is_refused_at(&reply, place), "{place}");
    }
}

/// Whether the pieces, one after another, are this with the last of them and nothing before.
fn is_fed_in_pieces(
    reader: &mut RequestReader,
    bytes: &[u8],
    size: usize,
    whole: FedRequest,
) -> bool
    requires { 0 < size }
{
    let mut last = FedRequest::More;
    for piece in bytes.chunks(size) {
        if last != FedRequest::More {
            return false;
        }
        let (used, answer) = reader.feed(piece);
        if used != piece.len() {
            return false;
        }
        last = answer;
    }
    last == whole
}

/// The most data, whose bytes give their places.
fn numbered() -> [u8; 4096] {
    let mut data = [0; 4096];
    for (place, byte) in data.iter_mut().enumerate() {
        *byte = (place % 251) as u8;
    }
    data
}

/// Whether a request with the most data goes both ways, and one with a byte more is refused.
fn is_largest(reader: &mut RequestReader) -> bool {
    let tail = numbered();
    let mut bytes = [0; 4112];
    bytes[..16].copy_from_slice(&SET_PERMANENT);
    bytes[16..].copy_from_slice(&tail);
    let q = Request::SetStateBlob {
        flags: 0,
        kind: 1,
        length: 4096,
    };
    let mut longer = SET_PERMANENT;
    longer[15] = 1;
    is_request(reader, q, &tail, &bytes)
        && is_fed_in_pieces(reader, &bytes, 1000, FedRequest::Whole(q))
        && reader.data() == tail.as_slice()
        && reader.feed(&longer) == (16, FedRequest::BadLength(4097))
}

#[test]
fn data_of_any_length(rt: HostRuntime) -> Result<(), Fail> {
    let mut reader = RequestReader::new(rt.alloc())?;
    assert!(rt; is_largest(&mut reader));
    Ok(())
}

#[test]
fn texts_of_faults(rt: HostRuntime) -> Result<(), Fail> {
    let unknown = RequestFault::Code(6);
    let text = "no request has the code 6";
    assert_eq!(rt; format!(in rt.alloc(); "{unknown}")?.as_str(), text);
    let not_zero = ReplyFault::Value(5);
    let text = "byte 5 of the reply has to be 0";
    assert_eq!(rt; format!(in rt.alloc(); "{not_zero}")?.as_str(), text);
    Ok(())
}
