//! Every prefix of a control stream and of a migration message, and then one strange byte.
use ctrl_codec::{FedRequest, Out, RequestReader};
use move_codec::{FedMessage, Reader};
use std::alloc::{AllocError, Global};
use std::test::*;
use tpm_core::{Banks, SEED_SIZE};
use vt_base::Why;
use vt_emulator::{Desk, Emulator, Heard};

/// GET_CAPABILITY, INIT, SET_BUFFERSIZE, and GET_STATEBLOB of the volatile state and of none.
const REQUESTS: [&[u8]; 5] = [
    &[0, 0, 0, 1],
    &[0, 0, 0, 2, 0, 0, 0, 0],
    &[0, 0, 0, 0x11, 0, 0, 0x0F, 0x80],
    &[0, 0, 0, 0x0C, 0, 0, 0, 0, 0, 0, 0, 2, 0, 0, 0, 0],
    &[0, 0, 0, 0x0C, 0, 0, 0, 0, 0, 0, 0, 4, 0, 0, 0, 0],
];

/// What ends such a stream: a code that no request has, and the fields of SET_STATEBLOB with 4096 bytes of data.
const ENDS: [&[u8]; 2] = [
    &[0, 0, 0, 0x63],
    &[0, 0, 0, 0x0D, 0, 0, 0, 0, 0, 0, 0, 1, 0, 0, 0x10, 0],
];

/// The place of the last byte of a code, and that of a length of data.
const CODE_END: usize = 3;

const LENGTH_END: usize = 15;

/// The codes of requests without a body, and of those with one.
const ALONE: [u8; 7] = [1, 3, 4, 9, 10, 14, 15];

const WITH_BODY: [u8; 6] = [2, 5, 11, 12, 13, 17];

/// SHUTDOWN, which closes the channel.
const SHUTDOWN: u8 = 3;

/// SET_STATEBLOB.
const SET_STATEBLOB: u8 = 13;

/// What a strange byte makes of the request in which it stands.
#[derive(Clone, Copy, Debug, PartialEq, Eq)]
enum Fed {
    More,
    Whole,
    Code(u32),
    Length(u32),
}

/// The first bytes of a request, how many requests come before it, and what is made of a byte behind them.
#[derive(Clone, Copy)]
struct Cut<'a> {
    before: usize,
    prefix: &'a [u8],
    fed: Fed,
}

// What this byte makes of a code whose other bytes are 0.
fn code_fed(strange: u8) -> Fed {
    if ALONE.contains(&strange) {
        return Fed::Whole;
    }
    if WITH_BODY.contains(&strange) {
        return Fed::More;
    }
    Fed::Code(u32::from(strange))
}

// What this byte makes of the request at whose place it stands.
fn wanted(request: &[u8], place: usize, strange: u8) -> Fed {
    if place == CODE_END {
        return code_fed(strange);
    }
    if request.get(CODE_END) == Some(&SET_STATEBLOB) && place == LENGTH_END {
        return match strange {
            0 => Fed::More,
            _ => Fed::Length(4096 + u32::from(strange)),
        };
    }
    if place == request.len().saturating_sub(1) {
        return Fed::Whole;
    }
    Fed::More
}

// What a reader says; nothing where it reads no more.
fn said(answer: FedRequest) -> Option<Fed> {
    match answer {
        FedRequest::More => Some(Fed::More),
        FedRequest::Whole(_) => Some(Fed::Whole),
        FedRequest::BadCode(code) => Some(Fed::Code(code)),
        FedRequest::BadLength(length) => Some(Fed::Length(length)),
        FedRequest::Failed => None,
    }
}

// The bytes come one by one.
fn feed_singly(reader: &mut RequestReader, bytes: &[u8]) -> bool {
    for byte in bytes {
        if reader.feed(&[*byte]).0 != 1 {
            return false;
        }
    }
    true
}

// The first requests of the stream come byte by byte.
fn feed_requests(reader: &mut RequestReader, before: usize) -> bool {
    for request in REQUESTS.iter().take(before) {
        if !feed_singly(reader, request) {
            return false;
        }
    }
    true
}

// A strange byte, and with one behind it where no request goes on.
fn strange_bytes(bytes: &[u8; 2], fed: Fed) -> &[u8] {
    match fed {
        Fed::More => &bytes[..1],
        _ => bytes,
    }
}

// Whether a reader says so of a byte behind a prefix, takes that byte alone, and nothing after a refusal.
fn is_read(reader: &mut RequestReader, cut: &Cut, strange: u8) -> bool {
    reader.clear();
    if !feed_requests(reader, cut.before) || !feed_singly(reader, cut.prefix) {
        return false;
    }
    let (taken, answer) = reader.feed(strange_bytes(&[strange, 0], cut.fed));
    let is_said = said(answer) == Some(cut.fed) && taken == 1;
    match cut.fed {
        Fed::Code(_) | Fed::Length(_) => is_said && reader.feed(&[0]) == (0, FedRequest::Failed),
        Fed::More | Fed::Whole => is_said,
    }
}

// The bytes come to an emulator one by one, and its replies are dropped.
fn hear_singly(emulator: &mut Emulator, bytes: &[u8]) -> bool {
    for byte in bytes {
        let mut out = Out::new();
        let heard = emulator.control(&[*byte], &mut out);
        if heard.used != 1 || heard.closed {
            return false;
        }
    }
    true
}

// The first requests of the stream come to it byte by byte.
fn hear_requests(emulator: &mut Emulator, before: usize) -> bool {
    for request in REQUESTS.iter().take(before) {
        if !hear_singly(emulator, request) {
            return false;
        }
    }
    true
}

// Whether an emulator answers so.
fn is_reply(out: &Out, fed: Fed) -> bool {
    match fed {
        Fed::More => out.bytes().is_empty(),
        Fed::Whole => !out.bytes().is_empty(),
        Fed::Code(_) => out.bytes() == [0, 0, 0, 0x0A].as_slice(),
        Fed::Length(_) => out.bytes() == [0, 0, 0, 3].as_slice(),
    }
}

// Whether the control channel is closed then: by a refusal, and by SHUTDOWN.
fn is_closing(cut: &Cut, strange: u8) -> bool {
    match cut.fed {
        Fed::More => false,
        Fed::Whole => cut.prefix.len() == CODE_END && strange == SHUTDOWN,
        Fed::Code(_) | Fed::Length(_) => true,
    }
}

// Whether a closed channel takes nothing.
fn is_silent(emulator: &mut Emulator) -> bool {
    let mut out = Out::new();
    let heard = emulator.control(&[0], &mut out);
    heard
        == (Heard {
            used: 0,
            closed: true,
        })
        && out.bytes().is_empty()
}

// Whether an emulator answers a byte behind a prefix so, and closes its channel where it has to.
fn is_heard(emulator: &mut Emulator, cut: &Cut, strange: u8) -> bool {
    if !hear_requests(emulator, cut.before) || !hear_singly(emulator, cut.prefix) {
        return false;
    }
    let mut out = Out::new();
    let heard = emulator.control(strange_bytes(&[strange, 0], cut.fed), &mut out);
    let closed = is_closing(cut, strange);
    heard == (Heard { used: 1, closed })
        && is_reply(&out, cut.fed)
        && (!closed || is_silent(emulator))
}

// Whether a reader and an emulator answer the byte behind the first bytes of a request as the table says.
fn is_answered(
    reader: &mut RequestReader,
    emulator: &mut Emulator,
    before: usize,
    request: &[u8],
    place: usize,
    strange: u8,
) -> bool {
    let cut = Cut {
        before,
        prefix: request.get(..place).unwrap_or(&[]),
        fed: wanted(request, place, strange),
    };
    emulator.open_control();
    is_heard(emulator, &cut, strange) && is_read(reader, &cut, strange)
}

// The first place in a request, and the byte there, that are answered otherwise.
fn wrong_byte(
    reader: &mut RequestReader,
    emulator: &mut Emulator,
    before: usize,
    request: &[u8],
) -> Option<(usize, u8)> {
    for place in 0..request.len() {
        for strange in 0..=u8::MAX {
            if !is_answered(reader, emulator, before, request, place, strange) {
                return Some((place, strange));
            }
        }
    }
    None
}

// The first request with such a byte.
fn wrong_request(
    reader: &mut RequestReader,
    emulator: &mut Emulator,
) -> Option<(usize, (usize, u8))> {
    for (before, request) in REQUESTS.iter().enumerate() {
        if let Some(wrong) = wrong_byte(reader, emulator, before, request) {
            return Some((before, wrong));
        }
    }
    for request in ENDS {
        if let Some(wrong) = wrong_byte(reader, emulator, REQUESTS.len(), request) {
            return Some((REQUESTS.len(), wrong));
        }
    }
    None
}

#[test]
fn a_strange_byte_in_a_control_stream(rt: HostRuntime) -> Result<(), Fail> {
    let mut reader = RequestReader::new(rt.alloc())?;
    let mut emulator = Emulator::new(rt.alloc(), [0; SEED_SIZE], Banks::Two, 4096)?;
    assert_eq!(rt; wrong_request(&mut reader, &mut emulator), None);
    Ok(())
}

/// An Offer to B in epoch 1, of a host on which no line was done.
const OFFER: [u8; 35] = [
    0x43, 0x52, 0x42, 0x4d, 1, 0, 0, 0, 0x1a, 1, 1, 0, 0, 0, 0, 0, 0, 0, 1, 0, 0, 0, 0x17, 0, 0, 0,
    0x31, 0, 0, 0, 0x0a, 0, 0, 0, 0x0a,
];

/// What a reader of messages says.
#[derive(Clone, Copy, Debug, PartialEq, Eq)]
enum Read {
    More,
    Whole,
    Bad(Why, u32),
    Failed,
}

// What a strange byte behind so many bytes of the Offer makes of it, by the refusals in `docs/MIGRATION.md`.
fn wanted_of_offer(place: usize, strange: u8) -> Read {
    match place {
        0..=3 if OFFER.get(place) != Some(&strange) => Read::Bad(Why::Magic, place as u32),
        4 if strange != 1 => Read::Bad(Why::Version, 4),
        // The length is whole with its last byte, and the others are 0.
        8 if strange < 10 => Read::Bad(Why::Length, 5),
        9 => wanted_of_kind(strange),
        10 if strange > 1 => Read::Bad(Why::Value, 10),
        34 => Read::Whole,
        // Behind it another message begins.
        35 if strange != b'C' => Read::Bad(Why::Magic, 0),
        _ => Read::More,
    }
}

// A message of 26 bytes behind its length is an Offer or a Piece.
fn wanted_of_kind(kind: u8) -> Read {
    match kind {
        1 | 3 => Read::More,
        2 | 4 | 5 | 6 | 7 => Read::Bad(Why::Length, 5),
        _ => Read::Bad(Why::Value, 9),
    }
}

// What the reader said.
fn read_of(fed: &FedMessage) -> Read {
    match fed {
        FedMessage::More => Read::More,
        FedMessage::Whole(_) => Read::Whole,
        FedMessage::Bad(fault) => Read::Bad(fault.why, fault.place),
        FedMessage::Failed => Read::Failed,
    }
}

// How many bytes a reader takes, and what it says.
fn feed(alloc: Global, reader: &mut Reader, piece: &[u8]) -> Result<(usize, Read), AllocError> {
    let (taken, fed) = reader.feed(alloc, piece)?;
    let read = read_of(&fed);
    drop(fed);
    Ok((taken, read))
}

// The first bytes of the Offer come one by one.
fn read_singly(alloc: Global, reader: &mut Reader, count: usize) -> Result<bool, AllocError> {
    for (place, byte) in OFFER.iter().enumerate().take(count) {
        let wanted = if place == 34 { Read::Whole } else { Read::More };
        if feed(alloc, reader, &[*byte])? != (1, wanted) {
            return Ok(false);
        }
    }
    Ok(true)
}

// Whether the byte behind them is answered so and taken alone, and nothing is after a refusal.
fn is_strange(
    alloc: Global,
    reader: &mut Reader,
    place: usize,
    strange: u8,
) -> Result<bool, AllocError> {
    let wanted = wanted_of_offer(place, strange);
    let bytes = [strange, 0];
    let count = if wanted == Read::More { 1 } else { 2 };
    if !read_singly(alloc, reader, place)? {
        return Ok(false);
    }
    if feed(alloc, reader, bytes.get(..count).unwrap_or(&[]))? != (1, wanted) {
        return Ok(false);
    }
    match wanted {
        Read::Bad(..) => Ok(feed(alloc, reader, &OFFER)? == (0, Read::Failed)),
        _ => Ok(true),
    }
}

// The first place of the Offer, and the byte there, that are answered otherwise.
fn wrong_place(alloc: Global) -> Result<Option<(usize, u8)>, AllocError> {
    for place in 0..=OFFER.len() {
        for strange in 0..=u8::MAX {
            let mut reader = Reader::new(alloc)?;
            if !is_strange(alloc, &mut reader, place, strange)? {
                return Ok(Some((place, strange)));
            }
        }
    }
    Ok(None)
}

#[test]
fn a_strange_byte_in_a_message(rt: HostRuntime) -> Result<(), Fail> {
    assert_eq!(rt; wrong_place(rt.alloc())?, None);
    Ok(())
}
