//! Messages worked by hand from the table of the format, and readings compared with a plain slow reader.

ghost use Rattle.std.specs.Prelude.{◌≡◌};
ghost use Rattle.move_codec.specs.Encoding.{HasPiece};

use move_codec::*;
use std::alloc::{AllocError, Global};
use std::test::*;
use vt_base::{Bytes, HostName, Malformed, Reason, Why};

/// An Offer to B in epoch 1 of 23, 49, 10 and 10 bytes.
const OFFER: [u8; 35] = [
    0x43, 0x52, 0x42, 0x4d, 1, 0, 0, 0, 0x1a, 1, 1, 0, 0, 0, 0, 0, 0, 0, 1, 0, 0, 0, 0x17, 0, 0, 0,
    0x31, 0, 0, 0, 0x0a, 0, 0, 0, 0x0a,
];

/// A Need to A in epoch 1 of the record from its start.
const NEED: [u8; 24] = [
    0x43, 0x52, 0x42, 0x4d, 1, 0, 0, 0, 0x0f, 2, 0, 0, 0, 0, 0, 0, 0, 0, 1, 0, 0, 0, 0, 0,
];

/// A Piece to B of three bytes.
const PIECE: [u8; 29] = [
    0x43, 0x52, 0x42, 0x4d, 1, 0, 0, 0, 0x14, 3, 1, 1, 2, 3, 4, 5, 6, 7, 8, 2, 0x0a, 0x0b, 0x0c,
    0x0d, 0, 3, 0xaa, 0xbb, 0xcc,
];

const PREPARED: [u8; 19] = [
    0x43, 0x52, 0x42, 0x4d, 1, 0, 0, 0, 0x0a, 4, 0, 0, 0, 0, 0, 0, 0, 0, 1,
];

const COMMIT: [u8; 19] = [
    0x43, 0x52, 0x42, 0x4d, 1, 0, 0, 0, 0x0a, 5, 1, 0, 0, 0, 0, 0, 0, 0, 2,
];

const ABORT: [u8; 19] = [
    0x43, 0x52, 0x42, 0x4d, 1, 0, 0, 0, 0x0a, 6, 1, 0xff, 0xff, 0xff, 0xff, 0xff, 0xff, 0xff, 0xff,
];

/// A Refuse to A in epoch 1: the second total is bad.
const REFUSE: [u8; 24] = [
    0x43, 0x52, 0x42, 0x4d, 1, 0, 0, 0, 0x0f, 7, 0, 0, 0, 0, 0, 0, 0, 0, 1, 2, 0, 0, 0, 1,
];

fn same(a: &Message, b: &Message) -> bool {
    let bodies = match (&a.body, &b.body) {
        (Body::Offer { totals }, Body::Offer { totals: others }) => totals == others,
        (
            Body::Need { part, offset },
            Body::Need {
                part: other,
                offset: place,
            },
        ) => part == other && offset == place,
        (
            Body::Piece {
                part,
                offset,
                bytes,
            },
            Body::Piece {
                part: other,
                offset: place,
                bytes: others,
            },
        ) => part == other && offset == place && bytes.as_slice() == others.as_slice(),
        (Body::Prepared, Body::Prepared) => true,
        (Body::Commit, Body::Commit) => true,
        (Body::Abort, Body::Abort) => true,
        (
            Body::Refuse { reason, value },
            Body::Refuse {
                reason: other,
                value: number,
            },
        ) => reason == other && value == number,
        _ => false,
    };
    a.to == b.to && a.epoch == b.epoch && bodies
}

/// Whether the message is written so, behind a byte that stands there.
fn is_written(alloc: Global, m: &Message, wanted: &[u8]) -> Result<bool, AllocError>
    requires { HasPiece m.now.body }
{
    let mut text = Vec::from_slice(alloc, &[0xee])?;
    write_message(alloc, m, &mut text)?;
    Ok(text.first() == Some(&0xee) && text.get(1..) == Some(wanted))
}

/// Whether this message is whole.
fn is_whole(fed: &FedMessage, m: &Message) -> bool {
    match fed {
        FedMessage::Whole(read) => same(read, m),
        FedMessage::More | FedMessage::Bad(_) | FedMessage::Failed => false,
    }
}

/// Whether the message is read from bytes with one more behind them.
fn is_read_whole(
    alloc: Global,
    reader: &mut Reader,
    m: &Message,
    more: &[u8],
) -> Result<bool, AllocError> {
    let (used, fed) = reader.feed(alloc, more)?;
    let is_whole = is_whole(&fed, m);
    drop(fed);
    Ok(is_whole && used == more.len().saturating_sub(1) && reader.pending() == 0)
}

/// Whether the message is whole exactly with the last of the bytes, which come one by one.
fn is_read_singly(
    alloc: Global,
    reader: &mut Reader,
    m: &Message,
    bytes: &[u8],
) -> Result<bool, AllocError> {
    for (before, byte) in bytes.iter().enumerate() {
        if reader.pending() as usize != before {
            return Ok(false);
        }
        let (used, fed) = reader.feed(alloc, &[*byte])?;
        let is_whole = is_whole(&fed, m);
        drop(fed);
        if used != 1 || is_whole != (before == bytes.len().saturating_sub(1)) {
            return Ok(false);
        }
    }
    Ok(reader.pending() == 0)
}

/// Whether the message is written as these bytes, and read from them whole and byte by byte.
fn goes_both_ways(alloc: Global, m: &Message, wanted: &[u8]) -> Result<bool, AllocError>
    requires { HasPiece m.now.body }
{
    if !is_written(alloc, m, wanted)? {
        return Ok(false);
    }
    let mut more = Vec::from_slice(alloc, wanted)?;
    more.push(0xee)?;
    let mut reader = Reader::new(alloc)?;
    let is_read = is_read_whole(alloc, &mut reader, m, &more)?;
    Ok(is_read && is_read_singly(alloc, &mut reader, m, wanted)?)
}

/// Whether a message does.
fn does(
    alloc: Global,
    to: HostName,
    epoch: u64,
    body: Body,
    wanted: &[u8],
) -> Result<bool, AllocError>
    requires { HasPiece body }
{
    goes_both_ways(alloc, &Message { to, epoch, body }, wanted)
}

/// Whether messages of each kind but a piece do.
fn small_ones(alloc: Global) -> Result<[bool; 6], AllocError> {
    let offer = Body::Offer {
        totals: [23, 49, 10, 10],
    };
    let need = Body::Need {
        part: Part::Record,
        offset: 0,
    };
    let refuse = Body::Refuse {
        reason: Reason::Totals,
        value: 1,
    };
    Ok([
        does(alloc, HostName::B, 1, offer, &OFFER)?,
        does(alloc, HostName::A, 1, need, &NEED)?,
        does(alloc, HostName::A, 1, Body::Prepared, &PREPARED)?,
        does(alloc, HostName::B, 2, Body::Commit, &COMMIT)?,
        does(alloc, HostName::B, u64::MAX, Body::Abort, &ABORT)?,
        does(alloc, HostName::A, 1, refuse, &REFUSE)?,
    ])
}

/// Whether a piece does.
fn a_small_piece(alloc: Global) -> Result<bool, AllocError> {
    let piece = Body::Piece {
        part: Part::Volatile,
        offset: 0x0a0b_0c0d,
        bytes: Bytes::from_slice(alloc, &[0xaa, 0xbb, 0xcc])?,
    };
    does(alloc, HostName::B, 0x0102_0304_0506_0708, piece, &PIECE)
}

/// The first bytes of a message with 4096 bytes of a piece: its length is 4113.
const LONGEST: [u8; 26] = [
    0x43, 0x52, 0x42, 0x4d, 1, 0, 0, 0x10, 0x11, 3, 0, 0, 0, 0, 0, 0, 0, 0, 3, 1, 0, 0, 0, 0, 0x10,
    0,
];

/// Whether it does.
fn the_longest(alloc: Global) -> Result<bool, AllocError> {
    let bytes = [0x5a; 4096];
    let piece = Body::Piece {
        part: Part::Permanent,
        offset: 0,
        bytes: Bytes::from_slice(alloc, &bytes)?,
    };
    let mut wanted = [0x5a; 4122];
    if let Some(prefix) = wanted.get_mut(..26) {
        prefix.copy_from_slice(&LONGEST);
    }
    does(alloc, HostName::A, 3, piece, &wanted)
}

#[test]
fn messages_both_ways(rt: HostRuntime) -> Result<(), Fail> {
    assert_eq!(rt; small_ones(rt.alloc())?, [true; 6]);
    assert!(rt; a_small_piece(rt.alloc())?);
    assert!(rt; the_longest(rt.alloc())?);
    Ok(())
}

/// What the format says of some bytes.
#[derive(Clone, Copy, Debug, PartialEq, Eq)]
enum Slow {
    More,
    Whole(usize),
    Bad(Why, u32),
}

/// The big-endian number from one place to another.
fn number(bytes: &[u8], from: usize, to: usize) -> Option<u32> {
    let mut n: u32 = 0;
    for byte in bytes.get(from..to)? {
        n = n.wrapping_mul(256).wrapping_add(u32::from(*byte));
    }
    Some(n)
}

/// Tells it with all the bytes at hand, row by row of the refusals in `docs/MIGRATION.md`.
fn read_slowly(bytes: &[u8]) -> Slow {
    for (place, wanted) in [(0, b'C'), (1, b'R'), (2, b'B'), (3, b'M')] {
        match bytes.get(place) {
            None => return Slow::More,
            Some(byte) if *byte != wanted => return Slow::Bad(Why::Magic, place as u32),
            Some(_) => {}
        }
    }
    match bytes.get(4) {
        None => return Slow::More,
        Some(1) => {}
        Some(_) => return Slow::Bad(Why::Version, 4),
    }
    let Some(length) = number(bytes, 5, 9) else {
        return Slow::More;
    };
    if length < 10 || length > 4113 {
        return Slow::Bad(Why::Length, 5);
    }
    let Some(kind) = bytes.get(9) else {
        return Slow::More;
    };
    read_body_slowly(bytes, *kind, length)
}

fn read_body_slowly(bytes: &[u8], kind: u8, length: u32) -> Slow {
    let fits = match kind {
        1 => length == 26,
        2 | 7 => length == 15,
        3 => length >= 18,
        4 | 5 | 6 => length == 10,
        _ => return Slow::Bad(Why::Value, 9),
    };
    if !fits {
        return Slow::Bad(Why::Length, 5);
    }
    match bytes.get(10) {
        None => return Slow::More,
        Some(0) | Some(1) => {}
        Some(_) => return Slow::Bad(Why::Value, 10),
    }
    let named = match (kind, bytes.get(19)) {
        (2, Some(part)) | (3, Some(part)) => *part < 4,
        (7, Some(reason)) => 0 < *reason && *reason < 7,
        _ => true,
    };
    if !named {
        return Slow::Bad(Why::Value, 19);
    }
    if kind == 3 {
        match number(bytes, 24, 26) {
            None => return Slow::More,
            Some(n) if n == 0 || n > 4096 => return Slow::Bad(Why::Value, 24),
            Some(n) if n + 17 != length => return Slow::Bad(Why::Length, 24),
            Some(_) => {}
        }
    }
    let whole = 9 + length as usize;
    if bytes.len() < whole {
        Slow::More
    } else {
        Slow::Whole(whole)
    }
}

/// What a reader says that took so many bytes.
fn feed_of(fed: &FedMessage, taken: usize) -> Slow {
    match fed {
        FedMessage::More => Slow::More,
        FedMessage::Whole(_) => Slow::Whole(taken),
        FedMessage::Bad(Malformed { why, place }) => Slow::Bad(*why, *place),
        FedMessage::Failed => Slow::Bad(Why::Cut, 0),
    }
}

/// How many bytes a reader takes of a piece, and what it says.
fn fed(
    alloc: Global,
    reader: &mut Reader,
    before: usize,
    piece: &[u8],
) -> Result<(usize, Slow), AllocError> {
    let (used, fed) = reader.feed(alloc, piece)?;
    let taken = used.saturating_add(before);
    let feed_of = feed_of(&fed, taken);
    drop(fed);
    Ok((taken, feed_of))
}

/// What a reader says of bytes in two pieces.
fn read(
    alloc: Global,
    reader: &mut Reader,
    first: &[u8],
    second: &[u8],
) -> Result<(usize, Slow), AllocError> {
    match fed(alloc, reader, 0, first)? {
        (taken, Slow::More) => fed(alloc, reader, taken, second),
        feed_of => Ok(feed_of),
    }
}

/// The same of a new reader.
fn read_anew(alloc: Global, first: &[u8], second: &[u8]) -> Result<(usize, Slow), AllocError> {
    let mut reader = Reader::new(alloc)?;
    read(alloc, &mut reader, first, second)
}

/// Whether a prefix with one strange byte behind it is read so, in one piece and in two.
fn is_read(alloc: Global, prefix: &[u8], strange: u8) -> Result<bool, AllocError> {
    let mut all = Vec::from_slice(alloc, prefix)?;
    all.push(strange)?;
    let wanted = read_slowly(&all);
    let whole = read_anew(alloc, &all, &[])?;
    let parts = read_anew(alloc, prefix, &[strange])?;
    Ok(whole.1 == wanted && parts.1 == wanted)
}

/// How many bytes the first prefix has that isn't read so, and the byte behind it.
fn wrong_prefix(alloc: Global, whole: &[u8]) -> Result<Option<(usize, u8)>, AllocError> {
    for cut in 0..whole.len() + 1 {
        for strange in [0, 1, 2, 3, 7, 8, 0x0f, 0x12, 0xff] {
            if !is_read(alloc, whole.get(..cut).unwrap_or(&[]), strange)? {
                return Ok(Some((cut, strange)));
            }
        }
    }
    Ok(None)
}

/// A message of each kind.
const MESSAGES: [&[u8]; 7] = [&OFFER, &NEED, &PIECE, &PREPARED, &COMMIT, &ABORT, &REFUSE];

#[test]
fn cut_messages(rt: HostRuntime) -> Result<(), Fail> {
    for whole in MESSAGES {
        assert_eq!(rt; wrong_prefix(rt.alloc(), whole)?, None);
    }
    Ok(())
}

/// Each row of the refusals: the bytes up to the field that is refused, which are those that are taken.
const REFUSALS: [(&[u8], Why, u32); 20] = [
    (b"X", Why::Magic, 0),
    (b"CX", Why::Magic, 1),
    (b"CRX", Why::Magic, 2),
    (b"CRBX", Why::Magic, 3),
    (b"CRBM\x02", Why::Version, 4),
    (b"CRBM\x01\0\0\0\x09", Why::Length, 5),
    (b"CRBM\x01\0\0\x10\x12", Why::Length, 5),
    (b"CRBM\x01\0\0\0\x0a\x00", Why::Value, 9),
    (b"CRBM\x01\0\0\0\x0a\x08", Why::Value, 9),
    (b"CRBM\x01\0\0\0\x0a\x01", Why::Length, 5),
    (b"CRBM\x01\0\0\0\x1a\x02", Why::Length, 5),
    (b"CRBM\x01\0\0\0\x11\x03", Why::Length, 5),
    (b"CRBM\x01\0\0\0\x0b\x04", Why::Length, 5),
    (b"CRBM\x01\0\0\0\x0a\x04\x02", Why::Value, 10),
    (
        b"CRBM\x01\0\0\0\x0f\x02\x01\0\0\0\0\0\0\0\x01\x04",
        Why::Value,
        19,
    ),
    (
        b"CRBM\x01\0\0\0\x0f\x07\x01\0\0\0\0\0\0\0\x01\x00",
        Why::Value,
        19,
    ),
    (
        b"CRBM\x01\0\0\0\x0f\x07\x01\0\0\0\0\0\0\0\x01\x07",
        Why::Value,
        19,
    ),
    (
        b"CRBM\x01\0\0\0\x12\x03\x01\0\0\0\0\0\0\0\x01\x03\0\0\0\0\0\0",
        Why::Value,
        24,
    ),
    (
        b"CRBM\x01\0\0\x10\x11\x03\x01\0\0\0\0\0\0\0\x01\x03\0\0\0\0\x10\x01",
        Why::Value,
        24,
    ),
    (
        b"CRBM\x01\0\0\0\x12\x03\x01\0\0\0\0\0\0\0\x01\x03\0\0\0\0\0\x02",
        Why::Length,
        24,
    ),
];

/// Whether bytes are refused at their end, with a byte behind them, and the reader takes none any more.
fn is_refused(alloc: Global, bytes: &[u8], wanted: Slow) -> Result<bool, AllocError> {
    let mut more = Vec::from_slice(alloc, bytes)?;
    more.push(0)?;
    let mut reader = Reader::new(alloc)?;
    let feed_of = read(alloc, &mut reader, &more, &[])?;
    let after = fed(alloc, &mut reader, 0, &OFFER)?;
    Ok(
        read_slowly(bytes) == wanted
            && feed_of == (bytes.len(), wanted)
            && after == (0, Slow::Bad(Why::Cut, 0)),
    )
}

#[test]
fn a_malformed_message_is_refused_at_its_place(rt: HostRuntime) -> Result<(), Fail> {
    for (bytes, why, place) in REFUSALS {
        assert!(rt;
            is_refused(rt.alloc(), bytes, Slow::Bad(why, place))?,
            "{bytes:?}"
        );
    }
    Ok(())
}

/// Whether this is the message of `PIECE`.
fn is_piece(fed: &FedMessage) -> bool {
    let FedMessage::Whole(read) = fed else {
        return false;
    };
    let Body::Piece {
        part,
        offset,
        bytes,
    } = &read.body
    else {
        return false;
    };
    read.to == HostName::B
        && read.epoch == 0x0102_0304_0506_0708
        && *part == Part::Volatile
        && *offset == 0x0a0b_0c0d
        && bytes.as_slice() == [0xaa, 0xbb, 0xcc].as_slice()
}

/// Whether the piece is taken, a second time where memory is wanting: the reader is as it was then.
fn is_taken(alloc: Global, reader: &mut Reader) -> Result<bool, AllocError> {
    let (prefix, back) = PIECE.split_at(20);
    if fed(alloc, reader, 0, prefix)? != (20, Slow::More) {
        return Ok(false);
    }
    let taken = match reader.feed(alloc, back) {
        Err(AllocError) if reader.pending() == 20 => reader.feed(alloc, back)?,
        taken => taken?,
    };
    Ok(taken.0 == 9 && is_piece(&taken.1) && reader.pending() == 0)
}

#[test]
fn a_piece_after_want_of_memory(rt: HostRuntime) -> Result<(), Fail> {
    let mut reader = Reader::new(rt.alloc())?;
    assert!(rt; is_taken(rt.alloc(), &mut reader)?);
    Ok(())
}

/// Whether a message is written, a second time where memory is wanting: the output is as it was then.
fn is_written_again(alloc: Global, text: &mut Vec<u8>) -> Result<bool, AllocError> {
    let m = Message {
        to: HostName::A,
        epoch: 1,
        body: Body::Prepared,
    };
    if write_message(alloc, &m, text).is_err() {
        if text.as_slice() != [0xee].as_slice() {
            return Ok(false);
        }
        write_message(alloc, &m, text)?;
    }
    Ok(text.first() == Some(&0xee) && text.get(1..) == Some(PREPARED.as_slice()))
}

#[test]
fn writing_after_want_of_memory(rt: HostRuntime) -> Result<(), Fail> {
    let mut text = Vec::from_slice(rt.alloc(), &[0xee])?;
    assert!(rt; is_written_again(rt.alloc(), &mut text)?);
    Ok(())
}
