//! Requests over prepared wires.
use crate::fixtures::Script;
use ctrl_client::ClientFault::Link;
use ctrl_client::*;
use state_blobs::Piece;
use std::alloc::{AllocError, Global};
use std::test::*;
use vt_base::{Chan, Kind};

// The requests that are answered by a number or by a result alone.
#[derive(Clone, Copy)]
enum Ask {
    Init,
    Stop,
    Cancel,
    Put,
    Buffer(u32),
}

// Asks it, and gives 0 for a result alone.
fn asked(wires: &mut Script, ask: Ask) -> Result<u32, ClientFault> {
    let done = match ask {
        Ask::Init => init(wires, 0),
        Ask::Stop => stop(wires),
        Ask::Cancel => cancel(wires),
        Ask::Put => put_piece(wires, Kind::Volatile, &[0xA1, 0xA2, 0xA3]),
        Ask::Buffer(size) => return set_buffer(wires, size),
    };
    match done {
        Ok(()) => Ok(0),
        Err(fault) => Err(fault),
    }
}

// INIT with no flag, STOP and CANCEL_TPM_CMD.
const INIT: [u8; 8] = [0, 0, 0, 2, 0, 0, 0, 0];

const STOP: [u8; 4] = [0, 0, 0, 14];

const CANCEL: [u8; 4] = [0, 0, 0, 9];

// SET_STATEBLOB: flags 0, type 2, length 3, and the data.
const PUT: [u8; 19] = [
    0, 0, 0, 13, 0, 0, 0, 0, 0, 0, 0, 2, 0, 0, 0, 3, 0xA1, 0xA2, 0xA3,
];

// SET_BUFFERSIZE: 2000, and 0.
const BUFFER: [u8; 8] = [0, 0, 0, 17, 0, 0, 0x07, 0xD0];

const NO_BUFFER: [u8; 8] = [0, 0, 0, 17, 0, 0, 0, 0];

// GET_STATEBLOB before the offset: flags 0, type 2.
const GET: [u8; 12] = [0, 0, 0, 12, 0, 0, 0, 0, 0, 0, 0, 2];

// The result of a request that was done.
const DONE: [u8; 4] = [0, 0, 0, 0];

// The result 0, the size 2000, the least size 1024 and the greatest 4096.
const TOOK: [u8; 16] = [0, 0, 0, 0, 0, 0, 0x07, 0xD0, 0, 0, 4, 0, 0, 0, 0x10, 0];

// A blob of ten bytes, whole: result 0, flags 0, total 10, length 10 and the data.
const BLOB: [u8; 26] = [
    0, 0, 0, 0, 0, 0, 0, 0, 0, 0, 0, 10, 0, 0, 0, 10, 0x43, 0x52, 0x42, 0x56, 1, 0, 0, 0, 1, 0,
];

// The result 10, and the sizes.
const NOT_TAKEN: [u8; 16] = [0, 0, 0, 10, 0, 0, 0x07, 0xD0, 0, 0, 4, 0, 0, 0, 0x10, 0];

// Good replies without their last byte.
const BEGUN: [u8; 3] = [0, 0, 0];

const CUT: [u8; 15] = [0, 0, 0, 0, 0, 0, 0x07, 0xD0, 0, 0, 4, 0, 0, 0, 0x10];

// A request; how many bytes come at once at most, and the number of the call that fails, if it isn't 0; the reply; the
// request's bytes, how many of them are sent, and the answer.
type Asked = (
    Ask,
    usize,
    u64,
    &'static [u8],
    &'static [u8],
    usize,
    Result<u32, ClientFault>,
);

const ASKED: [Asked; 29] = [
    (Ask::Init, 4096, 0, &DONE, &INIT, 8, Ok(0)),
    (Ask::Init, 1, 0, &DONE, &INIT, 8, Ok(0)),
    (Ask::Stop, 4096, 0, &DONE, &STOP, 4, Ok(0)),
    (Ask::Stop, 1, 0, &DONE, &STOP, 4, Ok(0)),
    (Ask::Cancel, 4096, 0, &DONE, &CANCEL, 4, Ok(0)),
    (Ask::Cancel, 1, 0, &DONE, &CANCEL, 4, Ok(0)),
    (Ask::Put, 4096, 0, &DONE, &PUT, 19, Ok(0)),
    (Ask::Put, 1, 0, &DONE, &PUT, 19, Ok(0)),
    (Ask::Buffer(2000), 4096, 0, &TOOK, &BUFFER, 8, Ok(2000)),
    (Ask::Buffer(2000), 1, 0, &TOOK, &BUFFER, 8, Ok(2000)),
    (Ask::Buffer(0), 4096, 0, &TOOK, &NO_BUFFER, 8, Ok(2000)),
    // A result that isn't 0.
    (
        Ask::Init,
        4096,
        0,
        &[0, 0, 0, 3],
        &INIT,
        8,
        Err(ClientFault::Result(3)),
    ),
    (
        Ask::Stop,
        4096,
        0,
        &[0, 0, 0, 10],
        &STOP,
        4,
        Err(ClientFault::Result(10)),
    ),
    (
        Ask::Cancel,
        4096,
        0,
        &[0x80, 0, 0, 0],
        &CANCEL,
        4,
        Err(ClientFault::Result(0x8000_0000)),
    ),
    (
        Ask::Put,
        4096,
        0,
        &[0xFF, 0xFF, 0xFF, 0xFF],
        &PUT,
        19,
        Err(ClientFault::Result(0xFFFF_FFFF)),
    ),
    (
        Ask::Buffer(2000),
        4096,
        0,
        &NOT_TAKEN,
        &BUFFER,
        8,
        Err(ClientFault::Result(10)),
    ),
    // A send fails, and behind the sends the receive.
    (Ask::Init, 4096, 1, &DONE, &INIT, 0, Err(Link)),
    (Ask::Init, 4096, 2, &DONE, &INIT, 8, Err(Link)),
    (Ask::Stop, 4096, 1, &DONE, &STOP, 0, Err(Link)),
    (Ask::Stop, 4096, 2, &DONE, &STOP, 4, Err(Link)),
    (Ask::Cancel, 4096, 1, &DONE, &CANCEL, 0, Err(Link)),
    (Ask::Cancel, 4096, 2, &DONE, &CANCEL, 4, Err(Link)),
    (Ask::Put, 4096, 1, &DONE, &PUT, 0, Err(Link)),
    (Ask::Put, 4096, 2, &DONE, &PUT, 16, Err(Link)),
    (Ask::Put, 4096, 3, &DONE, &PUT, 19, Err(Link)),
    (Ask::Buffer(2000), 4096, 1, &TOOK, &BUFFER, 0, Err(Link)),
    (Ask::Buffer(2000), 4096, 2, &TOOK, &BUFFER, 8, Err(Link)),
    // The reply ends early.
    (Ask::Stop, 4096, 0, &BEGUN, &STOP, 4, Err(Link)),
    (Ask::Buffer(2000), 4096, 0, &CUT, &BUFFER, 8, Err(Link)),
];

// Whether so many bytes of this request were sent.
fn has_sent(wires: &Script, request: &[u8], count: usize) -> bool {
    request.get(..count) == Some(wires.sent.as_slice())
}

// Whether a request goes so.
fn goes(alloc: Global, row: &Asked) -> Result<bool, AllocError> {
    let (ask, piece, failing, reply, request, sent, answer) = *row;
    let mut wires = Script::new(alloc, Chan::Ctrl, reply, piece, failing)?;
    Ok(asked(&mut wires, ask) == answer && has_sent(&wires, request, sent))
}

// The number of the first request that goes otherwise.
fn wrong_request(alloc: Global) -> Result<Option<usize>, AllocError> {
    for (number, row) in ASKED.iter().enumerate() {
        if !goes(alloc, row)? {
            return Ok(Some(number));
        }
    }
    Ok(None)
}

#[test]
fn each_request_is_sent_and_answered_as_in_the_table(rt: HostRuntime) -> Result<(), Fail> {
    assert_eq!(rt; wrong_request(rt.alloc())?, None);
    Ok(())
}

// What came of a request for a piece: the answer, the twelve bytes that it could fill, how many bytes were sent, and
// whether the channel was cut.
type Fetched = (Result<Piece, ClientFault>, [u8; 12], usize, bool);

// Asks for a piece of the volatile state, with room for twelve bytes.
fn fetched(wires: &mut Script, offset: u32) -> Fetched {
    let mut into = [0xEE; 12];
    let answer = get_piece(wires, Kind::Volatile, offset, &mut into);
    (answer, into, wires.sent.as_slice().len(), wires.was_cut)
}

// The twelve bytes where none was filled, where two were, and where the blob was.
const NOTHING: [u8; 12] = [0xEE; 12];

const TWO: [u8; 12] = [
    0x43, 0x52, 0xEE, 0xEE, 0xEE, 0xEE, 0xEE, 0xEE, 0xEE, 0xEE, 0xEE, 0xEE,
];

const WHOLE: [u8; 12] = [0x43, 0x52, 0x42, 0x56, 1, 0, 0, 0, 1, 0, 0xEE, 0xEE];

// The offset that is asked for; how many bytes come at once at most, and the number of the call that fails, if it isn't
// 0; the last bytes of the result, the flags, the total and the length in the reply, and how many of its bytes come.
type Reply = (u32, usize, u64, [u8; 4], usize);

const FETCHED: [(Reply, Fetched); 22] = [
    (
        (0, 4096, 0, [0, 0, 10, 10], 26),
        (
            Ok(Piece {
                total: 10,
                length: 10,
            }),
            WHOLE,
            16,
            false,
        ),
    ),
    (
        (0, 1, 0, [0, 0, 10, 10], 26),
        (
            Ok(Piece {
                total: 10,
                length: 10,
            }),
            WHOLE,
            16,
            false,
        ),
    ),
    (
        (0, 7, 0, [0, 0, 10, 10], 26),
        (
            Ok(Piece {
                total: 10,
                length: 10,
            }),
            WHOLE,
            16,
            false,
        ),
    ),
    // A piece that isn't the whole of what is left, one that is, and none at the end of the blob.
    (
        (0, 4096, 0, [0, 0, 10, 2], 26),
        (
            Ok(Piece {
                total: 10,
                length: 2,
            }),
            TWO,
            16,
            false,
        ),
    ),
    (
        (8, 4096, 0, [0, 0, 10, 2], 26),
        (
            Ok(Piece {
                total: 10,
                length: 2,
            }),
            TWO,
            16,
            false,
        ),
    ),
    (
        (10, 4096, 0, [0, 0, 10, 0], 26),
        (
            Ok(Piece {
                total: 10,
                length: 0,
            }),
            NOTHING,
            16,
            false,
        ),
    ),
    (
        (10, 1, 0, [0, 0, 10, 0], 26),
        (
            Ok(Piece {
                total: 10,
                length: 0,
            }),
            NOTHING,
            16,
            false,
        ),
    ),
    // Result 3 with no data behind it, which cuts nothing, and with data; flags 1; an offset of 11 in 10 bytes.
    (
        (0, 4096, 0, [3, 0, 0, 0], 26),
        (Err(ClientFault::Result(3)), NOTHING, 16, false),
    ),
    (
        (0, 4096, 0, [3, 1, 0, 9], 26),
        (Err(ClientFault::Result(3)), NOTHING, 16, true),
    ),
    (
        (0, 4096, 0, [0, 1, 10, 10], 26),
        (Err(ClientFault::Reply(4)), NOTHING, 16, true),
    ),
    (
        (11, 4096, 0, [0, 0, 10, 0], 26),
        (Err(ClientFault::Reply(8)), NOTHING, 16, true),
    ),
    (
        (0x0102_0304, 4096, 0, [0, 0, 10, 10], 26),
        (Err(ClientFault::Reply(8)), NOTHING, 16, true),
    ),
    // 3 of 2 bytes that are left, 13 into room for 12, none of 1 and of 10 that are left, and 1 of none.
    (
        (8, 4096, 0, [0, 0, 10, 3], 26),
        (Err(ClientFault::Reply(12)), NOTHING, 16, true),
    ),
    (
        (0, 4096, 0, [0, 0, 20, 13], 26),
        (Err(ClientFault::Reply(12)), NOTHING, 16, true),
    ),
    (
        (9, 4096, 0, [0, 0, 10, 0], 26),
        (Err(ClientFault::Reply(12)), NOTHING, 16, true),
    ),
    (
        (0, 4096, 0, [0, 0, 10, 0], 26),
        (Err(ClientFault::Reply(12)), NOTHING, 16, true),
    ),
    (
        (10, 4096, 0, [0, 0, 10, 1], 26),
        (Err(ClientFault::Reply(12)), NOTHING, 16, true),
    ),
    // The send fails, the receive of the fields, and that of the data.
    (
        (0, 4096, 1, [0, 0, 10, 10], 26),
        (Err(Link), NOTHING, 0, false),
    ),
    (
        (0, 4096, 2, [0, 0, 10, 10], 26),
        (Err(Link), NOTHING, 16, false),
    ),
    (
        (0, 4096, 3, [0, 0, 10, 10], 26),
        (Err(Link), NOTHING, 16, false),
    ),
    // The reply ends early.
    (
        (0, 4096, 0, [0, 0, 10, 10], 15),
        (Err(Link), NOTHING, 16, false),
    ),
    (
        (0, 4096, 0, [0, 0, 10, 10], 16),
        (Err(Link), NOTHING, 16, false),
    ),
];

// The reply with these four numbers.
fn reply_of(fields: [u8; 4]) -> [u8; 26] {
    let mut reply = BLOB;
    reply[3] = fields[0];
    reply[7] = fields[1];
    reply[11] = fields[2];
    reply[15] = fields[3];
    reply
}

// Whether this comes of a request for a piece; a request that is sent is that of the volatile state from the offset on.
fn is_fetched(wires: &mut Script, offset: u32, wanted: &Fetched) -> bool {
    let came = fetched(wires, offset);
    let sent = wires.sent.as_slice();
    came == *wanted
        && (sent.is_empty() || sent.starts_with(&GET) && sent.ends_with(&offset.to_be_bytes()))
}

// Whether this comes of a request for a piece that has this reply.
fn comes(alloc: Global, reply: &Reply, wanted: &Fetched) -> Result<bool, AllocError> {
    let (offset, piece, failing, fields, count) = *reply;
    let bytes = reply_of(fields);
    let mut wires = Script::new(
        alloc,
        Chan::Ctrl,
        bytes.get(..count).unwrap_or(&[]),
        piece,
        failing,
    )?;
    Ok(is_fetched(&mut wires, offset, wanted))
}

// The number of the first piece that comes otherwise.
fn wrong_piece(alloc: Global) -> Result<Option<usize>, AllocError> {
    for (number, (reply, wanted)) in FETCHED.iter().enumerate() {
        if !comes(alloc, reply, wanted)? {
            return Ok(Some(number));
        }
    }
    Ok(None)
}

#[test]
fn each_piece_is_taken_or_refused_as_in_the_table(rt: HostRuntime) -> Result<(), Fail> {
    assert_eq!(rt; wrong_piece(rt.alloc())?, None);
    Ok(())
}

#[test]
fn texts_of_faults(rt: HostRuntime) -> Result<(), Fail> {
    for (fault, text) in [
        (ClientFault::Link, "the link to the emulator failed"),
        (ClientFault::Result(10), "the emulator answered result 10"),
        (
            ClientFault::Reply(12),
            "the reply of the emulator is malformed at byte 12",
        ),
    ] {
        assert_eq!(rt; format!(in rt.alloc(); "{fault}")?.as_str(), text);
    }
    Ok(())
}
