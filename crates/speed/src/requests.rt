//! The reader of control requests alone: so many requests with 4096 bytes of data, in one piece each or byte by byte, or as
//! many copies of the data without the reader.

ghost use Rattle.std.specs.Prelude.{◌<◌};

use ctrl_codec::{FedRequest, RequestReader};
use std::alloc::{AllocError, Global};
use vt_base::ByteBuf;

/// How many bytes of data a request has here.
const DATA: usize = 4096;

/// How many bytes stand before them.
const HEADER_SIZE: usize = 16;

/// A SET_STATEBLOB of the permanent state with 4096 bytes of data, before the data.
const SET_STATEBLOB: [u8; HEADER_SIZE] = [0, 0, 0, 13, 0, 0, 0, 0, 0, 0, 0, 1, 0, 0, 0x10, 0];

/// What was carried: how many messages, and the sum of a byte of the data of each.
#[derive(Drop)]
pub(crate) struct Carried {
    pub messages: u64,
    pub sum: u64,
}

impl Carried {
    fn count(&mut self, data: &[u8], place: usize) {
        let byte = data.get(place).copied().unwrap_or(0);
        self.messages = self.messages.wrapping_add(1);
        self.sum = self.sum.wrapping_add(u64::from(byte));
    }
}

// The place of the byte that is changed before message i goes, so that no two in turn are the same.
fn place_of(i: u32) -> usize
    ensures { result < DATA }
{
    i as usize % DATA
}

/// Reads so many requests, each in one piece.
pub(crate) fn read_whole(alloc: Global, count: u32) -> Result<Carried, AllocError> {
    read(alloc, count, HEADER_SIZE + DATA)
}

/// Reads so many requests byte by byte.
pub(crate) fn read_bytes(alloc: Global, count: u32) -> Result<Carried, AllocError> {
    read(alloc, count, 1)
}

// Reads so many requests, each in pieces of this size.
fn read(alloc: Global, count: u32, size: usize) -> Result<Carried, AllocError>
    requires { 0 < size }
{
    let mut carried = Carried {
        messages: 0,
        sum: 0,
    };
    let mut reader = RequestReader::new(alloc)?;
    let mut message = Vec::from_slice(alloc, &SET_STATEBLOB)?;
    for _ in 0..DATA {
        message.push(0)?;
    }
    for i in 0..count {
        if let Some(byte) = message.get_mut(HEADER_SIZE + place_of(i)) {
            *byte = (i % 251) as u8;
        }
        for piece in message.chunks(size) {
            let (_, answer) = reader.feed(piece);
            if let FedRequest::Whole(_) = answer {
                carried.count(reader.data(), place_of(i));
            }
        }
    }
    Ok(carried)
}

/// Copies the data as often.
pub(crate) fn copy(count: u32) -> Carried {
    let mut carried = Carried {
        messages: 0,
        sum: 0,
    };
    let mut data = [0; DATA];
    let mut held = ByteBuf::<DATA>::new();
    for i in 0..count {
        data[place_of(i)] = (i % 251) as u8;
        held.clear();
        held.push(&data);
        carried.count(held.as_slice(), place_of(i));
    }
    carried
}
