//! Each call on the wires of a request fails in turn.
use crate::failing::wires;
use ctrl_client::*;
use state_blobs::Piece;
use std::alloc::{AllocError, Global};
use std::test::*;
use vt_base::Kind;
use vt_world::MemWires;

/// The numbers of the calls that fail, each over wires of their own, are those from 1 to this one.
const CALLS: u64 = 8;

/// A request of a host to its emulator.
#[derive(Clone, Copy, Debug, PartialEq, Eq)]
enum Ask {
    Init,
    Stop,
    Cancel,
    Buffer,
    Get,
    Put,
}

/// A request, and how many calls it makes: sends of the fields and of the data, and receives of them.
const ASKS: [(Ask, u64); 6] = [
    (Ask::Init, 2),
    (Ask::Stop, 2),
    (Ask::Cancel, 2),
    (Ask::Buffer, 2),
    (Ask::Get, 3),
    (Ask::Put, 3),
];

/// What is asked for as the size of a buffer.
const SIZE: u32 = 2000;

/// The volatile state of a TPM that isn't started has ten bytes.
const VOLATILE: Piece = Piece {
    total: 10,
    length: 10,
};

// Whether a piece of the volatile state comes whole.
fn is_given(wires: &mut MemWires) -> Result<(), ClientFault> {
    let mut into = [0; 16];
    let piece = get_piece(wires, Kind::Volatile, 0, &mut into)?;
    if piece == VOLATILE {
        return Ok(());
    }
    Err(ClientFault::Reply(0))
}

// Asks it.
fn asked(wires: &mut MemWires, ask: Ask) -> Result<(), ClientFault> {
    match ask {
        Ask::Init => init(wires, 0),
        Ask::Stop => stop(wires),
        Ask::Cancel => cancel(wires),
        Ask::Buffer => match set_buffer(wires, SIZE)? {
            SIZE => Ok(()),
            _ => Err(ClientFault::Reply(0)),
        },
        Ask::Get => is_given(wires),
        Ask::Put => put_piece(wires, Kind::Volatile, b"C"),
    }
}

// What comes of the same request once more. An emulator that took the data has them, even if its reply was lost: it
// refuses a second C.
fn answer_then(ask: Ask, call: u64) -> Result<(), ClientFault> {
    if ask == Ask::Put && call > 2 {
        return Err(ClientFault::Result(3));
    }
    Ok(())
}

// Whether a request answers a fault of the link exactly where one of its calls fails, and the next one is as ever.
fn is_answered(alloc: Global, ask: Ask, calls: u64, call: u64) -> Result<bool, AllocError> {
    let mut wires = wires(alloc, call)?;
    let wanted = if call <= calls {
        Err(ClientFault::Link)
    } else {
        Ok(())
    };
    let first = asked(&mut wires, ask);
    if call > calls {
        return Ok(first == wanted);
    }
    Ok(first == wanted && asked(&mut wires, ask) == answer_then(ask, call))
}

// The first call of a request whose failure is answered otherwise.
fn wrong_call(alloc: Global, ask: Ask, calls: u64) -> Result<Option<u64>, AllocError> {
    for call in 1..=CALLS {
        if !is_answered(alloc, ask, calls, call)? {
            return Ok(Some(call));
        }
    }
    Ok(None)
}

#[test]
fn a_failed_call_is_a_fault_of_the_link(rt: HostRuntime) -> Result<(), Fail> {
    for (ask, calls) in ASKS {
        assert_eq!(rt; wrong_call(rt.alloc(), ask, calls)?, None, "{ask:?}");
    }
    Ok(())
}
