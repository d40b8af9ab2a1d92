//! Exchanges on the two channels, written down by hand.

ghost use Rattle.std.specs.Prelude.{◌<◌, ◌≤◌};

use ctrl_codec::{Out, Request, write_request};
use std::alloc::{AllocError, Global};
use std::test::*;
use tpm_core::Banks;
use vt_base::Buf;
use vt_emulator::laws::{command_in_parts, control_in_parts, steps_are_deterministic, three_close};
use vt_emulator::*;

/// What is done to an emulator, and what comes of it.
enum Step {
    /// This request has this reply.
    Ask(&'static str, &'static str),
    /// So too, and the channel is closed then.
    Last(&'static str, &'static str),
    /// Another control connection begins.
    Open,
    /// This command is held.
    Give(&'static str),
    /// The command that is held has this response.
    Run(&'static str),
}

use Step::{Ask, Give, Last, Open, Run};

const INIT: &str = "0000000200000000";

const STOP: &str = "0000000e";

const STORE_VOLATILE: &str = "0000000a";

const CANCEL: &str = "00000009";

const DONE: &str = "00000000";

const BAD: &str = "00000003";

const STARTUP: &str = "80010000000c000001440000";

const GET_RANDOM: &str = "80010000000c0000017b0000";

const SUCCESS: &str = "80010000000a00000000";

const NOTHING_DRAWN: &str = "80010000000c000000000000";

const NOT_STARTED: &str = "80010000000a00000100";

const OFF: &str = "80010000000a00000101";

const CANCELLED: &str = "80010000000a00000909";

/// Extends register 0 by 32 zeros.
const EXTEND: &str = "80020000004100000182000000000000000940000009000001000000000001000b\
                      0000000000000000000000000000000000000000000000000000000000000000";

const EXTENDED: &str = "80020000001300000000000000000000010000";

/// Reads register 0, which is the SHA-256 of 64 zeros then.
const READ: &str = "8001000000140000017e00000001000b03010000";

const ONE_EXTENDED: &str = "80010000003e000000000000000100000001000b0301000000000001\
                            0020f5a5fd42d16a20302798ef6ed309979b43003d2320d9f0e8ea9831a92759fb4b";

/// The TPM as it is given, where power came to it once.
const BOOTED_ONCE: &str = "00000000000000000000003100000031435242500100000028\
                           00000000000000000000000000000000000000000000000000000000000000000000000000000001";

/// And where it came twice.
const BOOTED_TWICE: &str = "00000000000000000000003100000031435242500100000028\
                            00000000000000000000000000000000000000000000000000000000000000000000000000000002";

const GET_PERMANENT: &str = "0000000c000000000000000100000000";

/// To an emulator with a TPM of 32 zeros that was never switched on.
const FIRST: [Step; 7] = [
    Ask("00000001", "0000000000002fef"),
    Ask(INIT, DONE),
    Ask("0000001100000f80", "0000000000000f800000040000001000"),
    Ask(
        "0000000c000000000000000200000000",
        "00000000000000000000000a0000000a43524256010000000100",
    ),
    Ask(
        "0000000c000000000000000400000000",
        "00000003000000000000000000000000",
    ),
    Last("00000063", "0000000a"),
    Open,
];

/// Off, with a TPM.
const WHILE_OFF: [Step; 15] = [
    Ask("00000004", "0000000000000000"),
    Ask("0000000500aabbcc", DONE),
    Ask("0000000501000000", BAD),
    Ask(CANCEL, DONE),
    Ask(STORE_VOLATILE, "0000000a"),
    Ask("0000000b03000000", DONE),
    Ask("0000000f", "0000000000000000"),
    Ask("0000001100000000", "00000000000010000000040000001000"),
    Ask("0000001100000001", "00000000000004000000040000001000"),
    Ask("00000011ffffffff", "00000000000010000000040000001000"),
    Ask("0000000200000002", BAD),
    Last("00000006", "0000000a"),
    Open,
    Last("00000003", DONE),
    Open,
];

/// Flags, types and offsets that aren't there; pieces that are refused; a volatile blob of four bytes alone, deleted or
/// not; a piece that is too long; and one that comes while the TPM is on.
const BLOBS: [Step; 16] = [
    Ask(
        "0000000c000000010000000200000000",
        "00000003000000000000000000000000",
    ),
    Ask(
        "0000000c000000000000000000000000",
        "00000003000000000000000000000000",
    ),
    Ask(
        "0000000c00000000000000030000000a",
        "00000000000000000000000a00000000",
    ),
    Ask(
        "0000000c00000000000000030000000b",
        "00000003000000000000000000000000",
    ),
    Ask("0000000d00000001000000010000000143", BAD),
    Ask("0000000d00000000000000040000000143", BAD),
    Ask("0000000d00000000000000010000000158", BAD),
    Ask("0000000d000000000000000100000000", DONE),
    Ask("0000000d00000000000000020000000443524256", DONE),
    Ask(INIT, BAD),
    Ask("0000000200000001", BAD),
    Last("0000000d000000000000000100001001", BAD),
    Open,
    Ask(STOP, DONE),
    Ask("0000000200000001", DONE),
    Ask("0000000d00000001000000040000000158", "0000000a"),
];

/// To an emulator with a TPM of two banks: its blobs have version 2, and none of version 1 is taken beside its permanent
/// one.
const OF_TWO_BANKS: [Step; 9] = [
    Ask(INIT, DONE),
    Ask(
        "0000000c000000000000000200000000",
        "00000000000000000000000a0000000a43524256020000000100",
    ),
    Ask(STOP, DONE),
    Ask(
        "0000000d000000000000000100000031435242500200000028\
         00000000000000000000000000000000000000000000000000000000000000000000000000000001",
        DONE,
    ),
    Ask("0000000d00000000000000020000000a43524256010000000100", DONE),
    Ask(INIT, BAD),
    Ask(STOP, DONE),
    Ask(INIT, DONE),
    Ask(
        "0000000c000000000000000300000000",
        "00000000000000000000000a0000000a4352425a020000000100",
    ),
];

/// A TPM whose volatile state was stored isn't powered on, once.
const STORED_ONCE: [Step; 7] = [
    Ask(INIT, DONE),
    Ask(GET_PERMANENT, BOOTED_ONCE),
    Ask(STORE_VOLATILE, DONE),
    Ask(INIT, DONE),
    Ask(GET_PERMANENT, BOOTED_ONCE),
    Ask(INIT, DONE),
    Ask(GET_PERMANENT, BOOTED_TWICE),
];

/// To an emulator without a TPM.
const WITHOUT: [Step; 5] = [
    Ask(INIT, "0000000a"),
    Ask(STORE_VOLATILE, "0000000a"),
    Ask(GET_PERMANENT, "0000000a000000000000000000000000"),
    Ask(
        "0000000c000000000000000400000000",
        "00000003000000000000000000000000",
    ),
    Last("00000010", "0000000a"),
];

/// To an emulator that gives pieces of seven bytes.
const PIECES: [Step; 3] = [
    Ask(
        "0000000c000000000000000200000000",
        "00000000000000000000000a0000000743524256010000",
    ),
    Ask(
        "0000000c000000000000000200000007",
        "00000000000000000000000a00000003000100",
    ),
    Ask(
        "0000000c00000000000000020000000a",
        "00000000000000000000000a00000000",
    ),
];

/// A cancel marks the command that is held, which isn't executed then, and no later one. Off comes before cancelled.
const COMMANDS: [Step; 17] = [
    Give(STARTUP),
    Run(OFF),
    Ask(INIT, DONE),
    Give(STARTUP),
    Ask(CANCEL, DONE),
    Run(CANCELLED),
    Give(GET_RANDOM),
    Run(NOT_STARTED),
    Ask(CANCEL, DONE),
    Give(STARTUP),
    Run(SUCCESS),
    Give(GET_RANDOM),
    Run(NOTHING_DRAWN),
    Give(GET_RANDOM),
    Ask(CANCEL, DONE),
    Ask(STOP, DONE),
    Run(OFF),
];

/// Neither STOP nor a command that was cancelled undoes STORE_VOLATILE; a command that is executed does.
const STORED: [Step; 18] = [
    Ask(INIT, DONE),
    Give(STARTUP),
    Run(SUCCESS),
    Ask(STORE_VOLATILE, DONE),
    Give(GET_RANDOM),
    Ask(CANCEL, DONE),
    Run(CANCELLED),
    Ask(STOP, DONE),
    Ask(INIT, DONE),
    Give(GET_RANDOM),
    Run(NOTHING_DRAWN),
    Ask(STORE_VOLATILE, DONE),
    Give(GET_RANDOM),
    Run(NOTHING_DRAWN),
    Ask(STOP, DONE),
    Ask(INIT, DONE),
    Give(GET_RANDOM),
    Run(NOT_STARTED),
];

/// A TPM that is moved.
const EXTENDING: [Step; 5] = [
    Ask(INIT, DONE),
    Give(STARTUP),
    Run(SUCCESS),
    Give(EXTEND),
    Run(EXTENDED),
];

/// It goes on in another emulator.
const MOVED: [Step; 4] = [
    Ask(INIT, DONE),
    Give(READ),
    Run(ONE_EXTENDED),
    Ask(STOP, DONE),
];

/// Where its volatile state is deleted, power comes to it.
const DELETED: [Step; 3] = [Ask("0000000200000001", DONE), Give(READ), Run(NOT_STARTED)];

/// Whether a request is taken whole in pieces of so many bytes, with no reply before the last.
fn is_taken(emulator: &mut Emulator, size: usize, request: &[u8], out: &mut Out) -> bool
    requires { 0 < size }
{
    for piece in request.chunks(size) {
        if !out.bytes().is_empty() {
            return false;
        }
        out.clear();
        if emulator.control(piece, out).used != piece.len() {
            return false;
        }
    }
    true
}

/// Whether a request in pieces of so many bytes has this reply.
fn asks(alloc: Global, emulator: &mut Emulator, size: usize, request: &str, reply: &str) -> bool
    requires { 0 < size }
{
    let Ok(request) = hex::decode(alloc, request) else {
        return false;
    };
    let Ok(reply) = hex::decode(alloc, reply) else {
        return false;
    };
    let mut out = Out::new();
    is_taken(emulator, size, &request, &mut out) && out.bytes() == reply.as_slice()
}

/// Whether a command is held once its second part came, and takes no more bytes then.
fn is_held(emulator: &mut Emulator, command: &[u8]) -> bool {
    let (prefix, rest) = command.split_at(command.len().min(7));
    let part = emulator.data(prefix);
    if part.used != prefix.len() || part.whole || emulator.holds() {
        return false;
    }
    let whole = emulator.data(rest);
    if whole.used != rest.len() || !whole.whole || !emulator.holds() {
        return false;
    }
    let none = emulator.data(rest);
    none.used == 0 && none.whole
}

/// Whether this command is held.
fn gives(alloc: Global, emulator: &mut Emulator, command: &str) -> bool {
    match hex::decode(alloc, command) {
        Ok(command) => is_held(emulator, &command),
        Err(_) => false,
    }
}

/// Whether the command that is held is answered so, once.
fn is_run(emulator: &mut Emulator, into: &mut Buf, response: &[u8]) -> bool {
    let size = emulator.run_held(into);
    into.bytes().get(..size) == Some(response) && !emulator.holds() && emulator.run_held(into) == 0
}

fn runs(alloc: Global, emulator: &mut Emulator, response: &str) -> bool {
    let Ok(response) = hex::decode(alloc, response) else {
        return false;
    };
    match Buf::new(alloc) {
        Ok(mut into) => is_run(emulator, &mut into, &response),
        Err(AllocError) => false,
    }
}

/// Whether a step goes so, with a request in pieces of so many bytes.
fn goes(alloc: Global, emulator: &mut Emulator, size: usize, step: &Step) -> bool
    requires { 0 < size }
{
    let goes = match step {
        Ask(request, reply) | Last(request, reply) => asks(alloc, emulator, size, request, reply),
        Open => {
            emulator.open_control();
            true
        }
        Give(command) => gives(alloc, emulator, command),
        Run(response) => runs(alloc, emulator, response),
    };
    goes && emulator.is_closed() == matches!(step, Last(..))
}

/// The number of the first step of a table that goes otherwise.
fn first_mismatch(
    alloc: Global,
    emulator: &mut Emulator,
    size: usize,
    steps: &[Step],
) -> Option<usize>
    requires { 0 < size }
{
    for (number, step) in steps.iter().enumerate() {
        if !goes(alloc, emulator, size, step) {
            return Some(number);
        }
    }
    None
}

/// The same with a fresh emulator whose pieces have at most so many bytes.
fn first_mismatch_anew(
    alloc: Global,
    piece: u32,
    size: usize,
    steps: &[Step],
) -> Result<Option<usize>, AllocError>
    requires least { 1 ≤ piece }
    requires most { piece ≤ 4096 }
    requires size { 0 < size }
{
    let mut emulator = Emulator::new(alloc, [0; 32], Banks::One, piece)?;
    Ok(first_mismatch(alloc, &mut emulator, size, steps))
}

/// What is done to fresh emulators.
const TABLES: [&[Step]; 6] = [&FIRST, &WHILE_OFF, &STORED_ONCE, &BLOBS, &COMMANDS, &STORED];

#[test]
fn replies_are_the_same_in_any_chunks(rt: HostRuntime) -> Result<(), Fail> {
    for (number, steps) in TABLES.iter().enumerate() {
        for size in [4112, 1] {
            assert!(rt; size > 0);
            let wrong = first_mismatch_anew(rt.alloc(), 4096, size, steps)?;
            assert_eq!(rt; wrong, None, "table {number}");
        }
    }
    Ok(())
}

#[test]
fn versions_of_two_banks(rt: HostRuntime) -> Result<(), Fail> {
    let mut emulator = Emulator::new(rt.alloc(), [0; 32], Banks::Two, 4096)?;
    let wrong = first_mismatch(rt.alloc(), &mut emulator, 5, &OF_TWO_BANKS);
    assert_eq!(rt; wrong, None);
    Ok(())
}

#[test]
fn pieces_of_seven_bytes(rt: HostRuntime) -> Result<(), Fail> {
    assert_eq!(rt; first_mismatch_anew(rt.alloc(), 7, 3, &PIECES)?, None);
    Ok(())
}

/// Whether an emulator without a TPM closes its channel in the end, and takes nothing then: it stays closed where a
/// part is forgotten.
fn is_closed_without_a_tpm(alloc: Global, emulator: &mut Emulator) -> bool {
    if emulator.tpm().is_some() || first_mismatch(alloc, emulator, 2, &WITHOUT).is_some() {
        return false;
    }
    emulator.forget_request();
    let mut out = Out::new();
    let heard = emulator.control(&[0, 0, 0, 1], &mut out);
    heard.used == 0 && heard.closed && out.bytes().is_empty()
}

#[test]
fn without_a_tpm(rt: HostRuntime) -> Result<(), Fail> {
    let mut emulator = Emulator::empty(rt.alloc(), 4096)?;
    assert!(rt; is_closed_without_a_tpm(rt.alloc(), &mut emulator));
    Ok(())
}

/// Gets a blob of one emulator, and sets it in another; whether that is done.
fn copies(from: &mut Emulator, to: &mut Emulator, kind: u32) -> bool {
    let mut out = Out::new();
    let get = Request::GetStateBlob {
        flags: 0,
        kind,
        offset: 0,
    };
    write_request(&get, &[], &mut out);
    let mut reply = Out::new();
    from.control(out.bytes(), &mut reply);
    let (_, blob) = reply.bytes().split_at(reply.bytes().len().min(16));
    if blob.len() > 4096 {
        return false;
    }
    let set = Request::SetStateBlob {
        flags: 0,
        kind,
        length: blob.len() as u32,
    };
    out.clear();
    write_request(&set, blob, &mut out);
    reply.clear();
    to.control(out.bytes(), &mut reply);
    reply.bytes() == [0, 0, 0, 0].as_slice()
}

fn copies_all(from: &mut Emulator, to: &mut Emulator) -> bool {
    copies(from, to, 1) && copies(from, to, 2) && copies(from, to, 3)
}

/// Whether a TPM that is moved goes on in another emulator, and then without its volatile state.
fn moves(alloc: Global, source: &mut Emulator, target: &mut Emulator) -> bool {
    first_mismatch(alloc, source, 4112, &EXTENDING).is_none()
        && copies_all(source, target)
        && first_mismatch(alloc, target, 4112, &MOVED).is_none()
        && copies_all(source, target)
        && first_mismatch(alloc, target, 4112, &DELETED).is_none()
}

#[test]
fn a_tpm_that_moves(rt: HostRuntime) -> Result<(), Fail> {
    let mut source = Emulator::new(rt.alloc(), [0; 32], Banks::One, 4096)?;
    let mut target = Emulator::empty(rt.alloc(), 4096)?;
    assert!(rt; moves(rt.alloc(), &mut source, &mut target));
    Ok(())
}

/// Whether a part of a request and of a command is forgotten, and a whole command too.
fn forgets(alloc: Global, emulator: &mut Emulator) -> bool {
    let mut out = Out::new();
    let begun = emulator.control(&[0, 0, 0, 2, 0], &mut out).used == 5;
    emulator.forget_request();
    let asked = asks(alloc, emulator, 4112, STOP, DONE);
    let part = emulator.data(&[0x80, 1]).used == 2;
    emulator.forget_command();
    let given = gives(alloc, emulator, STARTUP);
    emulator.forget_command();
    begun && asked && part && given && runs(alloc, emulator, OFF)
}

#[test]
fn forgotten_parts(rt: HostRuntime) -> Result<(), Fail> {
    let mut emulator = Emulator::new(rt.alloc(), [0; 32], Banks::One, 4096)?;
    assert!(rt; forgets(rt.alloc(), &mut emulator));
    Ok(())
}
