//! Runs in which a guest moves: what is written, and which host it runs at in the end.
ghost use Rattle.std.specs.Prelude.{◌≤◌};

use bulk_lines::BulkLines;
use crb_port::PlainPort;
use script_run::{End, run};
use sha2::{Digest, Sha256};
use std::alloc::{AllocError, Global};
use std::process::Abort;
use std::test::*;
use vt_base::{Bytes, HostName, MemSink, MemSource};
use vt_script::{DriveLine, print_response};
use vt_world::{Pair, World};

/// How many commands a session has.
const COMMANDS: usize = 200;

/// The most bytes that are written for a session.
const ROOM: usize = 100_000;

/// The messages of which one is lost, each in turn. A move has eleven, so those behind the eleventh are none.
const MESSAGES: usize = 40;

const STARTUP: &[u8] = b"cmd 80010000000c000001440000\n";

/// GetRandom of 16 bytes.
const RANDOM: &[u8] = b"cmd 80010000000c0000017b0010\n";

/// PCR_Read of PCR 0 to 7.
const READ: &[u8] = b"cmd 8001000000140000017e00000001000b03ff0000\n";

/// PCR_Extend, up to the last digit of the register's number, and what follows that digit.
const EXTEND: &[u8] = b"cmd 800200000041000001820000000";

const BY_DIGEST: &[u8] = b"0000000940000009000001000000000001000b\
c3bf47ea1f4a4a605470313cacb3a44f4a461f68c6faeab07e737610cb5ac835\n";

/// The last digits of the registers that are extended.
const DIGITS: &[u8; 11] = b"0123456789a";

/// The SHA-256 of what is written for the session's commands.
const SESSION_DIGEST: &str = "0852d649e43d03e2e6b12ac8587c23ce0f5e912c2ce407f85fe32ff60c16b382";

/// How many lines of `bulk` are drawn behind the first.
const DRAWN: u32 = 50;

/// The SHA-256 of what is written for the lines of `bulk 7 50`.
const BULK_DIGEST: &str = "d22d0050cf1f55caa5eeec54fb39d54fe40df1c675ff84da3204e4f2017e416f";

/// Lines, the host at which the guest runs after them, and the greatest epoch that A and B have seen.
type Placed = (&'static [u8], HostName, u64, u64);

/// A move has eleven messages: an Offer, four times Need and Piece, Prepared and Commit.
const PLACES: [Placed; 8] = [
    (b"", HostName::A, 0, 0),
    (b"move\n", HostName::B, 1, 1),
    (b"move\nmove\n", HostName::A, 2, 2),
    (b"movefail 1\n", HostName::A, 1, 0),
    (b"movefail 2\n", HostName::A, 1, 1),
    (b"movefail 10\n", HostName::A, 1, 1),
    (b"movefail 11\n", HostName::B, 1, 1),
    (b"movefail 12\nmovefail 1\n", HostName::B, 1, 2),
];

/// Lines of `replay`, the host whose guest runs after them, and the greatest epoch that A and B have seen.
type Led = (&'static [u8], Option<HostName>, u64, u64);

/// The whole move of a guest after a reset.
const WHOLE_MOVE: &[u8] =
    b"offer\ndeliver 1\ndeliver 2\ndeliver 3\ndeliver 4\ndeliver 5\ndeliver 6\n\
deliver 7\ndeliver 8\ndeliver 9\ndeliver 10\ndeliver 11\n";

/// The messages of the move of a guest whose command waits, in pieces of one byte: the parts have 33, 49, 10 and 10 bytes.
const SMALL_MESSAGES: usize = 207;

/// A guest starts TPM2_Startup(CLEAR) and is offered.
const STARTED: &[u8] = b"w 8 4 1\nw 40 4 1\nw 80 4 180\nw 84 4 c00\nw 88 4 4401\nw 4c 4 1\noffer\n";

/// What is written for these lines.
const OFFERED: &[u8] = b"ok\nok\nok\nok\nok\nok\noffered 1 sent 1\n";

/// The command is done where the guest goes on.
const FINISHED: &[u8] = b"work\nwork\nwork\nwork\nr 88 4\n";

const FINISHED_REPLIES: &[u8] = b"running\nclaim 1\nsent 1\nexec 1\ndone 1\n00000000\n";

const WORLDS: [Led; 5] = [
    (b"", Some(HostName::A), 0, 0),
    (b"offer\n", None, 1, 0),
    (b"offer\ndeliver 1\n", None, 1, 1),
    (b"offer\ndeliver 1\ngiveup\n", Some(HostName::A), 1, 1),
    (WHOLE_MOVE, Some(HostName::B), 1, 1),
];

// Appends a command of the session.
fn push_command(number: usize, into: &mut Vec<u8>) -> Result<(), AllocError> {
    if number == 0 {
        return into.extend_from_slice(STARTUP);
    }
    match number % 4 {
        0 => into.extend_from_slice(READ),
        1 => into.extend_from_slice(RANDOM),
        _ => {
            into.extend_from_slice(EXTEND)?;
            into.push(DIGITS[number % 11])?;
            into.extend_from_slice(BY_DIGEST)
        }
    }
}

// Appends the line of a move that loses this message.
fn push_lossy_move(alloc: Global, message: usize, into: &mut Vec<u8>) -> Result<(), AllocError> {
    let line = format!(in alloc; "movefail {message}\n")?;
    into.extend_from_slice(line.as_bytes())
}

// The commands of the session alone.
fn session(alloc: Global) -> Result<Vec<u8>, AllocError> {
    let mut script = Vec::new(alloc);
    for number in 0..COMMANDS {
        push_command(number, &mut script)?;
    }
    Ok(script)
}

// The session with a move behind each command, which loses one message.
fn lossy_session(alloc: Global) -> Result<Vec<u8>, AllocError> {
    let mut script = Vec::new(alloc);
    for number in 0..COMMANDS {
        push_command(number, &mut script)?;
        push_lossy_move(alloc, 1 + number % MESSAGES, &mut script)?;
    }
    Ok(script)
}

// Appends the text of a drive line.
fn push_line(alloc: Global, line: &DriveLine, into: &mut Vec<u8>) -> Result<(), AllocError> {
    match line {
        DriveLine::Cmd(command) => {
            into.extend_from_slice(b"cmd ")?;
            print_response(alloc, command.as_slice(), into)
        }
        DriveLine::Move => into.extend_from_slice(b"move\n"),
        DriveLine::MoveFail(message) => push_lossy_move(alloc, *message as usize, into),
    }
}

// So many lines of `bulk` as a script.
fn bulk_script(alloc: Global, mut lines: BulkLines) -> Result<Vec<u8>, AllocError> {
    let mut script = Vec::new(alloc);
    for _ in 0..=DRAWN {
        if let Some(line) = lines.next(alloc)? {
            push_line(alloc, &line, &mut script)?;
        }
    }
    Ok(script)
}

// The script of a move in pieces of one byte.
fn small_pieces(alloc: Global) -> Result<Vec<u8>, AllocError> {
    let mut script = Vec::new(alloc);
    script.extend_from_slice(STARTED)?;
    for message in 1..=SMALL_MESSAGES {
        let line = format!(in alloc; "deliver {message}\n")?;
        script.extend_from_slice(line.as_bytes())?;
    }
    script.extend_from_slice(FINISHED)?;
    Ok(script)
}

// What is written for it.
fn small_replies(alloc: Global) -> Result<Vec<u8>, AllocError> {
    let mut replies = Vec::new(alloc);
    replies.extend_from_slice(OFFERED)?;
    for message in 2..=SMALL_MESSAGES {
        let line = format!(in alloc; "sent {message}\n")?;
        replies.extend_from_slice(line.as_bytes())?;
    }
    replies.extend_from_slice(FINISHED_REPLIES)?;
    Ok(replies)
}

// What a command hands out for a script.
fn end_of(alloc: Global, word: &str, script: &[u8], sink: &mut MemSink) -> Result<End, AllocError> {
    let mut words = Vec::new(alloc);
    words.push(String::from_str(alloc, word)?)?;
    let mut source = MemSource::new(Bytes::from_slice(alloc, script)?, Vec::new(alloc));
    Ok(run(alloc, &words, &mut source, sink).end)
}

// The SHA-256 of what `drive` writes for a script, in hexadecimal.
fn digest(alloc: Global, script: &[u8]) -> Result<String, AllocError> {
    let mut sink = MemSink::new(alloc, ROOM, Vec::new(alloc))?;
    drop(end_of(alloc, "drive", script, &mut sink)?);
    hex::encode(alloc, Sha256::digest(sink.bytes()))
}

// Whether a pair is placed so.
fn is_placed(pair: &Pair<PlainPort>, placed: &Placed) -> bool {
    let (_, running, top_a, top_b) = placed;
    pair.running() == Some(*running)
        && pair.host(HostName::A).top() == *top_a
        && pair.host(HostName::B).top() == *top_b
}

// Whether the hosts that `drive` hands out are placed so.
fn leads_there(alloc: Global, placed: &Placed) -> Result<bool, AllocError> {
    let mut sink = MemSink::new(alloc, ROOM, Vec::new(alloc))?;
    match end_of(alloc, "drive", placed.0, &mut sink)? {
        End::Pair(pair) => {
            let there = is_placed(&pair, placed);
            drop(pair);
            Ok(there)
        }
        other => {
            drop(other);
            Ok(false)
        }
    }
}

// Whether a world is led there.
fn is_led(world: &World, led: &Led) -> bool {
    let (_, running, top_a, top_b) = led;
    world.running() == *running
        && world.host(HostName::A).top() == *top_a
        && world.host(HostName::B).top() == *top_b
}

// Whether the world that `replay` hands out is led there.
fn is_handed_out(alloc: Global, led: &Led) -> Result<bool, AllocError> {
    let mut sink = MemSink::new(alloc, ROOM, Vec::new(alloc))?;
    match end_of(alloc, "replay", led.0, &mut sink)? {
        End::World(world) => {
            let there = is_led(&world, led);
            drop(world);
            Ok(there)
        }
        other => {
            drop(other);
            Ok(false)
        }
    }
}

#[test]
fn lost_messages_change_no_response(rt: HostRuntime) -> Result<(), Fail> {
    let plain = digest(rt.alloc(), &session(rt.alloc())?)?;
    assert_eq!(rt; plain.as_str(), SESSION_DIGEST);
    let lossy = digest(rt.alloc(), &lossy_session(rt.alloc())?)?;
    assert_eq!(rt; lossy.as_str(), SESSION_DIGEST);
    Ok(())
}

#[test]
fn moves_lead_to_their_hosts(rt: HostRuntime) -> Result<(), Fail> {
    for (i, placed) in PLACES.iter().enumerate() {
        assert!(rt; leads_there(rt.alloc(), placed)?, "place {i}");
    }
    Ok(())
}

#[test]
fn deliveries_lead_to_their_hosts(rt: HostRuntime) -> Result<(), Fail> {
    for (i, led) in WORLDS.iter().enumerate() {
        assert!(rt; is_handed_out(rt.alloc(), led)?, "world {i}");
    }
    Ok(())
}

#[test]
fn a_guest_moves_byte_by_byte(rt: HostRuntime) -> Result<(), Fail> {
    let alloc = rt.alloc();
    let mut words = Vec::new(alloc);
    words.push(String::from_str(alloc, "replay")?)?;
    words.push(String::from_str(alloc, "--piece=1")?)?;
    let script = small_pieces(alloc)?;
    let mut source = MemSource::new(Bytes::from_slice(alloc, &script)?, Vec::new(alloc));
    let mut sink = MemSink::new(alloc, ROOM, Vec::new(alloc))?;
    drop(run(alloc, &words, &mut source, &mut sink));
    assert!(rt; sink.bytes() == small_replies(alloc)?.as_slice());
    Ok(())
}

#[test]
fn bulk_sums_up_what_drive_writes(rt: HostRuntime) -> Result<(), Fail> {
    let script = bulk_script(rt.alloc(), BulkLines::new(7, DRAWN))?;
    let driven = digest(rt.alloc(), &script)?;
    assert_eq!(rt; driven.as_str(), BULK_DIGEST);
    Ok(())
}
