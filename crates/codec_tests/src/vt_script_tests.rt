ghost use Rattle.vt_script.specs.Replies.{IsPrintable};

use crb_regs::Access;
use std::alloc::{AllocError, Global};
use std::test::Fail;
use vt_base::{Bytes, Failed, HostName, MemSource, Reason, Source};
use vt_script::*;

// Offset, size and value of the access that a line asks for.
fn access_of(line: &[u8]) -> Option<(u32, u8, Option<u64>)> {
    let Event::Access(access) = parse_line(line)? else {
        return None;
    };
    Some((access.offset(), access.size(), access.write()))
}

// A line, and the offset, size and value of its access.
const ACCESSES: [(&[u8], (u32, u8, Option<u64>)); 15] = [
    (b"r 0 4", (0x0, 4, None)),
    (b"r 30 4", (0x30, 4, None)),
    (b"r 68 8", (0x68, 8, None)),
    (b"r ffc 4", (0xffc, 4, None)),
    (b"r FfF 1", (0xfff, 1, None)),
    (b"r 000 2", (0, 2, None)),
    (b"w 8 4 1", (8, 4, Some(1))),
    (b"w 84 4 c00", (0x84, 4, Some(0xc00))),
    (b"w 88 4 4401", (0x88, 4, Some(0x4401))),
    (b"w 80 1 fF", (0x80, 1, Some(0xff))),
    (b"w 80 1 00", (0x80, 1, Some(0))),
    (
        b"w ff8 8 0123456789aBcDeF",
        (0xff8, 8, Some(0x0123_4567_89ab_cdef)),
    ),
    // At the place of CANCEL.
    (b"w 48 4 1", (0x48, 4, Some(1))),
    (b"w 48 1 0", (0x48, 1, Some(0))),
    (b"w 48 4 2", (0x48, 4, Some(2))),
];

#[test]
fn access_lines_are_parsed(rt: HostRuntime) {
    for (line, wanted) in ACCESSES {
        assert!(rt; access_of(line) == Some(wanted), "at {line:?}");
    }
}

#[test]
fn lines_of_one_word_are_parsed(rt: HostRuntime) {
    assert!(rt; matches!(parse_line(b"work"), Some(Event::Work)));
    assert!(rt; matches!(parse_line(b"reset"), Some(Event::Reset)));
    assert!(rt; matches!(parse_line(b"ask"), Some(Event::Ask)));
    assert!(rt; matches!(parse_line(b"offer"), Some(Event::Offer)));
    assert!(rt; matches!(parse_line(b"giveup"), Some(Event::GiveUp)));
    assert!(rt; matches!(parse_line(b"again"), Some(Event::Again)));
}

// The host and the number of the call that a line orders to fail.
fn injected_fault_of(line: &[u8]) -> Option<(HostName, u32)> {
    let Event::Fail { host, call } = parse_line(line)? else {
        return None;
    };
    Some((host, call))
}

// A line, and the number of the call that is to fail.
const ORDERS: [(&[u8], u32); 4] = [
    (b"fail a 1", 1),
    (b"fail a 10", 10),
    (b"fail a 9999", 9_999),
    (b"fail a 65535", 65_535),
];

#[test]
fn orders(rt: HostRuntime) {
    for (line, call) in ORDERS {
        assert!(rt;
            injected_fault_of(line) == Some((HostName::A, call)),
            "at {line:?}"
        );
    }
}

// The host and the number of the call, where the line names the other host.
#[test]
fn orders_for_the_other_host(rt: HostRuntime) {
    assert!(rt; injected_fault_of(b"fail b 7") == Some((HostName::B, 7)));
}

// The number of the message that a line delivers, and of the one that it shows.
fn message_of(line: &[u8]) -> Option<(bool, u32)> {
    match parse_line(line)? {
        Event::Deliver(message) => Some((true, message)),
        Event::Show(message) => Some((false, message)),
        _ => None,
    }
}

// A line, whether it delivers its message or shows it, and the number of the message.
const MESSAGES: [(&[u8], (bool, u32)); 4] = [
    (b"deliver 1", (true, 1)),
    (b"deliver 65535", (true, 65_535)),
    (b"show 1", (false, 1)),
    (b"show 16384", (false, 16_384)),
];

#[test]
fn messages(rt: HostRuntime) {
    for (line, wanted) in MESSAGES {
        assert!(rt; message_of(line) == Some(wanted), "at {line:?}");
    }
}

// Lines that are none of the grammar.
const NO_EVENTS: [&[u8]; 67] = [
    b"",
    b" ",
    b"work ",
    b" work",
    b"work 1",
    b"Work",
    b"work\r",
    b"ask ",
    b"Ask",
    b"fail",
    b"fail a",
    b"fail a ",
    b"fail a 0",
    b"fail a 01",
    b"fail a 65536",
    b"fail a 100000",
    b"fail a a",
    b"fail a -1",
    b"fail a 1 ",
    b"fail a 1 1",
    b"fail  a 1",
    b"fail c 1",
    b"fail A 1",
    b"fail B 1",
    b"offer ",
    b"offer 1",
    b"giveup 1",
    b"give up",
    b"again ",
    b"deliver",
    b"deliver 0",
    b"deliver 01",
    b"deliver 65536",
    b"deliver 1 1",
    b"show",
    b"reset ",
    b" reset",
    b"reset 1",
    b"Reset",
    b"RESET",
    b"r",
    b"r 0",
    b"r 0 ",
    b"r 0 4 ",
    b"r 0 4 1",
    b"r  0 4",
    b"r\t0 4",
    b"R 0 4",
    b"r 0000 1",
    b"r  1",
    b"r g 1",
    b"r 0x1 1",
    b"r +1 1",
    b"r 0 3",
    b"r 0 04",
    b"r 0 16",
    b"r ffd 4",
    b"r fff 2",
    b"w 8 4",
    b"w 8 4 ",
    b"w 8 4 1 ",
    b"w 8 4 1 1",
    b"w 80 1 100",
    b"w 80 1 001",
    b"w 80 8 00123456789abcdef",
    b"w ffd 4 1",
    // A drive line is none of these.
    b"cmd 80010000000a00000144",
];

#[test]
fn not_in_the_grammar(rt: HostRuntime) {
    for line in NO_EVENTS {
        assert!(rt; parse_line(line).is_none(), "at {line:?}");
    }
}

// A source that gives at most one byte a read.
#[derive(Drop)]
struct OneByOne<S> {
    inner: S,
}

impl<S: Source> Source for OneByOne<S> {
    ghost left = { λ s. S.left s.inner };

    ghost faults = { λ s. S.faults s.inner };

    ghost never_fails = { λ s. S.never_fails s.inner };

    fn read(&mut self, into: &mut [u8]) -> Result<usize, Failed> {
        if into.is_empty() {
            return self.inner.read(into);
        }
        self.inner.read(&mut into[..1])
    }
}

// A source of a text, one byte a read, of which some fail.
fn source_of(
    alloc: Global,
    text: &[u8],
    failing: &[u64],
) -> Result<OneByOne<MemSource>, AllocError> {
    let bytes = Bytes::from_slice(alloc, text)?;
    let inner = MemSource::new(bytes, Vec::from_slice(alloc, failing)?);
    Ok(OneByOne { inner })
}

// Whether these lines come next, and then something else.
fn gives<S: Source>(
    alloc: Global,
    lines: &mut Lines,
    source: &mut S,
    wanted: &[&[u8]],
    then: Next,
) -> Result<bool, AllocError> {
    for line in wanted {
        if lines.next(alloc, source)? != Next::Line || lines.line() != *line {
            return Ok(false);
        }
    }
    Ok(lines.next(alloc, source)? == then)
}

/// A text and its lines.
type Text = (&'static [u8], &'static [&'static [u8]]);

static TEXTS_OF_LINES: [Text; 4] = [
    (b"", &[]),
    (b"\n", &[b""]),
    (b"work\n", &[b"work"]),
    (b"r 0 4\n\n work\nlast", &[b"r 0 4", b"", b" work", b"last"]),
];

// Whether a text has its lines, however few bytes a read gives.
fn has_lines(alloc: Global, text: &Text) -> Result<bool, AllocError> {
    let mut source = source_of(alloc, text.0, &[])?;
    let mut lines = Lines::new(alloc)?;
    gives(alloc, &mut lines, &mut source, text.1, Next::End)
}

#[test]
fn lines_of_texts(rt: HostRuntime) -> Result<(), Fail> {
    for (i, text) in TEXTS_OF_LINES.iter().enumerate() {
        assert!(rt; has_lines(rt.alloc(), text)?, "text {i}");
    }
    Ok(())
}

#[test]
fn lines_before_a_fault(rt: HostRuntime) -> Result<(), Fail> {
    let alloc = rt.alloc();
    // The tenth read would give the fourth byte of the third line.
    let mut source = source_of(alloc, b"ab\ncd\nefgh\n", &[10])?;
    let mut lines = Lines::new(alloc)?;
    assert!(rt;
        gives(
            alloc,
            &mut lines,
            &mut source,
            &[b"ab", b"cd"],
            Next::ReadFault
        )?
    );
    // The bytes before the fault are still there.
    assert!(rt; gives(alloc, &mut lines, &mut source, &[b"efgh"], Next::End)?);
    assert!(rt; lines.number() == 3);
    Ok(())
}

#[test]
fn a_line_waits_in_the_buffer(rt: HostRuntime) -> Result<(), Fail> {
    let alloc = rt.alloc();
    let bytes = Bytes::from_slice(alloc, b"a\nb\nc")?;
    let mut source = MemSource::new(bytes, Vec::new(alloc));
    let mut lines = Lines::new(alloc)?;
    let first = lines.next(alloc, &mut source)?;
    assert!(rt; first == Next::Line && lines.has_line());
    let second = lines.next(alloc, &mut source)?;
    assert!(rt; second == Next::Line && !lines.has_line());
    Ok(())
}

// Whether a line of so many bytes, without an end, gives this.
fn gives_at_length(alloc: Global, length: usize, then: Next) -> Result<bool, AllocError> {
    let text = vec![in alloc; b'x'; length]?;
    let mut source = source_of(alloc, &text, &[])?;
    let mut lines = Lines::new(alloc)?;
    Ok(lines.next(alloc, &mut source)? == then)
}

#[test]
fn long_lines(rt: HostRuntime) -> Result<(), Fail> {
    assert!(rt; gives_at_length(rt.alloc(), 8256, Next::Line)?);
    assert!(rt; gives_at_length(rt.alloc(), 8257, Next::TooLong(1))?);
    Ok(())
}

fn prints(alloc: Global, reply: Reply, text: &[u8]) -> Result<bool, AllocError>
    requires { IsPrintable reply }
{
    let mut printed = Vec::new(alloc);
    print_reply(alloc, &reply, &mut printed)?;
    Ok(printed.as_slice() == text)
}

// A value, how many bytes were read of it, and its text.
const VALUES: [(u64, u8, &[u8]); 6] = [
    (0x81, 4, b"00000081\n"),
    (0xfed4_0080, 8, b"00000000fed40080\n"),
    (0xffff_ffff, 4, b"ffffffff\n"),
    (0x9a, 1, b"9a\n"),
    (0xbe0, 2, b"0be0\n"),
    (0x0123_4567_89ab_cdef, 8, b"0123456789abcdef\n"),
];

// Whether a value that an access can have is printed so.
fn prints_value(alloc: Global, value: u64, size: u8, text: &[u8]) -> Result<bool, AllocError> {
    if Access::new(0, size, Some(value)).is_none() {
        return Ok(false);
    }
    prints(alloc, Reply::Value { value, size }, text)
}

#[test]
fn values_are_printed_in_hexadecimal(rt: HostRuntime) -> Result<(), Fail> {
    for (value, size, text) in VALUES {
        assert!(rt; prints_value(rt.alloc(), value, size, text)?, "{text:?}");
    }
    Ok(())
}

// A reply that is no value, and its text.
const TEXTS: [(Reply, &[u8]); 32] = [
    (Reply::Stopped, b"stopped\n"),
    (Reply::Accepted, b"ok\n"),
    (Reply::Idle, b"idle\n"),
    (Reply::Claim(1), b"claim 1\n"),
    (Reply::Sent(10), b"sent 10\n"),
    (Reply::Exec(0), b"exec 0\n"),
    (Reply::Done(999_999), b"done 999999\n"),
    (
        Reply::Cancelled(u64::MAX),
        b"cancelled 18446744073709551615\n",
    ),
    (Reply::Lost(7), b"lost 7\n"),
    (Reply::Link, b"link\n"),
    (Reply::Asked, b"asked\n"),
    (Reply::FailedDevice, b"failed device\n"),
    (Reply::NotYet, b"not yet\n"),
    (Reply::Reset, b"reset\n"),
    (Reply::EpochEnd, b"epoch end\n"),
    (
        Reply::Offered {
            epoch: 2,
            message: 12,
        },
        b"offered 2 sent 12\n",
    ),
    (Reply::Draining(3), b"draining 3\n"),
    (
        Reply::DoneOffered {
            number: 1,
            epoch: 2,
            message: 12,
        },
        b"done 1 offered 2 sent 12\n",
    ),
    (Reply::DoneLink(4), b"done 4 link\n"),
    (
        Reply::CancelledOffered {
            number: 5,
            epoch: 1,
            message: 0,
        },
        b"cancelled 5 offered 1 sent 0\n",
    ),
    (Reply::CancelledLink(6), b"cancelled 6 link\n"),
    (Reply::NoMessage, b"no message\n"),
    (Reply::Ignored, b"ignored\n"),
    (Reply::Took, b"took\n"),
    (Reply::SentMessage(0), b"sent 0\n"),
    (Reply::Running, b"running\n"),
    (Reply::Resumed, b"resumed\n"),
    (
        Reply::RefusedSent {
            reason: Reason::Link,
            message: 2,
        },
        b"refused link sent 2\n",
    ),
    (
        Reply::RefusedSent {
            reason: Reason::Totals,
            message: 65_535,
        },
        b"refused totals sent 65535\n",
    ),
    (Reply::NotOffering, b"not offering\n"),
    (Reply::ResumedSent(11), b"resumed sent 11\n"),
    (Reply::NotPrepared, b"not prepared\n"),
];

// Whether a reply that is no value is printed so.
fn prints_text(alloc: Global, reply: Reply, text: &[u8]) -> Result<bool, AllocError> {
    match reply {
        Reply::Value { .. } => Ok(false),
        _ => prints(alloc, reply, text),
    }
}

#[test]
fn each_reply_has_its_text(rt: HostRuntime) -> Result<(), Fail> {
    for (reply, text) in TEXTS {
        assert!(rt; prints_text(rt.alloc(), reply, text)?, "{text:?}");
    }
    Ok(())
}

// A message that is shown.
#[test]
fn shown(rt: HostRuntime) -> Result<(), Fail> {
    let alloc = rt.alloc();
    let bytes = Bytes::from_slice(alloc, b"CRBM\x01\xff")?;
    assert!(rt; prints_text(alloc, Reply::Shown(bytes), b"4352424d01ff\n")?);
    Ok(())
}

// The command that a line asks for.
fn command_of(alloc: Global, line: &[u8]) -> Result<Option<Bytes>, AllocError> {
    match parse_drive(alloc, line)? {
        Some(DriveLine::Cmd(command)) => Ok(Some(command)),
        _ => Ok(None),
    }
}

// A line, and its command.
const COMMANDS: [(&[u8], &[u8]); 3] = [
    (
        b"cmd 80010000000c000001440000",
        b"\x80\x01\x00\x00\x00\x0c\x00\x00\x01\x44\x00\x00",
    ),
    // The shortest command, and digits of both cases.
    (
        b"cmd 80010000000a0000abCD",
        b"\x80\x01\x00\x00\x00\x0a\x00\x00\xab\xcd",
    ),
    // Only its size is looked at.
    (
        b"cmd FFff0000000AFFFFffff",
        b"\xff\xff\x00\x00\x00\x0a\xff\xff\xff\xff",
    ),
];

#[test]
fn cmd_lines_are_parsed(rt: HostRuntime) -> Result<(), Fail> {
    let alloc = rt.alloc();
    for (line, wanted) in COMMANDS {
        let command = command_of(alloc, line)?;
        assert!(rt;
            command.is_some_and(|bytes| bytes.as_slice() == wanted),
            "at {line:?}"
        );
    }
    Ok(())
}

// A line that moves, and the message that is lost, where one is.
const MOVES: [(&[u8], Option<u32>); 5] = [
    (b"move", None),
    (b"movefail 1", Some(1)),
    (b"movefail 12", Some(12)),
    (b"movefail 9999", Some(9_999)),
    (b"movefail 65535", Some(65_535)),
];

// Whether a line asks for a move in which this message is lost.
fn moves(alloc: Global, line: &[u8], lost: Option<u32>) -> Result<bool, AllocError> {
    match parse_drive(alloc, line)? {
        Some(DriveLine::Move) => Ok(lost.is_none()),
        Some(DriveLine::MoveFail(message)) => Ok(lost == Some(message)),
        _ => Ok(false),
    }
}

#[test]
fn moving_lines(rt: HostRuntime) -> Result<(), Fail> {
    for (line, lost) in MOVES {
        assert!(rt; moves(rt.alloc(), line, lost)?, "at {line:?}");
    }
    Ok(())
}

// Lines that are none of `drive`.
const NO_DRIVE_LINES: [&[u8]; 37] = [
    b"Move",
    b"move ",
    b" move",
    b"move 1",
    b"movefail",
    b"movefail ",
    b"movefail 0",
    b"movefail 01",
    b"movefail +1",
    b"movefail 1 ",
    b"movefail 1 1",
    b"movefail a 1",
    b"movefail 65536",
    b"movefail ffff",
    b"",
    b" ",
    b"cmd",
    b"cmd ",
    b"80010000000a00000144",
    b"CMD 80010000000a00000144",
    b"cmd80010000000a00000144",
    b" cmd 80010000000a00000144",
    b"cmd  80010000000a00000144",
    b"cmd\t80010000000a00000144",
    b"cmd 80010000000a00000144 ",
    b"cmd 80010000000a00000144\r",
    b"cmd 80010000000a 00000144",
    b"cmd 0x80010000000a00000144",
    b"cmd 8001000000ga00000144",
    // An odd number of digits.
    b"cmd 80010000000a0000014",
    b"cmd 80010000000a000001440",
    // Nine bytes.
    b"cmd 800100000009000001",
    // Another number in the size field: one less, one more, too much by its highest byte, the lowest byte first.
    b"cmd 80010000000900000144",
    b"cmd 80010000000b00000144",
    b"cmd 80010100000a00000144",
    b"cmd 80010a00000000000144",
    b"work",
];

#[test]
fn no_drive_lines(rt: HostRuntime) -> Result<(), Fail> {
    let alloc = rt.alloc();
    for line in NO_DRIVE_LINES {
        assert!(rt; parse_drive(alloc, line)?.is_none(), "at {line:?}");
    }
    Ok(())
}

// The line of a command of so many bytes, at least six, which are zeros but for the size field.
fn line_of_zeros(alloc: Global, count: u32) -> Result<String, AllocError> {
    let mut line = format!(in alloc; "cmd 0000{count:08x}")?;
    for _ in 6..count {
        line.push_str("00")?;
    }
    Ok(line)
}

#[test]
fn long_commands(rt: HostRuntime) -> Result<(), Fail> {
    let alloc = rt.alloc();
    for (count, is_taken) in [
        (10, true),
        (3967, true),
        (3968, true),
        (3969, false),
        (4096, false),
    ] {
        let line = line_of_zeros(alloc, count)?;
        let command = command_of(alloc, line.as_bytes())?;
        let taken = command.is_some_and(|bytes| bytes.as_slice().len() == count as usize);
        assert!(rt; taken == is_taken, "at {count}");
    }
    Ok(())
}

// Whether three responses are printed one behind another.
fn prints_responses(alloc: Global, printed: &mut Vec<u8>) -> Result<bool, AllocError> {
    print_response(alloc, b"\x80\x01\x00\x00\x00\x0a\x00\x00\x01\xef", printed)?;
    print_response(alloc, b"", printed)?;
    print_response(alloc, b"\xff", printed)?;
    Ok(printed.as_slice() == b"80010000000a000001ef\n\nff\n".as_slice())
}

#[test]
fn responses(rt: HostRuntime) -> Result<(), Fail> {
    let mut printed = Vec::new(rt.alloc());
    assert!(rt; prints_responses(rt.alloc(), &mut printed)?);
    Ok(())
}
