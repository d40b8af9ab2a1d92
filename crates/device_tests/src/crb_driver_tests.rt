use crb_driver::*;
use crb_regs::Access;
use std::test::*;

/// An access that was made: place, size and value.
#[derive(Clone, Copy, Debug, PartialEq, Eq)]
enum RecordedAccess {
    Read(u32, u8, u64),
    Write(u32, u8, u64),
}

const MOST: usize = 64;

/// A bus in memory: reads give the values of a script, and each access is recorded.
#[derive(Drop)]
struct ScriptedBus<'a> {
    script: &'a [u64],
    made: [RecordedAccess; MOST],
    count: usize,
}

impl<'a> ScriptedBus<'a> {
    fn new(script: &'a [u64]) -> Self {
        ScriptedBus {
            script,
            made: [RecordedAccess::Read(0, 0, 0); MOST],
            count: 0,
        }
    }

    fn record(&mut self, made: RecordedAccess) {
        if self.count < MOST {
            self.made[self.count] = made;
            self.count += 1;
        }
    }

    // Whether these parts, one after another, are all that was made.
    fn has_recorded(&self, parts: &[&[RecordedAccess]]) -> bool {
        let mut all = self.made.iter().take(self.count);
        for part in parts {
            for made in *part {
                if all.next() != Some(made) {
                    return false;
                }
            }
        }
        all.next().is_none()
    }
}

impl<'a> Bus for ScriptedBus<'a> {
    ghost use Rattle.std.specs.Prelude.{⊤};

    ghost ready = { λ _. ⊤ };

    ghost step = { λ _ _ _ _. ⊤ };

    fn read(&mut self, a: &Access) -> u64 {
        let mut value = 0;
        if let Some((first, rest)) = self.script.split_first() {
            value = *first;
            self.script = rest;
        }
        let value = match a.size() {
            1 => value % 0x100,
            2 => value % 0x1_0000,
            4 => value % 0x1_0000_0000,
            _ => value,
        };
        self.record(RecordedAccess::Read(a.offset(), a.size(), value));
        value
    }

    fn write(&mut self, a: &Access) {
        self.record(RecordedAccess::Write(a.offset(), a.size(), a.write().unwrap_or(0)));
    }
}

/// TPM2_Startup(CLEAR).
const STARTUP: [u8; 12] = [0x80, 0x01, 0, 0, 0, 0x0C, 0, 0, 0x01, 0x44, 0, 0];

/// The accesses of a start of that command where LOC_STS reads 0x101 and CTRL_STS reads 4.
const STARTED: [RecordedAccess; 18] = [
    RecordedAccess::Write(0x08, 4, 1),
    RecordedAccess::Read(0x0C, 4, 0x101),
    RecordedAccess::Write(0x40, 4, 1),
    RecordedAccess::Read(0x44, 4, 4),
    RecordedAccess::Write(0x48, 4, 0),
    RecordedAccess::Write(0x80, 1, 0x80),
    RecordedAccess::Write(0x81, 1, 0x01),
    RecordedAccess::Write(0x82, 1, 0),
    RecordedAccess::Write(0x83, 1, 0),
    RecordedAccess::Write(0x84, 1, 0),
    RecordedAccess::Write(0x85, 1, 0x0C),
    RecordedAccess::Write(0x86, 1, 0),
    RecordedAccess::Write(0x87, 1, 0),
    RecordedAccess::Write(0x88, 1, 0x01),
    RecordedAccess::Write(0x89, 1, 0x44),
    RecordedAccess::Write(0x8A, 1, 0),
    RecordedAccess::Write(0x8B, 1, 0),
    RecordedAccess::Write(0x4C, 4, 1),
];

/// The accesses of a finish where CTRL_STS reads 2 and the response is ten bytes.
const FINISHED: [RecordedAccess; 17] = [
    RecordedAccess::Read(0x44, 4, 2),
    RecordedAccess::Read(0x82, 1, 0),
    RecordedAccess::Read(0x83, 1, 0),
    RecordedAccess::Read(0x84, 1, 0),
    RecordedAccess::Read(0x85, 1, 0x0A),
    RecordedAccess::Read(0x80, 1, 0x80),
    RecordedAccess::Read(0x81, 1, 0x01),
    RecordedAccess::Read(0x82, 1, 0),
    RecordedAccess::Read(0x83, 1, 0),
    RecordedAccess::Read(0x84, 1, 0),
    RecordedAccess::Read(0x85, 1, 0x0A),
    RecordedAccess::Read(0x86, 1, 0),
    RecordedAccess::Read(0x87, 1, 0),
    RecordedAccess::Read(0x88, 1, 0x01),
    RecordedAccess::Read(0x89, 1, 0x25),
    RecordedAccess::Write(0x40, 4, 2),
    RecordedAccess::Write(0x08, 4, 2),
];

/// The reads of START where the third shows the end.
const POLLED: [RecordedAccess; 3] = [
    RecordedAccess::Read(0x4C, 4, 1),
    RecordedAccess::Read(0x4C, 4, 0x100),
    RecordedAccess::Read(0x4C, 4, 0),
];

/// Access isn't granted.
const REFUSED: [RecordedAccess; 2] = [
    RecordedAccess::Write(0x08, 4, 1),
    RecordedAccess::Read(0x0C, 4, 0x100),
];

/// The interface stays idle.
const IDLE: [RecordedAccess; 4] = [
    RecordedAccess::Write(0x08, 4, 1),
    RecordedAccess::Read(0x0C, 4, 1),
    RecordedAccess::Write(0x40, 4, 1),
    RecordedAccess::Read(0x44, 4, 0x82),
];

const BUSY: [RecordedAccess; 2] = [
    RecordedAccess::Read(0x4C, 4, 1),
    RecordedAccess::Read(0x4C, 4, 3),
];

const LOST: [RecordedAccess; 2] = [
    RecordedAccess::Read(0x4C, 4, 0),
    RecordedAccess::Read(0x44, 4, 0x81),
];

/// An end without a fault, and the size of the response but for its last byte.
const SMALL: [RecordedAccess; 5] = [
    RecordedAccess::Read(0x4C, 4, 0),
    RecordedAccess::Read(0x44, 4, 0),
    RecordedAccess::Read(0x82, 1, 0),
    RecordedAccess::Read(0x83, 1, 0),
    RecordedAccess::Read(0x84, 1, 0),
];

const OF_9: [RecordedAccess; 1] = [RecordedAccess::Read(0x85, 1, 9)];

const OF_13: [RecordedAccess; 1] = [RecordedAccess::Read(0x85, 1, 13)];

/// A response of 0xFFFF_FFFE bytes.
const HUGE: [RecordedAccess; 6] = [
    RecordedAccess::Read(0x4C, 4, 0),
    RecordedAccess::Read(0x44, 4, 0),
    RecordedAccess::Read(0x82, 1, 0xFF),
    RecordedAccess::Read(0x83, 1, 0xFF),
    RecordedAccess::Read(0x84, 1, 0xFF),
    RecordedAccess::Read(0x85, 1, 0xFE),
];

/// One whole call: how often START is read at most, what the bus reads, what it answers, and the accesses.
#[derive(Clone, Copy)]
struct Case {
    name: &'static str,
    polls: u32,
    script: &'static [u64],
    answer: Result<usize, DriverFault>,
    made: &'static [&'static [RecordedAccess]],
}

/// Calls with the start as their command.
const CALLS: [Case; 9] = [
    Case {
        name: "a response",
        polls: 3,
        script: &[
            0x101, 4, 1, 0x100, 0, 2, 0, 0, 0, 0x0A, 0x80, 0x01, 0, 0, 0, 0x0A, 0, 0, 0x01, 0x25,
        ],
        answer: Ok(10),
        made: &[&STARTED, &POLLED, &FINISHED],
    },
    Case {
        name: "no access",
        polls: 3,
        script: &[0x100],
        answer: Err(DriverFault::NotGranted(0x100)),
        made: &[&REFUSED],
    },
    Case {
        name: "idle",
        polls: 3,
        script: &[1, 0x82],
        answer: Err(DriverFault::NotReady(0x82)),
        made: &[&IDLE],
    },
    Case {
        name: "busy",
        polls: 2,
        script: &[0x101, 4, 1, 3, 0],
        answer: Err(DriverFault::TimedOut(2)),
        made: &[&STARTED, &BUSY],
    },
    Case {
        name: "no poll",
        polls: 0,
        script: &[0x101, 4, 0],
        answer: Err(DriverFault::TimedOut(0)),
        made: &[&STARTED],
    },
    Case {
        name: "a lost device",
        polls: 1,
        script: &[0x101, 4, 0, 0x81],
        answer: Err(DriverFault::Fatal(0x81)),
        made: &[&STARTED, &LOST],
    },
    Case {
        name: "a short response",
        polls: 1,
        script: &[0x101, 4, 0, 0, 0, 0, 0, 9],
        answer: Err(DriverFault::BadResponse(9)),
        made: &[&STARTED, &SMALL, &OF_9],
    },
    Case {
        name: "a response with no room",
        polls: 1,
        script: &[0x101, 4, 0, 0, 0, 0, 0, 13],
        answer: Err(DriverFault::BadResponse(13)),
        made: &[&STARTED, &SMALL, &OF_13],
    },
    Case {
        name: "a huge response",
        polls: 1,
        script: &[0x101, 4, 0, 0, 0xFF, 0xFF, 0xFF, 0xFE],
        answer: Err(DriverFault::BadResponse(0xFFFF_FFFE)),
        made: &[&STARTED, &HUGE],
    },
];

/// Twelve bytes that nothing was written to.
const UNTOUCHED: [u8; 12] = [0xEE; 12];

/// The response, and behind it the bytes that stood there.
const ANSWERED: [u8; 12] = [0x80, 0x01, 0, 0, 0, 0x0A, 0, 0, 0x01, 0x25, 0xEE, 0xEE];

/// Whether a call goes so.
fn goes(case: &Case) -> bool {
    let mut bus = ScriptedBus::new(case.script);
    let mut into = UNTOUCHED;
    let answer = Driver::new().call(&mut bus, &STARTUP, &mut into, case.polls);
    let wanted = if answer.is_ok() { ANSWERED } else { UNTOUCHED };
    answer == case.answer && bus.has_recorded(case.made) && into == wanted
}

#[test]
fn calls_take_the_accesses_of_the_table(rt: HostRuntime) {
    for case in CALLS {
        assert!(rt; goes(&case), "{}", case.name);
    }
}

/// Commands too short or of another size than their size field names, and how many bytes they have.
const ILL_SIZED: [(&[u8], u32); 4] = [
    (&[], 0),
    (&[0x80, 0x01, 0, 0, 0, 9, 0, 0, 0x01], 9),
    (&[0x80, 0x01, 0, 0, 0, 0x0D, 0, 0, 0x01, 0x44, 0, 0], 12),
    (&[0x80, 0x01, 0x0C, 0, 0, 0, 0, 0, 0x01, 0x44, 0, 0], 12),
];

/// Whether the command isn't sent, and no byte is written.
fn is_ill_sized(command: &[u8], length: u32) -> bool {
    let mut bus = ScriptedBus::new(&[]);
    let mut into = UNTOUCHED;
    let answer = Driver::new().call(&mut bus, command, &mut into, 3);
    answer == Err(DriverFault::Size(length)) && bus.has_recorded(&[]) && into == UNTOUCHED
}

#[test]
fn a_command_of_another_size_is_not_sent(rt: HostRuntime) {
    for (command, length) in ILL_SIZED {
        assert!(rt; is_ill_sized(command, length), "{command:?}");
    }
    let mut long = [0; 3969];
    long[4] = 0x0F;
    long[5] = 0x81;
    assert!(rt; is_ill_sized(&long, 3969));
}

#[test]
fn a_response_longer_than_the_buffer_is_not_read(rt: HostRuntime) {
    let mut bus = ScriptedBus::new(&[0, 0, 0, 0x0F, 0x81]);
    let mut into = [0xEE; 4000];
    assert!(rt; Driver::new().finish(&mut bus, &mut into) == Err(DriverFault::BadResponse(3969)));
    assert!(rt; into == [0xEE; 4000]);
}

/// The reads of START where the second shows the end.
const POLLED_TWICE: [RecordedAccess; 2] = [
    RecordedAccess::Read(0x4C, 4, 1),
    RecordedAccess::Read(0x4C, 4, 0),
];

/// Whether the parts of a call go as the whole call does.
fn goes_in_parts() -> bool {
    let mut bus = ScriptedBus::new(&[
        0x101, 4, 1, 0, 2, 0, 0, 0, 0x0A, 0x80, 0x01, 0, 0, 0, 0x0A, 0, 0, 0x01, 0x25,
    ]);
    let mut driver = Driver::new();
    let mut into = UNTOUCHED;
    driver.start(&mut bus, &STARTUP) == Ok(())
        && bus.has_recorded(&[&STARTED])
        && !driver.poll(&mut bus)
        && driver.poll(&mut bus)
        && driver.finish(&mut bus, &mut into) == Ok(10)
        && bus.has_recorded(&[&STARTED, &POLLED_TWICE, &FINISHED])
        && into == ANSWERED
}

#[test]
fn start_poll_and_finish_do_what_call_does(rt: HostRuntime) {
    assert!(rt; goes_in_parts());
}

const TEXTS: [(DriverFault, &str); 6] = [
    (
        DriverFault::Size(9),
        "a command of 9 bytes has another size or can't be sent",
    ),
    (
        DriverFault::NotGranted(0x100),
        "access was not granted: LOC_STS is 0x100",
    ),
    (
        DriverFault::NotReady(2),
        "the interface is not ready: CTRL_STS is 0x2",
    ),
    (DriverFault::TimedOut(7), "no response after 7 polls"),
    (
        DriverFault::Fatal(0x81),
        "the TPM can't be used: CTRL_STS is 0x81",
    ),
    (
        DriverFault::BadResponse(13),
        "a response of 13 bytes can't be taken",
    ),
];

#[test]
fn each_fault_has_its_text(rt: HostRuntime) -> Result<(), Fail> {
    for (fault, text) in TEXTS {
        assert_eq!(rt; format!(in rt.alloc(); "{fault}")?.as_str(), text);
    }
    Ok(())
}
