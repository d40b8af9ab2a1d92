ghost use Rattle.std.specs.Prelude.{◌≡◌, true, false};
ghost use Rattle.crb_port.specs.Views.{claimed_number_in};

use crb_machine::*;
use crb_port::{Answer, Job, Outcome, PlainPort, Port, WorkPort};
use crb_regs::{Access, Phase, Regs};
use std::alloc::{AllocError, Global};
use std::marker::Model;
use std::test::*;
use vt_base::BUFFER_LENGTH;

// What is done to a device, and what it shows.
#[derive(Clone, Copy)]
enum Step {
    // Offset, size, and the value that is read.
    Read(u32, u8, u64),
    // Offset, size, and the value that is written.
    Write(u32, u8, u64),
    // A reset, and the number of the job that keeps it from being done.
    Reset(Option<u64>),
    // The phase and the number of the last job.
    Shows(Phase, u64),
    // The number of the claimed job, and whether it is cancelled.
    Claim(u64, bool),
    // No job waits.
    NoJob,
    // The answer to the claimed job, and the bytes of its response.
    Answer(Outcome, &'static [u8]),
    // A stop, and the number of the job that keeps it from being done.
    Stop(Option<u64>),
    // Access, CANCEL, and the mark of the held device; its phase and number, and the first bytes of its buffer.
    Holds([bool; 3], Phase, u64, &'static [u8]),
    GoOn,
}

use Step::{Claim, GoOn, Holds, NoJob, Read, Reset, Shows, Stop, Write};

// A device over a plain port, and the job that is claimed there.
#[derive(Drop)]
struct Bench {
    device: Device<PlainPort>,
    job: Option<Job>,
}

impl Model for Bench {
    ghost use Rattle.std.specs.Prelude.{◌≡◌, option_map};
    ghost use Rattle.crb_port.specs.Views.{claimed_number_in};

    ghost Value = { Unit {0} };

    ghost view = { λ _. tt };

    ghost invariant = { λ b. claimed_number_in b.device.port ≡ option_map (λ job. job.number) b.job };
}

// Does a step on a device that isn't held.
fn serves(device: &mut Device<PlainPort>, step: Step) -> bool
    requires runs { device.old.held ≡ false }
    ensures claimed_number { claimed_number_in device.new.port ≡ claimed_number_in device.old.port }
{
    match step {
        Read(offset, size, wanted) => match Access::new(offset, size, None) {
            Some(access) => device.read(&access) == wanted,
            None => false,
        },
        Write(offset, size, value) => match Access::new(offset, size, Some(value)) {
            Some(access) => {
                device.write(&access);
                true
            }
            None => false,
        },
        Reset(claimed) => device.reset().err().map(|e| e.number) == claimed,
        Stop(claimed) => device.stop().err().map(|e| e.number) == claimed,
        _ => false,
    }
}

// Does a step on a held device.
fn pauses(device: &mut Device<PlainPort>, step: Step) -> bool
    requires held { device.old.held ≡ true }
    ensures claimed_number { claimed_number_in device.new.port ≡ claimed_number_in device.old.port }
{
    match step {
        Holds(bits, phase, number, prefix) => {
            let state = device.state();
            [state.regs.granted, state.regs.cancel, state.cancelled] == bits
                && state.regs.phase == phase
                && state.number == number
                && state.content.starts_with(prefix)
        }
        GoOn => {
            device.go_on();
            true
        }
        _ => false,
    }
}

impl Bench {
    fn new(alloc: Global) -> Result<Bench, AllocError> {
        let device = Device::new(alloc, PlainPort::new())?;
        Ok(Bench { device, job: None })
    }

    // A bench whose device is given up.
    fn failed(alloc: Global) -> Result<Bench, AllocError> {
        let mut device = Device::new(alloc, PlainPort::new())?;
        device.fail();
        Ok(Bench { device, job: None })
    }

    // A bench whose device is held, as after the response of its command 7.
    fn restored(alloc: Global) -> Result<Bench, AllocError> {
        let mut device = Device::new(alloc, PlainPort::new())?;
        if device.stop().is_ok() {
            device.set_state(&HeldState {
                regs: Regs {
                    granted: true,
                    cancel: true,
                    phase: Phase::Completion,
                },
                cancelled: false,
                number: 7,
                content: &SUCCESS,
            });
        }
        Ok(Bench { device, job: None })
    }

    // Does a step; false where it can't be done, or the device shows something else.
    fn does(&mut self, step: Step) -> bool {
        match step {
            Read(..) | Write(..) | Reset(_) | Stop(_) => !self.device.is_held()
                && serves(&mut self.device, step),
            Holds(..) | GoOn => self.device.is_held() && pauses(&mut self.device, step),
            Shows(phase, number) => {
                self.device.phase() == phase && self.device.number() == number
            }
            Claim(number, cancelled) => {
                self.claims();
                matches!(&self.job, Some(job) if job.number == number && job.cancelled == cancelled)
            }
            NoJob => self.job.is_none() && !self.claims(),
            Step::Answer(outcome, response) => self.answers(outcome, response),
        }
    }

    // Claims a job, where none is claimed; whether one is claimed then.
    fn claims(&mut self) -> bool {
        if self.job.is_none() {
            self.job = self.device.claim();
        }
        self.job.is_some()
    }

    // Does some scripts. The first step that isn't as it is to be, by script and place.
    fn first_mismatch(&mut self, scripts: &[&[Step]]) -> Option<(usize, usize)> {
        for (script, steps) in scripts.iter().enumerate() {
            for (place, step) in steps.iter().enumerate() {
                if !self.does(*step) {
                    return Some((script, place));
                }
            }
        }
        None
    }

    // Does the first steps of a command with its start; whether one of them isn't as it is to be.
    fn starts_wrong(&mut self, count: usize) -> bool {
        for step in STARTUP.iter().take(count) {
            if !self.does(*step) {
                return true;
            }
        }
        false
    }

    fn answers(&mut self, outcome: Outcome, response: &[u8]) -> bool {
        if response.len() > BUFFER_LENGTH {
            return false;
        }
        let Some(
            Job {
                number,
                mut buf,
                ..
            },
        ) = self.job.take()
        else {
            return false;
        };
        buf.hold(response);
        self.device.post(Answer {
            number,
            outcome,
            buf,
        });
        true
    }
}

// Takes access and starts the command Startup(CLEAR).
const STARTUP: [Step; 6] = [
    Write(0x08, 4, 1),
    Write(0x40, 4, 1),
    Write(0x80, 4, 0x180),
    Write(0x84, 4, 0xC00),
    Write(0x88, 4, 0x4401),
    Write(0x4C, 4, 1),
];

// The same in parts.
const ACCESS: [Step; 1] = [Write(0x08, 4, 1)];

const READY: [Step; 1] = [Write(0x40, 4, 1)];

const COMMAND: [Step; 3] = [
    Write(0x80, 4, 0x180),
    Write(0x84, 4, 0xC00),
    Write(0x88, 4, 0x4401),
];

const START: [Step; 1] = [Write(0x4C, 4, 1)];

// The bytes of the command, and a zero behind them.
const COMMAND_BYTES: [u8; 13] = [0x80, 1, 0, 0, 0, 12, 0, 0, 1, 0x44, 0, 0, 0];

// A response without parameters.
const SUCCESS: [u8; 10] = [0x80, 1, 0, 0, 0, 10, 0, 0, 0, 0];

// What a device shows after a reset: no access, CANCEL clear, idle, and a buffer of zeros.
const AS_RESET: [Step; 8] = [
    Read(0x00, 4, 0x81),
    Read(0x44, 4, 2),
    Read(0x48, 4, 0),
    Read(0x4C, 4, 0),
    Read(0x80, 4, 0xFFFF_FFFF),
    NoJob,
    Write(0x40, 4, 1),
    Read(0x80, 8, 0),
];

const READ_AFTER_RESET: [Step; 9] = [
    Read(0x00, 4, 0x81),
    Read(0x30, 4, 0x0002_5811),
    Read(0x34, 4, 0x0000_1014),
    Read(0x44, 4, 2),
    Read(0x58, 4, 0xF80),
    Read(0x5C, 4, 0xFED4_0080),
    Read(0x68, 8, 0xFED4_0080),
    Read(0xFFC, 4, 0xFFFF_FFFF),
    NoJob,
];

const ODD_PLACES_AND_VALUES: [Step; 11] = [
    // Over the first byte of CTRL_STS and of the buffer, and from the middle of RSP_ADDR.
    Read(0x42, 4, 0x0002_0000),
    Read(0x7E, 4, 0xFFFF_0000),
    Read(0x7C, 8, 0xFFFF_FFFF_0000_0000),
    Read(0x69, 8, 0x00FE_D400),
    // 3 asks for nothing.
    Write(0x08, 4, 3),
    Read(0x0C, 4, 0),
    Write(0x08, 1, 1),
    Read(0x00, 4, 0x83),
    Read(0x0C, 4, 1),
    Write(0x08, 4, 2),
    Read(0x00, 4, 0x81),
];

const BUFFER: [Step; 20] = [
    // Idle takes no bytes and shows none.
    Write(0x80, 4, 1),
    Read(0x80, 4, 0xFFFF_FFFF),
    Write(0x40, 4, 1),
    Read(0x80, 4, 0),
    Read(0x44, 4, 0),
    // A write that begins before the buffer sets none of its bytes.
    Write(0x7E, 4, 0xFFFF_FFFF),
    Read(0x80, 4, 0),
    Write(0x80, 8, 0x0102_0304_0506_0708),
    Write(0x83, 2, 0xAABB),
    Read(0x80, 8, 0x0102_03AA_BB06_0708),
    Write(0xFF8, 8, 0x1112_1314_1516_1718),
    Read(0xFFF, 1, 0x11),
    // Asking for ready again does nothing; idle makes the buffer zeros.
    Write(0x40, 4, 1),
    Read(0x80, 1, 0x08),
    Write(0x40, 4, 2),
    Read(0x44, 4, 2),
    Read(0x80, 1, 0xFF),
    Write(0x40, 4, 1),
    Read(0x80, 8, 0),
    Read(0xFF8, 8, 0),
];

const NOT_STARTED: [Step; 3] = [Read(0x4C, 4, 0), Read(0x80, 4, 0x180), NoJob];

const WHOLE_COMMAND: [Step; 21] = [
    Read(0x4C, 4, 1),
    Read(0x80, 4, 0xFFFF_FFFF),
    Claim(1, false),
    // No write is taken while the command is executed, and giving access back leaves the command alone.
    Write(0x80, 4, 5),
    Write(0x40, 4, 1),
    Write(0x4C, 4, 1),
    Write(0x08, 4, 2),
    Read(0x00, 4, 0x81),
    Read(0x4C, 4, 1),
    Read(0x88, 4, 0xFFFF_FFFF),
    Step::Answer(Outcome::Done, &SUCCESS),
    NoJob,
    Read(0x4C, 4, 0),
    Read(0x44, 4, 0),
    Read(0x80, 4, 0x180),
    Read(0x84, 4, 0xA00),
    // Behind the response are zeros, and nothing is written over it.
    Read(0x88, 4, 0),
    Write(0x80, 4, 5),
    Read(0x80, 4, 0x180),
    Write(0x40, 4, 1),
    Read(0x80, 8, 0),
];

const CLAIMED: [Step; 1] = [Claim(1, false)];

const CLAIMED_SECOND: [Step; 1] = [Claim(2, false)];

const CLAIMED_CANCELLED: [Step; 1] = [Claim(1, true)];

const ANSWERED: [Step; 2] = [Claim(1, false), Step::Answer(Outcome::Done, &SUCCESS)];

const ANSWER_SEEN: [Step; 2] = [Read(0x4C, 4, 0), Shows(Phase::Completion, 1)];

const LOST: [Step; 2] = [Claim(1, false), Step::Answer(Outcome::Lost, &[])];

const LOST_SEEN: [Step; 2] = [Read(0x44, 4, 1), Shows(Phase::Lost, 1)];

// No write does anything any more.
const LOST_FOR_GOOD: [Step; 10] = [
    Read(0x44, 4, 1),
    Read(0x4C, 4, 0),
    Read(0x80, 4, 0xFFFF_FFFF),
    Write(0x40, 4, 1),
    Write(0x40, 4, 2),
    Write(0x08, 4, 2),
    Write(0x48, 4, 1),
    Read(0x00, 4, 0x83),
    Read(0x44, 4, 1),
    Read(0x48, 4, 0),
];

const CANCEL: [Step; 2] = [Write(0x48, 4, 1), Read(0x48, 4, 1)];

const NO_CANCEL: [Step; 2] = [Write(0x48, 4, 0), Read(0x48, 4, 0)];

const CANCELLED: [Step; 5] = [
    Read(0x4C, 4, 1),
    Step::Answer(Outcome::Cancelled, &SUCCESS),
    Read(0x4C, 4, 0),
    Read(0x80, 4, 0x180),
    Read(0x48, 4, 1),
];

const RESET: [Step; 2] = [Reset(None), Shows(Phase::Idle, 0)];

const RESET_AFTER_ONE: [Step; 2] = [Reset(None), Shows(Phase::Idle, 1)];

const RESET_OF_A_CLAIMED_JOB: [Step; 7] = [
    Claim(1, false),
    Reset(Some(1)),
    Shows(Phase::Execution, 1),
    Read(0x00, 4, 0x83),
    Step::Answer(Outcome::Done, &SUCCESS),
    Read(0x80, 4, 0x180),
    Reset(None),
];

const RESET_OF_A_LOST_DEVICE: [Step; 3] = [Reset(None), Shows(Phase::Lost, 1), Read(0x00, 4, 0x83)];

// What a stop and a go-on give at each stage of a command.
const STOPPED_IDLE: [Step; 7] = [
    Stop(None),
    Holds([false; 3], Phase::Idle, 0, &[0; 10]),
    NoJob,
    GoOn,
    NoJob,
    Write(0x40, 4, 1),
    Read(0x80, 8, 0),
];

const STOPPED_IN_RECEPTION: [Step; 6] = [
    Stop(None),
    Holds([true, false, false], Phase::Reception, 0, &COMMAND_BYTES),
    GoOn,
    Read(0x88, 4, 0x4401),
    Write(0x4C, 4, 1),
    Claim(1, false),
];

const STOPPED_WAITING: [Step; 6] = [
    Stop(None),
    Holds([true, false, false], Phase::Execution, 1, &COMMAND_BYTES),
    NoJob,
    GoOn,
    Read(0x4C, 4, 1),
    Claim(1, false),
];

const STOPPED_CANCELLED: [Step; 6] = [
    Write(0x48, 4, 1),
    Stop(None),
    Holds([true, true, true], Phase::Execution, 1, &COMMAND_BYTES),
    NoJob,
    GoOn,
    Claim(1, true),
];

const STOPPED_TOO_LATE: [Step; 5] = [
    Claim(1, false),
    Stop(Some(1)),
    Read(0x4C, 4, 1),
    Step::Answer(Outcome::Done, &SUCCESS),
    Read(0x80, 4, 0x180),
];

const STOPPED_ANSWERED: [Step; 8] = [
    Claim(1, false),
    Step::Answer(Outcome::Done, &SUCCESS),
    Stop(None),
    Holds([true, false, false], Phase::Completion, 1, &SUCCESS),
    GoOn,
    NoJob,
    Read(0x4C, 4, 0),
    Read(0x80, 4, 0x180),
];

const STOPPED_LOST: [Step; 7] = [
    Claim(1, false),
    Step::Answer(Outcome::Lost, &[]),
    Stop(None),
    Shows(Phase::Lost, 1),
    GoOn,
    NoJob,
    Read(0x44, 4, 1),
];

// What a device after a reset is taken through: so many steps of a command with its start, and these behind them.
const SCRIPTS: [(&str, usize, &[&[Step]]); 27] = [
    ("reads after a reset", 0, &[&READ_AFTER_RESET]),
    ("odd places and values", 0, &[&ODD_PLACES_AND_VALUES]),
    ("the buffer", 0, &[&BUFFER]),
    (
        "a start without access",
        0,
        &[&READY, &COMMAND, &START, &NOT_STARTED],
    ),
    (
        "a whole command, and the next",
        6,
        &[&WHOLE_COMMAND, &STARTUP, &CLAIMED_SECOND],
    ),
    ("a lost answer", 6, &[&LOST, &LOST_FOR_GOOD]),
    (
        "a cancel before the claim",
        6,
        &[&CANCEL, &CLAIMED_CANCELLED, &CANCELLED],
    ),
    (
        "a cancel that is cleared later",
        6,
        &[&CANCEL, &NO_CANCEL, &CLAIMED_CANCELLED],
    ),
    (
        "a cancel after the claim",
        6,
        &[&CLAIMED, &CANCEL, &CANCELLED],
    ),
    (
        "a cancel that stands at START",
        0,
        &[&CANCEL, &STARTUP, &CLAIMED_CANCELLED],
    ),
    (
        "a cancel that was cleared before START",
        0,
        &[&CANCEL, &NO_CANCEL, &STARTUP, &CLAIMED],
    ),
    ("a reset while idle", 1, &[&RESET, &AS_RESET]),
    ("a reset while ready", 2, &[&RESET, &AS_RESET]),
    ("a reset in reception", 5, &[&RESET, &AS_RESET]),
    (
        "a reset of a job that waits",
        6,
        &[&RESET_AFTER_ONE, &AS_RESET],
    ),
    (
        "a reset of an answer that stands",
        6,
        &[&ANSWERED, &RESET_AFTER_ONE, &AS_RESET],
    ),
    (
        "a reset of an answer that was seen",
        6,
        &[&ANSWERED, &ANSWER_SEEN, &RESET_AFTER_ONE, &AS_RESET],
    ),
    (
        "a reset of a claimed job",
        6,
        &[
            &RESET_OF_A_CLAIMED_JOB,
            &AS_RESET,
            &ACCESS,
            &COMMAND,
            &START,
            &CLAIMED_SECOND,
        ],
    ),
    (
        "a reset of a lost device",
        6,
        &[&LOST, &RESET_OF_A_LOST_DEVICE, &LOST_SEEN],
    ),
    (
        "a reset of a device that was seen lost",
        6,
        &[&LOST, &LOST_SEEN, &RESET_OF_A_LOST_DEVICE],
    ),
    ("a stop while idle", 0, &[&STOPPED_IDLE]),
    ("a stop in reception", 5, &[&STOPPED_IN_RECEPTION]),
    ("a stop of a job that waits", 6, &[&STOPPED_WAITING]),
    ("a stop of a cancelled job", 6, &[&STOPPED_CANCELLED]),
    ("a stop of a claimed job", 6, &[&STOPPED_TOO_LATE]),
    ("a stop of an answer", 6, &[&STOPPED_ANSWERED]),
    ("a stop of a lost device", 6, &[&STOPPED_LOST]),
];

// The first script that doesn't go as it is to.
fn wrong_script(alloc: Global) -> Result<Option<&'static str>, AllocError> {
    for (name, started, behind) in SCRIPTS {
        let mut bench = Bench::new(alloc)?;
        if bench.starts_wrong(started) || bench.first_mismatch(behind).is_some() {
            return Ok(Some(name));
        }
    }
    Ok(None)
}

#[test]
fn accesses_give_the_values_of_the_table(rt: HostRuntime) -> Result<(), Fail> {
    assert_eq!(rt; wrong_script(rt.alloc())?, None);
    Ok(())
}

// What a device shows that is given up.
const GIVEN_UP: [Step; 5] = [
    Shows(Phase::Lost, 0),
    Read(0x44, 4, 1),
    Read(0x4C, 4, 0),
    Read(0x80, 4, 0xFFFF_FFFF),
    NoJob,
];

// Requests of access, cmdReady and goIdle, and a cancel.
const REQUESTS: [Step; 6] = [
    Write(0x08, 4, 1),
    Write(0x40, 4, 1),
    Write(0x40, 4, 2),
    Write(0x48, 4, 1),
    Read(0x00, 4, 0x81),
    Read(0x48, 4, 0),
];

const RESET_IN_VAIN: [Step; 1] = [Reset(None)];

#[test]
fn a_failed_device_is_lost_and_ignores_writes(rt: HostRuntime) -> Result<(), Fail> {
    let mut bench = Bench::failed(rt.alloc())?;
    let wrong = bench.first_mismatch(&[
        &GIVEN_UP,
        &REQUESTS,
        &GIVEN_UP,
        &STARTUP,
        &GIVEN_UP,
        &RESET_IN_VAIN,
        &GIVEN_UP,
        &REQUESTS,
        &GIVEN_UP,
    ]);
    assert_eq!(rt; wrong, None);
    Ok(())
}

// Whether the job of a command holds its bytes.
fn holds_the_command(bench: &mut Bench) -> bool {
    let wrong = bench.first_mismatch(&[&STARTUP]);
    if wrong.is_some() || !bench.claims() {
        return false;
    }
    match &bench.job {
        Some(job) => job.buf.bytes().starts_with(&COMMAND_BYTES),
        None => false,
    }
}

#[test]
fn start_queues_the_bytes_of_the_buffer(rt: HostRuntime) -> Result<(), Fail> {
    let mut bench = Bench::new(rt.alloc())?;
    assert!(rt; holds_the_command(&mut bench));
    Ok(())
}

// A device that is held with the values of its guest, which has the response of its command 7.
const RESTORED: [Step; 7] = [
    Holds([true, true, false], Phase::Completion, 7, &SUCCESS),
    GoOn,
    Read(0x00, 4, 0x83),
    Read(0x48, 4, 1),
    Read(0x80, 4, 0x180),
    // Behind the bytes that were given are zeros.
    Read(0x88, 4, 0),
    Shows(Phase::Completion, 7),
];

const NEXT_OF_RESTORED: [Step; 1] = [Claim(8, true)];

#[test]
fn set_state_gives_the_device_these_values(rt: HostRuntime) -> Result<(), Fail> {
    let mut bench = Bench::restored(rt.alloc())?;
    let wrong = bench.first_mismatch(&[&RESTORED, &STARTUP, &NEXT_OF_RESTORED]);
    assert_eq!(rt; wrong, None);
    Ok(())
}

// Stops a device over any port, and has it go on; whether it was stopped.
fn pause<P: Port>(device: &mut Device<P>) -> bool
    requires runs { device.old.held ≡ false }
{
    if device.stop().is_err() {
        return false;
    }
    device.go_on();
    true
}

#[test]
fn a_device_over_any_port_is_stopped(rt: HostRuntime) -> Result<(), Fail> {
    let mut device = Device::new(rt.alloc(), PlainPort::new())?;
    assert!(rt; pause(&mut device));
    assert!(rt; !device.is_held());
    Ok(())
}
