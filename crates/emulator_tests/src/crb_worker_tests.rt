//! Jobs taken through a worker over prepared wires.
ghost use Rattle.std.specs.Prelude.{◌≡◌, None, IfOk};
ghost use Rattle.crb_port.specs.Views.{claimed_number_in};
ghost use Rattle.crb_worker.specs.Progress.{claimed_number_of};

use crate::fixtures::Script;
use crb_port::{Job, Outcome, PlainPort, Port, WorkPort};
use crb_worker::*;
use ctrl_client::Wires;
use std::alloc::{AllocError, Global};
use std::test::*;
use tpm_frame::LARGEST_FRAME;
use vt_base::{Buf, Chan};

const NUMBER: u64 = 7;

// TPM2_Startup(CLEAR).
const START: [u8; 12] = [0x80, 1, 0, 0, 0, 12, 0, 0, 1, 0x44, 0, 0];

// TPM_RC_SUCCESS and nothing else.
const SUCCESS: [u8; 10] = [0x80, 1, 0, 0, 0, 10, 0, 0, 0, 0];

// TPM_RC_CANCELED.
const CANCELED: [u8; 10] = [0x80, 1, 0, 0, 0, 10, 0, 0, 9, 9];

// Eight random bytes.
const RANDOM: [u8; 20] = [
    0x80, 1, 0, 0, 0, 20, 0, 0, 0, 0, 0, 8, 0x44, 0xB4, 0xC8, 0xF8, 0xAE, 0xB4, 0x91, 0xCE,
];

// A port where a job waits: the start, with a byte behind it that isn't part of the command.
fn waiting(alloc: Global, cancelled: bool) -> Result<PlainPort, AllocError>
    ensures { IfOk result (λ p. claimed_number_in p ≡ None) }
{
    let mut buf = Buf::new(alloc)?;
    buf.hold(&START);
    buf.set(START.len(), 0xFF);
    let mut port = PlainPort::new();
    port.queue(Job {
        number: NUMBER,
        cancelled,
        buf,
    });
    Ok(port)
}

// Five steps of a worker.
fn five_steps<P: WorkPort, W: Wires>(worker: &mut Worker, port: &mut P, wires: &mut W) -> [Step; 5]
    requires { (P.port_view port.old).claimed_number ≡ claimed_number_of worker.old }
{
    let first = worker.step(port, wires);
    let second = worker.step(port, wires);
    let third = worker.step(port, wires);
    let fourth = worker.step(port, wires);
    [first, second, third, fourth, worker.step(port, wires)]
}

// What came of a job: the answers of five steps, how it ended, whether the buffer holds this response followed by
// zeros, and how many bytes were sent.
type Came = ([Step; 5], Option<Outcome>, bool, usize);

// Takes the job to an end over these wires.
fn worked(
    alloc: Global,
    cancelled: bool,
    wires: &mut Script,
    held: &[u8],
) -> Result<Came, AllocError> {
    let mut port = waiting(alloc, cancelled)?;
    let mut worker = Worker::new();
    let steps = five_steps(&mut worker, &mut port, wires);
    let mut outcome = None;
    let mut holds = false;
    if let Some(answer) = port.collect()
        && answer.number == NUMBER
    {
        outcome = Some(answer.outcome);
        let mut wanted = Buf::new(alloc)?;
        if held.len() <= LARGEST_FRAME {
            wanted.hold(held);
        }
        holds = answer.buf.bytes() == wanted.bytes();
    }
    Ok((steps, outcome, holds, wires.sent.as_slice().len()))
}

// A refusal of a command by its tag, and a response with sessions.
const BAD_TAG: [u8; 10] = [0, 0xC4, 0, 0, 0, 10, 0, 0, 0, 0x1E];

const WITH_SESSIONS: [u8; 11] = [0x80, 2, 0, 0, 0, 11, 0, 0, 0, 0, 1];

// The random bytes, cut in the header and behind it.
const CUT_HEAD: [u8; 9] = [0x80, 1, 0, 0, 0, 20, 0, 0, 0];

const CUT_REST: [u8; 19] = [
    0x80, 1, 0, 0, 0, 20, 0, 0, 0, 0, 0, 8, 0x44, 0xB4, 0xC8, 0xF8, 0xAE, 0xB4, 0x91,
];

// The steps of a job that is answered, and of one that is cancelled before the claim or by the emulator.
const DONE: [Step; 5] = [
    Step::Claim(NUMBER),
    Step::Sent(NUMBER),
    Step::Exec(NUMBER),
    Step::Done(NUMBER),
    Step::Idle,
];

const CANCELLED_BEFORE: [Step; 5] = [
    Step::Claim(NUMBER),
    Step::Cancelled(NUMBER),
    Step::Idle,
    Step::Idle,
    Step::Idle,
];

const CANCELLED_THERE: [Step; 5] = [
    Step::Claim(NUMBER),
    Step::Sent(NUMBER),
    Step::Exec(NUMBER),
    Step::Cancelled(NUMBER),
    Step::Idle,
];

// The steps of a job that is lost at the send, at the header of its response, and behind that.
const LOST_AT_SEND: [Step; 5] = [
    Step::Claim(NUMBER),
    Step::Lost(NUMBER),
    Step::Idle,
    Step::Idle,
    Step::Idle,
];

const LOST_AT_HEAD: [Step; 5] = [
    Step::Claim(NUMBER),
    Step::Sent(NUMBER),
    Step::Lost(NUMBER),
    Step::Idle,
    Step::Idle,
];

const LOST_AT_REST: [Step; 5] = [
    Step::Claim(NUMBER),
    Step::Sent(NUMBER),
    Step::Exec(NUMBER),
    Step::Lost(NUMBER),
    Step::Idle,
];

// The bytes that wait in the port, which come back with a job that is lost.
const COMMAND: [u8; 13] = [0x80, 1, 0, 0, 0, 12, 0, 0, 1, 0x44, 0, 0, 0xFF];

// Whether the job is cancelled at the claim; the response that the wires give, how many bytes of it come at once at
// most, and the number of the call that fails, if it isn't 0; the steps, the outcome, what the buffer holds then, and
// how many bytes are sent.
type Row = (
    bool,
    &'static [u8],
    usize,
    u64,
    &'static [Step; 5],
    Outcome,
    &'static [u8],
    usize,
);

const JOBS: [Row; 20] = [
    (false, &SUCCESS, 4096, 0, &DONE, Outcome::Done, &SUCCESS, 12),
    (false, &SUCCESS, 1, 0, &DONE, Outcome::Done, &SUCCESS, 12),
    (false, &RANDOM, 4096, 0, &DONE, Outcome::Done, &RANDOM, 12),
    (false, &RANDOM, 1, 0, &DONE, Outcome::Done, &RANDOM, 12),
    (false, &RANDOM, 13, 0, &DONE, Outcome::Done, &RANDOM, 12),
    (false, &BAD_TAG, 7, 0, &DONE, Outcome::Done, &BAD_TAG, 12),
    (
        false,
        &WITH_SESSIONS,
        4096,
        0,
        &DONE,
        Outcome::Done,
        &WITH_SESSIONS,
        12,
    ),
    // Before the claim: nothing is sent.
    (
        true,
        &SUCCESS,
        4096,
        0,
        &CANCELLED_BEFORE,
        Outcome::Cancelled,
        &CANCELED,
        0,
    ),
    (
        false,
        &CANCELED,
        4096,
        0,
        &CANCELLED_THERE,
        Outcome::Cancelled,
        &CANCELED,
        12,
    ),
    // The call of that number fails: the send, a receive of the header, a receive of the rest.
    (
        false,
        &RANDOM,
        4096,
        1,
        &LOST_AT_SEND,
        Outcome::Lost,
        &COMMAND,
        0,
    ),
    (
        false,
        &RANDOM,
        4096,
        2,
        &LOST_AT_HEAD,
        Outcome::Lost,
        &COMMAND,
        12,
    ),
    (
        false,
        &RANDOM,
        1,
        11,
        &LOST_AT_HEAD,
        Outcome::Lost,
        &COMMAND,
        12,
    ),
    (
        false,
        &RANDOM,
        4096,
        3,
        &LOST_AT_REST,
        Outcome::Lost,
        &COMMAND,
        12,
    ),
    (
        false,
        &RANDOM,
        1,
        21,
        &LOST_AT_REST,
        Outcome::Lost,
        &COMMAND,
        12,
    ),
    // The response ends early.
    (
        false,
        &CUT_HEAD,
        4096,
        0,
        &LOST_AT_HEAD,
        Outcome::Lost,
        &COMMAND,
        12,
    ),
    (
        false,
        &CUT_REST,
        4096,
        0,
        &LOST_AT_REST,
        Outcome::Lost,
        &COMMAND,
        12,
    ),
    // No header of a response: tag 0x8003; sizes 9, 3969 and 16,777,226.
    (
        false,
        &[0x80, 3, 0, 0, 0, 10, 0, 0, 0, 0],
        4096,
        0,
        &LOST_AT_HEAD,
        Outcome::Lost,
        &COMMAND,
        12,
    ),
    (
        false,
        &[0x80, 1, 0, 0, 0, 9, 0, 0, 0, 0],
        4096,
        0,
        &LOST_AT_HEAD,
        Outcome::Lost,
        &COMMAND,
        12,
    ),
    (
        false,
        &[0x80, 1, 0, 0, 0x0F, 0x81, 0, 0, 0, 0],
        4096,
        0,
        &LOST_AT_HEAD,
        Outcome::Lost,
        &COMMAND,
        12,
    ),
    (
        false,
        &[0x80, 1, 1, 0, 0, 10, 0, 0, 0, 0],
        4096,
        0,
        &LOST_AT_HEAD,
        Outcome::Lost,
        &COMMAND,
        12,
    ),
];

// Whether what is sent is the start, or nothing.
fn has_sent_the_start(wires: &Script) -> bool {
    let sent = wires.sent.as_slice();
    sent.is_empty() || sent == START.as_slice()
}

// Whether a job goes so.
fn goes(alloc: Global, row: &Row) -> Result<bool, AllocError> {
    let (cancelled, response, piece, failing, steps, outcome, held, sent) = *row;
    let mut wires = Script::new(alloc, Chan::Data, response, piece, failing)?;
    let came = worked(alloc, cancelled, &mut wires, held)?;
    Ok(came == (*steps, Some(outcome), true, sent) && has_sent_the_start(&wires))
}

// The number of the first job that goes otherwise.
fn wrong_job(alloc: Global) -> Result<Option<usize>, AllocError> {
    for (number, row) in JOBS.iter().enumerate() {
        if !goes(alloc, row)? {
            return Ok(Some(number));
        }
    }
    Ok(None)
}

#[test]
fn each_job_ends_as_in_the_table(rt: HostRuntime) -> Result<(), Fail> {
    assert_eq!(rt; wrong_job(rt.alloc())?, None);
    Ok(())
}

// The header of a response of 3968 bytes.
const LONGEST: [u8; 10] = [0x80, 1, 0, 0, 0x0F, 0x80, 0, 0, 0, 0];

#[test]
fn the_longest_response(rt: HostRuntime) -> Result<(), Fail> {
    let mut response = [0x5A; LARGEST_FRAME];
    response[..10].copy_from_slice(&LONGEST);
    let mut wires = Script::new(rt.alloc(), Chan::Data, &response, 1000, 0)?;
    let came = worked(rt.alloc(), false, &mut wires, &response)?;
    assert!(rt; came == (DONE, Some(Outcome::Done), true, 12));
    Ok(())
}
