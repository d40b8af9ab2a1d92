//! The table of deliveries: each kind of message at each side of a host. What is expected is the table of
//! `docs/MIGRATION.md`.
ghost use Rattle.move_core.specs.Calls.{HasBytes};
ghost use Rattle.std.specs.Prelude.{◌<◌, length, IfOk};

use crb_port::PlainPort;
use move_codec::{Body, Message, Part};
use move_core::{Delivered, Side};
use std::alloc::{AllocError, Global};
use std::test::*;
use tpm_core::{Banks, SEED_SIZE};
use vt_base::{Bytes, HostName, Reason};
use vt_script::{Event, parse_line};
use vt_seat::Seat;

/// Each side, in epoch 1 where it has one. No host has seen a greater epoch.
static SIDES: [Side; 7] = [
    Side::Empty,
    Side::Running,
    Side::Draining,
    Side::Offering(1),
    Side::Released(1),
    Side::Filling(1),
    Side::Prepared(1),
];

/// The lengths of the parts of a host after a reset, over a TPM that wasn't started.
const TOTALS: [u32; 4] = [23, 49, 10, 10];

/// These parts: the record, and the permanent, volatile and saved state.
static RECORD: [u8; 23] = [
    0x43, 0x52, 0x42, 0x44, 1, 0, 0, 0, 0x0E, 0, 0, 0, 0, 0, 0, 0, 0, 0, 0, 0, 0, 0, 0,
];

static PERMANENT: [u8; 49] = [
    0x43, 0x52, 0x42, 0x50, 1, 0, 0, 0, 0x28, 0, 0, 0, 0, 0, 0, 0, 0, 0, 0, 0, 0, 0, 0, 0, 0, 0, 0,
    0, 0, 0, 0, 0, 0, 0, 0, 0, 0, 0, 0, 0, 0, 0, 0, 0, 0, 0, 0, 0, 1,
];

static VOLATILE: [u8; 10] = [0x43, 0x52, 0x42, 0x56, 1, 0, 0, 0, 1, 0];

static SAVED: [u8; 10] = [0x43, 0x52, 0x42, 0x5A, 1, 0, 0, 0, 1, 0];

/// A guest takes access and makes the interface ready, writes TPM2_Startup(CLEAR) into the buffer and starts it.
static START: [&[u8]; 6] = [
    b"w 8 4 1",
    b"w 40 4 1",
    b"w 80 4 180",
    b"w 84 4 c00",
    b"w 88 4 4401",
    b"w 4c 4 1",
];

/// What a host answers, and what it sends.
#[derive(Clone, Copy, PartialEq, Eq)]
enum Answer {
    Ignored,
    Took,
    Runs,
    Resumed,
    Need(Part, u32),
    Piece(Part, u32),
    Prepared,
    Commit,
    Refuse(Reason, u32),
    /// What no row answers here.
    Other,
}

/// A side at which a message is followed; and the answer, the side and the greatest epoch seen then.
#[derive(Clone, Copy)]
struct Row {
    at: Side,
    answer: Answer,
    then: Side,
    top: u64,
}

// What a message that this host sends says.
fn said(body: &Body) -> Answer {
    match body {
        Body::Need { part, offset } => Answer::Need(*part, *offset),
        Body::Piece { part, offset, .. } => Answer::Piece(*part, *offset),
        Body::Prepared => Answer::Prepared,
        Body::Commit => Answer::Commit,
        Body::Refuse { reason, value } => Answer::Refuse(*reason, *value),
        Body::Offer { .. } | Body::Abort => Answer::Other,
    }
}

// An answer to a message of this epoch. What is sent goes to B in the same epoch.
fn answer_of(delivered: Delivered, epoch: u64) -> Answer {
    match delivered {
        Delivered::Ignored => Answer::Ignored,
        Delivered::Took => Answer::Took,
        Delivered::Runs => Answer::Runs,
        Delivered::Resumed => Answer::Resumed,
        Delivered::Wires(_) => Answer::Other,
        Delivered::Sent(m) | Delivered::Refused(m) => {
            if m.epoch == epoch && matches!(m.to, HostName::B) {
                said(&m.body)
            } else {
                Answer::Other
            }
        }
    }
}

// A message to A.
fn to_a(epoch: u64, body: Body) -> Message
    ensures bytes { HasBytes body → HasBytes result.body }
{
    Message {
        to: HostName::A,
        epoch,
        body,
    }
}

fn piece(
    alloc: Global,
    epoch: u64,
    part: Part,
    offset: u32,
    bytes: &[u8],
) -> Result<Message, AllocError>
    requires some { 0 < length bytes.now }
    ensures bytes { IfOk result (λ m. HasBytes m.body) }
{
    let bytes = Bytes::from_slice(alloc, bytes)?;
    Ok(to_a(
        epoch,
        Body::Piece {
            part,
            offset,
            bytes,
        },
    ))
}

fn running(alloc: Global) -> Result<Seat<PlainPort>, AllocError> {
    let mut seat = offering(alloc)?;
    drop(seat.give_up());
    Ok(seat)
}

// A write of a guest that runs.
fn write(seat: &mut Seat<PlainPort>, event: &Event) {
    if let Event::Access(access) = event {
        if seat.is_running() {
            drop(seat.access(access));
        }
    }
}

// The worker claims the job that waits.
fn claim(seat: &mut Seat<PlainPort>) {
    if seat.is_running() {
        drop(seat.step(&Event::Work));
    }
}

fn draining(alloc: Global) -> Result<Seat<PlainPort>, AllocError> {
    let mut seat = running(alloc)?;
    for line in &START {
        if let Some(event) = parse_line(line) {
            write(&mut seat, &event);
        }
    }
    claim(&mut seat);
    drop(seat.offer());
    Ok(seat)
}

fn offering(alloc: Global) -> Result<Seat<PlainPort>, AllocError> {
    let mut seat = Seat::fresh(alloc, HostName::A, [0; SEED_SIZE], Banks::One, 4096)?;
    drop(seat.offer());
    Ok(seat)
}

fn released(alloc: Global) -> Result<Seat<PlainPort>, AllocError> {
    let mut seat = offering(alloc)?;
    drop(seat.deliver(alloc, &to_a(1, Body::Prepared)));
    Ok(seat)
}

fn filling(alloc: Global) -> Result<Seat<PlainPort>, AllocError> {
    let mut seat = Seat::empty(alloc, HostName::A, 4096)?;
    drop(seat.deliver(alloc, &to_a(1, Body::Offer { totals: TOTALS })));
    Ok(seat)
}

fn empty(alloc: Global) -> Result<Seat<PlainPort>, AllocError> {
    let mut seat = filling(alloc)?;
    drop(seat.deliver(alloc, &to_a(1, Body::Abort)));
    Ok(seat)
}

// All of a part comes in one piece.
fn fill(
    alloc: Global,
    seat: &mut Seat<PlainPort>,
    part: Part,
    bytes: &[u8],
) -> Result<(), AllocError>
    requires some { 0 < length bytes.now }
{
    let m = piece(alloc, 1, part, 0, bytes)?;
    let answer = seat.deliver(alloc, &m);
    drop(m);
    drop(answer);
    Ok(())
}

fn fill_all(alloc: Global, seat: &mut Seat<PlainPort>) -> Result<(), AllocError> {
    fill(alloc, seat, Part::Record, &RECORD)?;
    fill(alloc, seat, Part::Permanent, &PERMANENT)?;
    fill(alloc, seat, Part::Volatile, &VOLATILE)?;
    fill(alloc, seat, Part::Saved, &SAVED)
}

fn prepared(alloc: Global) -> Result<Seat<PlainPort>, AllocError> {
    let mut seat = filling(alloc)?;
    let filled = fill_all(alloc, &mut seat);
    filled?;
    Ok(seat)
}

// Host A at this side.
fn seat_at(alloc: Global, side: Side) -> Result<Seat<PlainPort>, AllocError> {
    match side {
        Side::Empty => empty(alloc),
        Side::Running => running(alloc),
        Side::Draining => draining(alloc),
        Side::Offering(_) => offering(alloc),
        Side::Released(_) => released(alloc),
        Side::Filling(_) => filling(alloc),
        Side::Prepared(_) => prepared(alloc),
    }
}

// What is expected of a message with these rows. Any other side ignores it.
fn expected(rows: &[Row], at: Side) -> (Answer, Side, u64) {
    for row in rows {
        if row.at == at {
            return (row.answer, row.then, row.top);
        }
    }
    (Answer::Ignored, at, 1)
}

// What becomes of a message at this side.
fn outcome(alloc: Global, m: &Message, at: Side) -> Result<(Answer, Side, u64), AllocError>
    requires bytes { HasBytes m.now.body }
{
    let mut seat = seat_at(alloc, at)?;
    let delivered = seat.deliver(alloc, m);
    let side = seat.host().side();
    let top = seat.host().top();
    drop(seat);
    Ok((answer_of(delivered?, m.epoch), side, top))
}

// Whether a message is followed as these rows say, and ignored at any other side.
fn fits(alloc: Global, m: Message, rows: &[Row]) -> Result<bool, AllocError>
    requires bytes { HasBytes m.body }
{
    let compared = fits_each(alloc, &m, rows);
    drop(m);
    compared
}

fn fits_each(alloc: Global, m: &Message, rows: &[Row]) -> Result<bool, AllocError>
    requires bytes { HasBytes m.now.body }
{
    let mut all = true;
    for side in &SIDES {
        let then = outcome(alloc, m, *side)?;
        all = all && then == expected(rows, *side);
    }
    Ok(all)
}

// The row of a message that brings no new epoch.
fn follows(at: Side, answer: Answer, then: Side) -> Row {
    Row {
        at,
        answer,
        then,
        top: 1,
    }
}

// The row of an Offer of epoch 2, which the host has seen then.
fn looks_at(at: Side, answer: Answer, then: Side) -> Row {
    Row {
        at,
        answer,
        then,
        top: 2,
    }
}

fn offer(epoch: u64, totals: [u32; 4]) -> Message
    ensures bytes { HasBytes result.body }
{
    to_a(epoch, Body::Offer { totals })
}

// An Offer of epoch 2, by what becomes of it where no guest runs.
fn is_offered(
    alloc: Global,
    totals: [u32; 4],
    answer: Answer,
    then: Side,
) -> Result<bool, AllocError> {
    let offering = Side::Offering(1);
    let busy = Answer::Refuse(Reason::Busy, 0);
    let rows = [
        follows(Side::Running, busy, Side::Running),
        follows(Side::Draining, busy, Side::Draining),
        follows(offering, busy, offering),
        looks_at(Side::Empty, answer, then),
        looks_at(Side::Released(1), answer, then),
        looks_at(Side::Filling(1), answer, then),
        looks_at(Side::Prepared(1), answer, then),
    ];
    fits(alloc, offer(2, totals), &rows)
}

#[test]
fn an_offer_above_all_epochs_is_taken_up(rt: HostRuntime) -> Result<(), Fail> {
    let need = Answer::Need(Part::Record, 0);
    let totals = Answer::Refuse(Reason::Totals, 1);
    assert!(rt; is_offered(rt.alloc(), TOTALS, need, Side::Filling(2))?);
    assert!(rt; is_offered(rt.alloc(), [23, 4097, 0, 10], totals, Side::Empty)?);
    assert!(rt; fits(rt.alloc(), offer(1, TOTALS), &[])?);
    Ok(())
}

fn need(epoch: u64, part: Part, offset: u32) -> Message
    ensures bytes { HasBytes result.body }
{
    to_a(epoch, Body::Need { part, offset })
}

// Whether a Need for these bytes is answered by the Piece at that place, where the guest is offered.
fn is_given(alloc: Global, part: Part, offset: u32) -> Result<bool, AllocError> {
    let offering = Side::Offering(1);
    let row = follows(offering, Answer::Piece(part, offset), offering);
    fits(alloc, need(1, part, offset), &[row])
}

#[test]
fn a_need_within_a_part_gets_its_piece(rt: HostRuntime) -> Result<(), Fail> {
    assert!(rt; is_given(rt.alloc(), Part::Record, 22)?);
    assert!(rt; is_given(rt.alloc(), Part::Permanent, 9)?);
    assert!(rt; fits(rt.alloc(), need(1, Part::Record, 23), &[])?);
    assert!(rt; fits(rt.alloc(), need(1, Part::Saved, 10), &[])?);
    assert!(rt; fits(rt.alloc(), need(2, Part::Record, 0), &[])?);
    Ok(())
}

// Whether the first piece of the record is answered so where the parts come, and leaves the host at that side.
fn is_taken(alloc: Global, bytes: &[u8], answer: Answer, then: Side) -> Result<bool, AllocError>
    requires some { 0 < length bytes.now }
{
    let m = piece(alloc, 1, Part::Record, 0, bytes)?;
    fits(alloc, m, &[follows(Side::Filling(1), answer, then)])
}

#[test]
fn the_next_piece_is_taken(rt: HostRuntime) -> Result<(), Fail> {
    let filling = Side::Filling(1);
    let rest = Answer::Need(Part::Record, 5);
    let next_part = Answer::Need(Part::Permanent, 0);
    let refused = Answer::Refuse(Reason::Record, 0);
    assert!(rt; is_taken(rt.alloc(), &RECORD[..5], rest, filling)?);
    assert!(rt; is_taken(rt.alloc(), &RECORD, next_part, filling)?);
    assert!(rt; is_taken(rt.alloc(), &[0; 23], refused, Side::Empty)?);
    Ok(())
}

// Whether a piece is ignored at each side.
fn is_no_next(
    alloc: Global,
    epoch: u64,
    part: Part,
    offset: u32,
    bytes: &[u8],
) -> Result<bool, AllocError>
    requires some { 0 < length bytes.now }
{
    let m = piece(alloc, epoch, part, offset, bytes)?;
    fits(alloc, m, &[])
}

#[test]
fn any_other_piece_is_ignored(rt: HostRuntime) -> Result<(), Fail> {
    assert!(rt; is_no_next(rt.alloc(), 2, Part::Record, 0, &RECORD[..5])?);
    assert!(rt; is_no_next(rt.alloc(), 1, Part::Record, 1, &RECORD[1..5])?);
    assert!(rt; is_no_next(rt.alloc(), 1, Part::Permanent, 0, &PERMANENT)?);
    assert!(rt; is_no_next(rt.alloc(), 1, Part::Record, 0, &[0; 24])?);
    Ok(())
}

fn refuse(epoch: u64) -> Message
    ensures bytes { HasBytes result.body }
{
    to_a(
        epoch,
        Body::Refuse {
            reason: Reason::Link,
            value: 0,
        },
    )
}

#[test]
fn a_move_ends_at_both_hosts(rt: HostRuntime) -> Result<(), Fail> {
    let released = Side::Released(1);
    let commits = [
        follows(Side::Offering(1), Answer::Commit, released),
        follows(released, Answer::Commit, released),
    ];
    let runs = [follows(Side::Prepared(1), Answer::Runs, Side::Running)];
    assert!(rt; fits(rt.alloc(), to_a(1, Body::Prepared), &commits)?);
    assert!(rt; fits(rt.alloc(), to_a(1, Body::Commit), &runs)?);
    Ok(())
}

#[test]
fn a_move_is_broken_off_at_both_hosts(rt: HostRuntime) -> Result<(), Fail> {
    let took = [
        follows(Side::Filling(1), Answer::Took, Side::Empty),
        follows(Side::Prepared(1), Answer::Took, Side::Empty),
    ];
    let resumed = [follows(Side::Offering(1), Answer::Resumed, Side::Running)];
    assert!(rt; fits(rt.alloc(), to_a(1, Body::Abort), &took)?);
    assert!(rt; fits(rt.alloc(), refuse(1), &resumed)?);
    Ok(())
}

#[test]
fn messages_of_another_epoch_are_ignored(rt: HostRuntime) -> Result<(), Fail> {
    assert!(rt; fits(rt.alloc(), to_a(2, Body::Prepared), &[])?);
    assert!(rt; fits(rt.alloc(), to_a(2, Body::Commit), &[])?);
    assert!(rt; fits(rt.alloc(), to_a(0, Body::Abort), &[])?);
    assert!(rt; fits(rt.alloc(), refuse(2), &[])?);
    Ok(())
}

// Whether B's message is ignored at each side of A.
fn is_for_b(alloc: Global, m: Message) -> Result<bool, AllocError>
    requires bytes { HasBytes m.body }
{
    let m = Message {
        to: HostName::B,
        epoch: m.epoch,
        body: m.body,
    };
    fits(alloc, m, &[])
}

#[test]
fn messages_to_the_other_host_are_ignored(rt: HostRuntime) -> Result<(), Fail> {
    assert!(rt; is_for_b(rt.alloc(), offer(2, TOTALS))?);
    assert!(rt; is_for_b(rt.alloc(), need(1, Part::Record, 0))?);
    assert!(rt; is_for_b(rt.alloc(), piece(rt.alloc(), 1, Part::Record, 0, &RECORD)?)?);
    assert!(rt; is_for_b(rt.alloc(), to_a(1, Body::Prepared))?);
    assert!(rt; is_for_b(rt.alloc(), to_a(1, Body::Commit))?);
    assert!(rt; is_for_b(rt.alloc(), to_a(1, Body::Abort))?);
    assert!(rt; is_for_b(rt.alloc(), refuse(1))?);
    Ok(())
}
