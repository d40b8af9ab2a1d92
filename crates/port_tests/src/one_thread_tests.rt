ghost use Rattle.std.specs.Prelude.{◌≡◌, IfOk};
ghost use Rattle.crb_shared.specs.Ends.{guest_view, worker_view};

use crb_port::{Answer, Job, Outcome, Port, PortStage, Pull, WorkPort};
use crb_shared::{GuestEnd, SharedPort, WorkerEnd, close};
use std::alloc::{AllocError, Global};
use std::test::Fail;
use vt_base::Buf;

const NUMBER: u64 = 7;

// What a pull brings back.
#[derive(Clone, Copy, Debug, PartialEq, Eq)]
enum Pulled {
    Nothing,
    Waiting,
    Cancelled,
    Answer,
    Busy,
    OtherNumber,
}

// What each call finds at a stage, and what two pulls bring back.
#[derive(Clone, Copy, Debug, PartialEq, Eq)]
struct Found {
    cancel: bool,
    collect: bool,
    claim: bool,
    pulls: [Pulled; 2],
}

// The ends of a new port, brought to a stage.
fn at(alloc: Global, stage: PortStage) -> Result<(GuestEnd, WorkerEnd), AllocError>
    ensures one_port { IfOk result (λ r. (guest_view r.0).which ≡ (worker_view r.1).which) }
{
    let (mut guest, mut worker) = SharedPort::new(alloc)?.ends();
    if matches!(stage, PortStage::Free) {
        return Ok((guest, worker));
    }
    guest.queue(Job {
        number: NUMBER,
        cancelled: matches!(stage, PortStage::Cancelled),
        buf: Buf::new(alloc)?,
    });
    if matches!(stage, PortStage::Queued | PortStage::Cancelled) {
        return Ok((guest, worker));
    }
    if let Some(job) = worker.claim()
        && matches!(stage, PortStage::Answered)
    {
        worker.post(Answer {
            number: job.number,
            outcome: Outcome::Done,
            buf: job.buf,
        });
    }
    Ok((guest, worker))
}

fn pull_once(guest: &mut GuestEnd) -> Pulled
    ensures one_port { (guest_view guest.new).which ≡ (guest_view guest.old).which }
{
    match guest.pull() {
        Pull::Free => Pulled::Nothing,
        Pull::Busy => Pulled::Busy,
        Pull::Job(job) if job.number != NUMBER => Pulled::OtherNumber,
        Pull::Job(job) if job.cancelled => Pulled::Cancelled,
        Pull::Job(_) => Pulled::Waiting,
        Pull::Answer(answer) if answer.number != NUMBER => Pulled::OtherNumber,
        Pull::Answer(_) => Pulled::Answer,
    }
}

fn pulls(alloc: Global, stage: PortStage) -> Result<[Pulled; 2], AllocError> {
    let (mut guest, worker) = at(alloc, stage)?;
    let first = pull_once(&mut guest);
    let second = pull_once(&mut guest);
    drop(close(guest, worker));
    Ok([first, second])
}

fn cancel(alloc: Global, stage: PortStage) -> Result<bool, AllocError> {
    let (mut guest, worker) = at(alloc, stage)?;
    let found = guest.cancel();
    drop(close(guest, worker));
    Ok(found)
}

fn collect(alloc: Global, stage: PortStage) -> Result<bool, AllocError> {
    let (mut guest, worker) = at(alloc, stage)?;
    let found = guest.collect().is_some();
    drop(close(guest, worker));
    Ok(found)
}

fn claim(alloc: Global, stage: PortStage) -> Result<bool, AllocError> {
    let (guest, mut worker) = at(alloc, stage)?;
    let found = worker.claim().is_some();
    drop(close(guest, worker));
    Ok(found)
}

fn calls_at(alloc: Global, stage: PortStage) -> Result<Found, AllocError> {
    Ok(Found {
        cancel: cancel(alloc, stage)?,
        collect: collect(alloc, stage)?,
        claim: claim(alloc, stage)?,
        pulls: pulls(alloc, stage)?,
    })
}

const fn row(cancel: bool, collect: bool, claim: bool, first: Pulled, second: Pulled) -> Found {
    Found {
        cancel,
        collect,
        claim,
        pulls: [first, second],
    }
}

#[test]
fn each_call_at_each_stage(rt: HostRuntime) -> Result<(), Fail> {
    let cases = [
        (
            PortStage::Free,
            row(false, false, false, Pulled::Nothing, Pulled::Nothing),
        ),
        (
            PortStage::Queued,
            row(true, false, true, Pulled::Waiting, Pulled::Nothing),
        ),
        (
            PortStage::Cancelled,
            row(true, false, true, Pulled::Cancelled, Pulled::Nothing),
        ),
        (
            PortStage::Claimed,
            row(false, false, false, Pulled::Busy, Pulled::Busy),
        ),
        (
            PortStage::Answered,
            row(false, true, false, Pulled::Answer, Pulled::Nothing),
        ),
    ];
    for (stage, wanted) in cases {
        assert_eq!(rt; calls_at(rt.alloc(), stage)?, wanted);
    }
    Ok(())
}

// Whether the job is claimed as cancelled, if the guest cancels it while it waits.
fn cancelled_job_is_claimed(alloc: Global) -> Result<Option<bool>, AllocError> {
    let (mut guest, mut worker) = at(alloc, PortStage::Queued)?;
    guest.cancel();
    let claimed = worker.claim().map(|job| job.cancelled);
    drop(close(guest, worker));
    Ok(claimed)
}

#[test]
fn a_cancelled_job_is_claimed_as_cancelled(rt: HostRuntime) -> Result<(), Fail> {
    assert_eq!(rt; cancelled_job_is_claimed(rt.alloc())?, Some(true));
    Ok(())
}
