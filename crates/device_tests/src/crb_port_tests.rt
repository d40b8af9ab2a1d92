ghost use Rattle.std.specs.Prelude.{◌≡◌, ◌≢◌, true, false, None, IfOk};
ghost use Rattle.crb_port.specs.Views.{claimed_number_in};

use crb_port::*;
use std::alloc::{AllocError, Global};
use std::test::*;
use vt_base::Buf;

const NUMBER: u64 = 7;

// A port at a stage, with the job of `NUMBER`.
fn at(alloc: Global, stage: PortStage) -> Result<PlainPort, AllocError>
    ensures { IfOk result (λ p. stage ≢ PortStage.Claimed → claimed_number_in p ≡ None) }
{
    let mut port = PlainPort::new();
    if let PortStage::Free = stage {
        return Ok(port);
    }
    port.queue(Job {
        number: NUMBER,
        cancelled: matches!(stage, PortStage::Cancelled),
        buf: Buf::new(alloc)?,
    });
    if let PortStage::Queued | PortStage::Cancelled = stage {
        return Ok(port);
    }
    if let Some(job) = port.claim()
        && let PortStage::Answered = stage
    {
        port.post(Answer {
            number: job.number,
            outcome: Outcome::Done,
            buf: job.buf,
        });
    }
    Ok(port)
}

// What a pull brings back.
#[derive(Clone, Copy, Debug, PartialEq, Eq)]
enum Bench {
    Nothing,
    Waiting,
    Cancelled,
    Done,
    Busy,
    OtherNumber,
}

fn pulled(port: &mut PlainPort) -> Bench {
    match port.pull() {
        Pull::Free => Bench::Nothing,
        Pull::Busy => Bench::Busy,
        Pull::Job(job) if job.number != NUMBER => Bench::OtherNumber,
        Pull::Job(job) if job.cancelled => Bench::Cancelled,
        Pull::Job(_) => Bench::Waiting,
        Pull::Answer(answer) if answer.number != NUMBER => Bench::OtherNumber,
        Pull::Answer(_) => Bench::Done,
    }
}

// What a cancel answers at a stage, and what is left.
fn cancelled(alloc: Global, stage: PortStage) -> Result<(bool, Bench), AllocError> {
    let mut port = at(alloc, stage)?;
    Ok((port.cancel(), pulled(&mut port)))
}

// Whether a collect finds an answer at a stage, and what is left.
fn collected(alloc: Global, stage: PortStage) -> Result<(bool, Bench), AllocError> {
    let mut port = at(alloc, stage)?;
    Ok((port.collect().is_some(), pulled(&mut port)))
}

// What two pulls bring back at a stage.
fn pulled_twice(alloc: Global, stage: PortStage) -> Result<(Bench, Bench), AllocError> {
    let mut port = at(alloc, stage)?;
    Ok((pulled(&mut port), pulled(&mut port)))
}

// Whether a claim finds a job at a stage where none is claimed, and what is left.
fn claimed(alloc: Global, stage: PortStage) -> Result<(bool, Bench), AllocError>
    requires { stage ≢ PortStage.Claimed }
{
    let mut port = at(alloc, stage)?;
    Ok((port.claim().is_some(), pulled(&mut port)))
}

#[test]
fn cancel_answers_true_only_for_a_waiting_job(rt: HostRuntime) -> Result<(), Fail> {
    let cases = [
        (PortStage::Free, (false, Bench::Nothing)),
        (PortStage::Queued, (true, Bench::Cancelled)),
        (PortStage::Cancelled, (true, Bench::Cancelled)),
        (PortStage::Claimed, (false, Bench::Busy)),
        (PortStage::Answered, (false, Bench::Done)),
    ];
    for (stage, wanted) in cases {
        assert_eq!(rt; cancelled(rt.alloc(), stage)?, wanted);
    }
    Ok(())
}

#[test]
fn collect_gives_only_an_answer(rt: HostRuntime) -> Result<(), Fail> {
    let cases = [
        (PortStage::Free, (false, Bench::Nothing)),
        (PortStage::Queued, (false, Bench::Waiting)),
        (PortStage::Cancelled, (false, Bench::Cancelled)),
        (PortStage::Claimed, (false, Bench::Busy)),
        (PortStage::Answered, (true, Bench::Nothing)),
    ];
    for (stage, wanted) in cases {
        assert_eq!(rt; collected(rt.alloc(), stage)?, wanted);
    }
    Ok(())
}

#[test]
fn pull_takes_all_but_a_claimed_job(rt: HostRuntime) -> Result<(), Fail> {
    let cases = [
        (PortStage::Free, (Bench::Nothing, Bench::Nothing)),
        (PortStage::Queued, (Bench::Waiting, Bench::Nothing)),
        (PortStage::Cancelled, (Bench::Cancelled, Bench::Nothing)),
        (PortStage::Claimed, (Bench::Busy, Bench::Busy)),
        (PortStage::Answered, (Bench::Done, Bench::Nothing)),
    ];
    for (stage, wanted) in cases {
        assert_eq!(rt; pulled_twice(rt.alloc(), stage)?, wanted);
    }
    Ok(())
}

// The same at each stage where none is claimed.
fn claimed_at_each(alloc: Global) -> Result<[(bool, Bench); 4], AllocError> {
    Ok([
        claimed(alloc, PortStage::Free)?,
        claimed(alloc, PortStage::Queued)?,
        claimed(alloc, PortStage::Cancelled)?,
        claimed(alloc, PortStage::Answered)?,
    ])
}

#[test]
fn claim_takes_only_a_waiting_job(rt: HostRuntime) -> Result<(), Fail> {
    let wanted = [
        (false, Bench::Nothing),
        (true, Bench::Busy),
        (true, Bench::Busy),
        (false, Bench::Done),
    ];
    assert!(rt; claimed_at_each(rt.alloc())? == wanted);
    Ok(())
}

// Has a job go through a port that is both ends, and gives its number.
fn pass<P: Port + WorkPort>(port: &mut P, job: Job) -> Option<u64>
    requires free { (P.port_view port.old).is_free ≡ true }
{
    port.queue(job);
    let job = port.claim()?;
    port.post(Answer {
        number: job.number,
        outcome: Outcome::Lost,
        buf: job.buf,
    });
    port.collect().map(|answer| answer.number)
}

#[test]
fn a_job_goes_through_any_port(rt: HostRuntime) -> Result<(), Fail> {
    let mut port = PlainPort::new();
    let mut buf = Buf::new(rt.alloc())?;
    buf.set(0, 1);
    let job = Job {
        number: NUMBER,
        cancelled: false,
        buf,
    };
    assert_eq!(rt; pass(&mut port, job), Some(NUMBER));
    Ok(())
}
