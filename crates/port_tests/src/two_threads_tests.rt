ghost use Rattle.std.specs.Prelude.{◌≡◌, true, None};
ghost use Rattle.crb_shared.specs.Ends.{guest_view, worker_view};

use crb_port::{Answer, Job, Outcome, Port, WorkPort};
use crb_shared::{GuestEnd, SharedPort, WorkerEnd, close};
use std::sync::Wait;
use std::test::Fail;
use std::thread;
use std::thread::Threads;
use vt_base::Buf;

const JOBS: u8 = 50;

// Claims a job if one waits, and answers it by its own bytes, of which the first is one more.
fn work_one(worker: &mut WorkerEnd) -> bool
    requires none_claimed { (worker_view worker.old).claimed_number ≡ None }
    ensures one_port { (worker_view worker.new).which ≡ (worker_view worker.old).which }
    ensures none_claimed { (worker_view worker.new).claimed_number ≡ None }
{
    let Some(mut job) = worker.claim() else {
        return false;
    };
    let first = job.buf.get(0);
    job.buf.set(0, first.wrapping_add(1));
    worker.post(Answer {
        number: job.number,
        outcome: Outcome::Done,
        buf: job.buf,
    });
    true
}

fn work<R: Wait>(rt: &R, mut worker: WorkerEnd) -> WorkerEnd
    requires none_claimed { (worker_view worker).claimed_number ≡ None }
    ensures one_port { (worker_view result).which ≡ (worker_view worker).which }
{
    let mut left = JOBS;
    for _ in rt.forever() {
        if left == 0 {
            return worker;
        }
        if work_one(&mut worker) {
            left -= 1;
        }
    }
    unreachable!()
}

// Queues a job, and asks for its answer until it is there.
fn ask<R: Wait>(rt: &R, guest: &mut GuestEnd, number: u64, buf: Buf) -> Answer
    requires free { (guest_view guest.old).is_free ≡ true }
    ensures one_port { (guest_view guest.new).which ≡ (guest_view guest.old).which }
    ensures free { (guest_view guest.new).is_free ≡ true }
{
    guest.queue(Job {
        number,
        cancelled: false,
        buf,
    });
    for _ in rt.forever() {
        if let Some(answer) = guest.collect() {
            return answer;
        }
    }
    unreachable!()
}

// How many of the answers have the job's number, and the first byte that the worker wrote.
fn drive<R: Wait>(rt: &R, mut guest: GuestEnd, buf: Buf) -> (GuestEnd, u64)
    requires free { (guest_view guest).is_free ≡ true }
    ensures one_port { (guest_view result.0).which ≡ (guest_view guest).which }
{
    let mut buf = buf;
    let mut good: u64 = 0;
    for number in 0..JOBS {
        buf.set(0, number);
        let answer = ask(rt, &mut guest, u64::from(number), buf);
        if answer.number == u64::from(number) && answer.buf.get(0) == number.wrapping_add(1) {
            good = good.wrapping_add(1);
        }
        buf = answer.buf;
    }
    (guest, good)
}

fn run<R: Threads + Wait + Sync>(rt: &R, guest: GuestEnd, worker: WorkerEnd, buf: Buf) -> u64
    requires one_port { (guest_view guest).which ≡ (worker_view worker).which }
    requires free { (guest_view guest).is_free ≡ true }
    requires none_claimed { (worker_view worker).claimed_number ≡ None }
{
    let ((guest, good), worker) = thread::join(
        rt,
        move ||
            requires { (guest_view guest).is_free ≡ true }
            ensures { (guest_view result.0).which ≡ (guest_view guest).which }
        { drive(rt, guest, buf) },
        move ||
            requires { (worker_view worker).claimed_number ≡ None }
            ensures { (worker_view result).which ≡ (worker_view worker).which }
        { work(rt, worker) },
    );
    drop(close(guest, worker));
    good
}

#[test]
fn jobs_between_two_threads(rt: HostRuntime) -> Result<(), Fail> {
    let buf = Buf::new(rt.alloc())?;
    let (guest, worker) = SharedPort::new(rt.alloc())?.ends();
    let good = run(&rt, guest, worker, buf);
    assert_eq!(rt; good, u64::from(JOBS));
    Ok(())
}
