//! The worker.
ghost use Rattle.std.specs.Prelude.{◌≡◌, Some, None, true, false};
ghost use Rattle.tpm_frame.specs.Frame.{short};
ghost use Rattle.crb_port.specs.Calls.{Posts};
ghost use Rattle.crb_worker.specs.Heads.{is_head as IsHead};
ghost use Rattle.crb_worker.specs.Progress.{HasClaimed, claimed_number_of, holds_head, calls_wires};
ghost use Rattle.crb_worker.specs.Wires.{worker_wires};
ghost use Rattle.crb_worker.specs.Steps.{WorkerStep, WithoutJob, WithClaimed, WithSent, WithHeader, answered, is_longer, lost};

use crate::progress::{Progress, Step};
use crate::receiving::{hold_response, is_head, receive_head};
use crb_port::{Answer, Job, Outcome, WorkPort};
use ctrl_client::Wires;
use std::marker::Model;
use std::mem;
use tpm_frame::{CANCELED, HEADER_SIZE, first_frame, write_short};
use vt_base::Chan;

/// A worker; seen as how far it is with its job.
#[derive(Debug, Drop)]
pub struct Worker {
    progress: Progress,
}

impl Model for Worker {
    ghost use Rattle.std.specs.Prelude.{◌≡◌, true};
    ghost use Rattle.crb_worker.specs.Progress.{holds_head};
    ghost use Rattle.crb_worker.specs.declared.progress.Progress.{Progress};

    ghost Value = { Progress };

    ghost view = { λ w. w.progress };

    ghost invariant = { λ w. holds_head w.progress ≡ true };
}

impl Worker {
    /// A worker without a job.
    pub fn new() -> Worker
        ensures free { result ≡ Progress.Free }
    {
        Worker {
            progress: Progress::Free,
        }
    }

    /// Takes the claimed job one step further, or claims one. A claimed job needs the end of the port that claimed it
    /// and hasn't posted its answer. Without a job any port will do. If another worker's job is claimed there, none is
    /// claimed. No memory is taken: the job's buffer goes back with the answer.
    pub fn step<P: WorkPort, W: Wires>(&mut self, port: &mut P, wires: &mut W) -> Step
        requires claimed_number { HasClaimed self.old (P.port_view port.old) }
        ensures works { let before = worker_wires W.fails W.later (W.link wires.old) (W.schedule wires.old) (W.faults wires.old) (W.traffic wires.old) in
            let after = worker_wires W.fails W.later (W.link wires.new) (W.schedule wires.new) (W.faults wires.new) (W.traffic wires.new) in
            WorkerStep self.old (P.port_view port.old) before result self.new (P.port_view port.new) after }

        // Where there is nothing to send or to receive, the wires aren't touched.
        ensures untouched { calls_wires self.old ≡ false → wires.new ≡ wires.old }

        // What the next step needs.
        ensures next { HasClaimed self.new (P.port_view port.new) }
        ensures claimed_number { (P.port_view port.old).claimed_number ≡ claimed_number_of self.old → (P.port_view port.new).claimed_number ≡ claimed_number_of self.new }
        ensures head { holds_head self.new ≡ true }
        ensures rest_unchanged { P.rest port.new ≡ P.rest port.old }
        ensures uncut { W.cuts wires.new ≡ W.cuts wires.old }
    {
        match mem::replace(&mut self.progress, Progress::Free) {
            Progress::Free => self.claim(port),
            Progress::Claimed(job) => self.send(job, port, wires),
            Progress::Sent(job) => self.run(job, port, wires),
            Progress::HeaderReceived(job, head) => self.finish(job, &head, port, wires),
        }
    }

    // Claims a job, if one waits.
    fn claim<P: WorkPort>(&mut self, port: &mut P) -> Step
        requires free { self.old ≡ Progress.Free }
        ensures works { WithoutJob (P.port_view port.old) result self.new (P.port_view port.new) }
        ensures next { HasClaimed self.new (P.port_view port.new) }
        ensures claimed_number { (P.port_view port.old).claimed_number ≡ None → (P.port_view port.new).claimed_number ≡ claimed_number_of self.new }
        ensures head { holds_head self.new ≡ true }
        ensures rest_unchanged { P.rest port.new ≡ P.rest port.old }
    {
        match port.claim() {
            Some(job) => {
                let number = job.number;
                self.progress = Progress::Claimed(job);
                Step::Claim(number)
            }
            None => Step::Idle,
        }
    }

    // Sends the command of a claimed job, or answers a job that was cancelled.
    fn send<P: WorkPort, W: Wires>(&mut self, job: Job, port: &mut P, wires: &mut W) -> Step
        requires free { self.old ≡ Progress.Free }
        requires claimed_number { (P.port_view port.old).claimed_number ≡ Some job.number }
        ensures works { let before = worker_wires W.fails W.later (W.link wires.old) (W.schedule wires.old) (W.faults wires.old) (W.traffic wires.old) in
            let after = worker_wires W.fails W.later (W.link wires.new) (W.schedule wires.new) (W.faults wires.new) (W.traffic wires.new) in
            WithClaimed job (P.port_view port.old) before result self.new (P.port_view port.new) after }
        ensures untouched { job.cancelled ≡ true → wires.new ≡ wires.old }
        ensures claimed_number { (P.port_view port.new).claimed_number ≡ claimed_number_of self.new }
        ensures head { holds_head self.new ≡ true }
        ensures rest_unchanged { P.rest port.new ≡ P.rest port.old }
        ensures uncut { W.cuts wires.new ≡ W.cuts wires.old }
    {
        if job.cancelled {
            return answer_cancelled(job, port);
        }
        let sent = wires.send(Chan::Data, first_frame(job.buf.bytes()));
        if sent.is_err() {
            return give_up(job, port);
        }
        let number = job.number;
        self.progress = Progress::Sent(job);
        Step::Sent(number)
    }

    // Receives the header of the response to a command that was sent.
    fn run<P: WorkPort, W: Wires>(&mut self, job: Job, port: &mut P, wires: &mut W) -> Step
        requires free { self.old ≡ Progress.Free }
        requires claimed_number { (P.port_view port.old).claimed_number ≡ Some job.number }
        ensures works { let before = worker_wires W.fails W.later (W.link wires.old) (W.schedule wires.old) (W.faults wires.old) (W.traffic wires.old) in
            let after = worker_wires W.fails W.later (W.link wires.new) (W.schedule wires.new) (W.faults wires.new) (W.traffic wires.new) in
            WithSent job (P.port_view port.old) before result self.new (P.port_view port.new) after }
        ensures claimed_number { (P.port_view port.new).claimed_number ≡ claimed_number_of self.new }
        ensures head { holds_head self.new ≡ true }
        ensures rest_unchanged { P.rest port.new ≡ P.rest port.old }
        ensures uncut { W.cuts wires.new ≡ W.cuts wires.old }
    {
        let Ok(head) = receive_head(wires) else {
            return give_up(job, port);
        };
        if !is_head(&head) {
            return give_up(job, port);
        }
        let number = job.number;
        self.progress = Progress::HeaderReceived(job, head);
        Step::Exec(number)
    }

    // Receives the rest of the response, and posts the answer.
    fn finish<P: WorkPort, W: Wires>(
        &mut self,
        job: Job,
        head: &[u8; HEADER_SIZE],
        port: &mut P,
        wires: &mut W,
    ) -> Step
        requires free { self.old ≡ Progress.Free }
        requires claimed_number { (P.port_view port.old).claimed_number ≡ Some job.number }
        requires head { IsHead head.now ≡ true }
        ensures works { let before = worker_wires W.fails W.later (W.link wires.old) (W.schedule wires.old) (W.faults wires.old) (W.traffic wires.old) in
            let after = worker_wires W.fails W.later (W.link wires.new) (W.schedule wires.new) (W.faults wires.new) (W.traffic wires.new) in
            WithHeader job head.now (P.port_view port.old) before result self.new (P.port_view port.new) after }
        ensures untouched { is_longer head.now ≡ false → wires.new ≡ wires.old }
        ensures claimed_number { (P.port_view port.new).claimed_number ≡ claimed_number_of self.new }
        ensures holds { holds_head self.new ≡ true }
        ensures rest_unchanged { P.rest port.new ≡ P.rest port.old }
        ensures uncut { W.cuts wires.new ≡ W.cuts wires.old }
    {
        let number = job.number;
        let mut job = job;
        let Ok(cancelled) = hold_response(head, &mut job.buf, wires) else {
            return give_up(job, port);
        };
        if cancelled {
            port.post(Answer {
                number,
                outcome: Outcome::Cancelled,
                buf: job.buf,
            });
            return Step::Cancelled(number);
        }
        port.post(Answer {
            number,
            outcome: Outcome::Done,
            buf: job.buf,
        });
        Step::Done(number)
    }
}

// Answers a job that was cancelled.
fn answer_cancelled<P: WorkPort>(job: Job, port: &mut P) -> Step
    requires claimed_number { (P.port_view port.old).claimed_number ≡ Some job.number }
    ensures step { result ≡ Step.Cancelled job.number }
    ensures posted { Posts (P.port_view port.old) (answered job Outcome.Cancelled (short CANCELED)) (P.port_view port.new) }
    ensures rest_unchanged { P.rest port.new ≡ P.rest port.old }
{
    let number = job.number;
    let mut buf = job.buf;
    write_short(CANCELED, &mut buf);
    port.post(Answer {
        number,
        outcome: Outcome::Cancelled,
        buf,
    });
    Step::Cancelled(number)
}

// Gives a job up: the answer says that it is lost, and its buffer goes back as it came.
fn give_up<P: WorkPort>(job: Job, port: &mut P) -> Step
    requires claimed_number { (P.port_view port.old).claimed_number ≡ Some job.number }
    ensures step { result ≡ Step.Lost job.number }
    ensures posted { Posts (P.port_view port.old) (lost job) (P.port_view port.new) }
    ensures rest_unchanged { P.rest port.new ≡ P.rest port.old }
{
    let number = job.number;
    port.post(Answer {
        number,
        outcome: Outcome::Lost,
        buf: job.buf,
    });
    Step::Lost(number)
}
