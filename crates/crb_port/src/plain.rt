//! Both ends in one value.
ghost use Rattle.std.specs.Prelude.{◌≡◌};

use crate::job::{Answer, Job, PortState, Pull};
use crate::port::{Port, PortModel, WorkPort};
use std::marker::Model;
use std::mem;

/// Both ends of a port in one value, for one thread. To a contract it is what stands in it, so each answer is exact.
#[derive(Debug, Drop)]
pub struct PlainPort {
    port_state: PortState,
}

impl Model for PlainPort {
    ghost use Rattle.crb_port.specs.declared.job.PortState.{PortState};

    ghost Value = { PortState };

    ghost view = { λ p. p.port_state };
}

impl PlainPort {
    /// A free port.
    pub fn new() -> PlainPort
        ensures free { result ≡ PortState.Nothing }
    {
        PlainPort {
            port_state: PortState::Nothing,
        }
    }
}

impl PortModel for PlainPort {
    ghost use Rattle.std.proofs.Common.{inl, refl};
    ghost use Rattle.crb_port.specs.Plain.{plain, plain_is_exact};

    ghost port_view = { plain };

    ghost Rest = { Unit {0} };

    ghost rest = { λ _. tt };

    ghost state_or_looks = { λ _. inl refl };

    ghost exact = { plain_is_exact };
}

impl Port for PlainPort {
    fn queue(&mut self, job: Job) {
        self.port_state = PortState::Waiting(job);
    }

    fn cancel(&mut self) -> bool {
        match &mut self.port_state {
            PortState::Waiting(job) => {
                job.cancelled = true;
                true
            }
            _ => false,
        }
    }

    fn collect(&mut self) -> Option<Answer> {
        match mem::replace(&mut self.port_state, PortState::Nothing) {
            PortState::Answered(answer) => Some(answer),
            other => {
                self.port_state = other;
                None
            }
        }
    }

    fn pull(&mut self) -> Pull {
        match mem::replace(&mut self.port_state, PortState::Nothing) {
            PortState::Nothing => Pull::Free,
            PortState::Waiting(job) => Pull::Job(job),
            PortState::Claimed(number) => {
                self.port_state = PortState::Claimed(number);
                Pull::Busy
            }
            PortState::Answered(answer) => Pull::Answer(answer),
        }
    }
}

impl WorkPort for PlainPort {
    fn claim(&mut self) -> Option<Job> {
        match mem::replace(&mut self.port_state, PortState::Nothing) {
            PortState::Waiting(job) => {
                self.port_state = PortState::Claimed(job.number);
                Some(job)
            }
            other => {
                self.port_state = other;
                None
            }
        }
    }

    fn post(&mut self, answer: Answer) {
        self.port_state = PortState::Answered(answer);
    }
}
