//! Jobs, answers, and the port between a guest's device and a worker.
//!
//! The device queues a [`Job`] at its end, a [`Port`]; the worker claims it at the other end, a [`WorkPort`], and posts
//! an [`Answer`] with the buffer that left with the job. Until the claim the device can cancel the job or pull it back.
//! Both ends say what they do by the same [`PortModel`], so that a value may be one end or both: a [`PlainPort`] is
//! both.
#![tactic(auto)]

mod job;
mod laws;
mod plain;
mod port;

pub use job::{Answer, Job, Outcome, PortStage, PortState, Pull};
pub use laws::claims_need_a_waiting_job;
pub use plain::PlainPort;
pub use port::{Port, PortModel, WorkPort};
