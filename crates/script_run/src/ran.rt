//! What a run answers.
ghost use Rattle.std.specs.Prelude.{◌≡◌, unwrap_or};
ghost use Rattle.script_run.specs.Ends.{end_by};

use crb_port::PlainPort;
use vt_base::Status;
use vt_world::{Pair, World};

/// What a run answers.
#[derive(Drop)]
pub struct Ran {
    /// How it ended.
    pub status: Status,
    /// What it hands out.
    pub end: End,
}

/// What a run hands out at its end.
#[derive(Drop)]
pub enum End {
    /// Nothing: the run ended early, or it has nothing to hand out.
    Nothing,
    /// The world that did all lines of `replay` or `resume`.
    World(World),
    /// The two hosts on which all drive lines were done.
    Pair(Pair<PlainPort>),
}

/// The status of a run whose loop ended so: `Ok` where all lines were done.
pub(crate) fn status_of(end: Option<Status>) -> Status
    ensures { result ≡ unwrap_or end Status.Ok }
{
    match end {
        None => Status::Ok,
        Some(status) => status,
    }
}

impl Ran {
    // A run on hosts, which hands them out where it ended well.
    pub(crate) fn on_hosts(status: Status, hosts: End) -> Ran
        ensures status { result.status ≡ status }
        ensures hosts { result.end ≡ end_by status hosts }
    {
        let end = match status {
            Status::Ok => hosts,
            _ => {
                drop(hosts);
                End::Nothing
            }
        };
        Ran { status, end }
    }
}
