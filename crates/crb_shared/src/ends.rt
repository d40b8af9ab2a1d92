//! The two ends.
ghost use Rattle.std.specs.Prelude.{◌≡◌, true, [], None, Some};
ghost use Rattle.std.specs.Arc.{arc_value};
ghost use Rattle.crb_shared.specs.declared.rule.SeatRole.TheVariants.{Guest, Worker};
ghost use Rattle.crb_shared.specs.declared.rule.SeatPhase.TheVariants.{Away, Holding};
ghost use Rattle.crb_shared.specs.Rule.{name_of_table, is_between};
ghost use Rattle.crb_shared.specs.Plays.{slots_of};
ghost use Rattle.crb_shared.specs.Steps.{IsSeatOf};

use crate::rule::{PortTable, TableSeat};
use crate::steps;
use crb_port::{Answer, Job, Port, PortModel, PortStage, Pull, WorkPort};
use std::alloc::{AllocError, Global};
use std::sync::Arc;

/// The guest's end. Its lists and what its steps found are known to contracts; what stands in the port is not, since the
/// worker may change that at any time.
#[derive(Drop)]
pub struct GuestEnd {
    table: Arc<PortTable>,
    seat: TableSeat,
    ghost seat_of: { IsSeatOf (arc_value table).shared.table_id seat.table_id },
    ghost table_name: { seat.me.0.table_name ≡ name_of_table (arc_value table).shared.table_id },
    ghost role: { seat.me.0.role ≡ Guest },
    ghost between: { is_between seat.me.0.phase ≡ true },
    ghost slots: { seat.me.1 ≡ slots_of seat.me.0.phase },
}

impl PortModel for GuestEnd {
    ghost use Rattle.std.proofs.Common.{inr, refl};
    ghost use Rattle.crb_shared.specs.Ends.{guest_view};

    ghost port_view = { guest_view };

    ghost Rest = { Unit {0} };

    ghost rest = { λ _. tt };

    ghost state_or_looks = { λ _. inr refl };

    ghost exact = { λ _. tt };
}

impl Port for GuestEnd {
    fn queue(&mut self, job: Job) {
        steps::queue(&self.table, &mut self.seat, job);
    }

    fn cancel(&mut self) -> bool {
        match steps::cancel(&self.table, &mut self.seat) {
            PortStage::Queued | PortStage::Cancelled => true,
            _ => false,
        }
    }

    fn collect(&mut self) -> Option<Answer> {
        match steps::guest_look(&self.table, &mut self.seat) {
            PortStage::Answered => Some(steps::take_answer(&self.table, &mut self.seat)),
            _ => None,
        }
    }

    // The worker may claim the job between the two steps, or even answer it. An answer stays until the guest takes it.
    fn pull(&mut self) -> Pull {
        match steps::guest_look(&self.table, &mut self.seat) {
            PortStage::Free => Pull::Free,
            PortStage::Claimed => Pull::Busy,
            PortStage::Answered => Pull::Answer(steps::take_answer(&self.table, &mut self.seat)),
            waiting => match steps::take_job(&self.table, &mut self.seat, waiting) {
                Ok(job) => Pull::Job(job),
                Err(PortStage::Claimed) => Pull::Busy,
                Err(_) => Pull::Answer(steps::take_answer(&self.table, &mut self.seat)),
            },
        }
    }
}

impl GuestEnd {
    pub(crate) fn into_parts(self) -> (Arc<PortTable>, TableSeat)
        ensures table { arc_value result.0 ≡ arc_value self.table }
        ensures seat { result.1 ≡ self.seat }
    {
        let GuestEnd { table, seat } = self;
        (table, seat)
    }
}

/// The worker's end. Its lists and what its steps found are known to contracts.
#[derive(Drop)]
pub struct WorkerEnd {
    table: Arc<PortTable>,
    seat: TableSeat,
    ghost seat_of: { IsSeatOf (arc_value table).shared.table_id seat.table_id },
    ghost table_name: { seat.me.0.table_name ≡ name_of_table (arc_value table).shared.table_id },
    ghost role: { seat.me.0.role ≡ Worker },
    ghost between: { is_between seat.me.0.phase ≡ true },
    ghost slots: { seat.me.1 ≡ slots_of seat.me.0.phase },
}

impl PortModel for WorkerEnd {
    ghost use Rattle.std.proofs.Common.{inr, refl};
    ghost use Rattle.crb_shared.specs.Ends.{worker_view};

    ghost port_view = { worker_view };

    ghost Rest = { Unit {0} };

    ghost rest = { λ _. tt };

    ghost state_or_looks = { λ _. inr refl };

    ghost exact = { λ _. tt };
}

impl WorkPort for WorkerEnd {
    fn claim(&mut self) -> Option<Job> {
        let found = steps::worker_look(&self.table, &mut self.seat);
        match found {
            PortStage::Queued | PortStage::Cancelled => match steps::claim(
                &self.table,
                &mut self.seat,
                found,
            ) {
                Ok(job) => Some(job),
                Err(_) => None,
            },
            _ => None,
        }
    }

    fn post(&mut self, answer: Answer) {
        steps::post(&self.table, &mut self.seat, answer);
    }
}

impl WorkerEnd {
    pub(crate) fn into_seat(self) -> TableSeat
        ensures seat { result ≡ self.seat }
    {
        let WorkerEnd { table: _, seat } = self;
        seat
    }
}

/// A new port, with its two ends.
#[derive(Drop)]
pub struct SharedPort {
    guest: GuestEnd,
    worker: WorkerEnd,
    ghost same: { worker.seat.table_id ≡ guest.seat.table_id },
    ghost free: { guest.seat.me.0.phase ≡ Holding },
    ghost idle: { worker.seat.me.0.phase ≡ Away },
    ghost looks: { (guest.seat.me.0.looks ≡ []) × (worker.seat.me.0.looks ≡ []) },
    ghost guest_lists: { (guest.seat.me.0.jobs ≡ []) × (guest.seat.me.0.answers ≡ []) },
    ghost worker_lists: { (worker.seat.me.0.jobs ≡ []) × (worker.seat.me.0.answers ≡ []) },
}

impl SharedPort {
    ghost use Rattle.crb_shared.specs.Ends.{guest_view, worker_view};

    /// A free port. All the memory that it needs is taken here: the table, and the handles of both ends.
    pub fn new(alloc: Global) -> Result<SharedPort, AllocError> {
        let (table, seat) = PortTable::vacant(alloc, &[0], 1, &())?;
        let Ok(table) = Arc::new(alloc, table) else {
            return Err(AllocError);
        };
        let other = Arc::try_clone(&table)?;
        let (guest, worker) = steps::open(&table, seat);
        Ok(SharedPort {
            guest: GuestEnd { table, seat: guest },
            worker: WorkerEnd {
                table: other,
                seat: worker,
            },
        })
    }

    /// The two ends of the port: it is free, no job is claimed, and nothing went through it.
    pub fn ends(self) -> (GuestEnd, WorkerEnd)
        ensures one_port { (guest_view result.0).which ≡ (worker_view result.1).which }
        ensures free { (guest_view result.0).is_free ≡ true }
        ensures none_claimed { (worker_view result.1).claimed_number ≡ None }
        ensures no_looks { ((guest_view result.0).looks ≡ Some []) × ((worker_view result.1).looks ≡ Some []) }
        ensures guest_lists_empty { ((guest_view result.0).queued ≡ Some []) × ((guest_view result.0).collected ≡ Some []) }
        ensures worker_lists_empty { ((worker_view result.1).claimed ≡ Some []) × ((worker_view result.1).posted ≡ Some []) }
    {
        let SharedPort { guest, worker } = self;
        (guest, worker)
    }
}
