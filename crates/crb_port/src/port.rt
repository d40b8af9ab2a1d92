//! The two ends of a port.
ghost use Rattle.std.specs.Prelude.{◌≡◌, true, Some};
ghost use Rattle.crb_port.specs.Calls.{Queues, Cancels, Collects, Pulls, Claims, Posts};

use crate::job::{Answer, Job, Pull};

/// What contracts see of a port, or of a value that stands over one. `Rest` and `rest` are what such a value has beside
/// its port, and what the calls of an end leave as it is.
pub trait PortModel {
    ghost use Rattle.std.specs.Prelude.{◌⊎◌, IsSome};
    ghost use Rattle.crb_port.specs.Views.{PortView, IsExact};

    ghost port_view: { Self → PortView };

    ghost Rest: { Type 0 };

    ghost rest: { Self → Rest };

    // Its state is known, or what its steps found.
    ghost state_or_looks: { (p : Self) → IsSome (port_view p).state ⊎ IsSome (port_view p).looks };

    // A known state says whether the port is free, and which number is claimed.
    ghost exact: { (p : Self) → IsExact (port_view p) };
}

/// The guest's end.
pub trait Port: PortModel {
    /// Puts a job in, as cancelled or not by its field.
    fn queue(&mut self, job: Job)
        requires free { (Self.port_view self.old).is_free ≡ true }
        ensures queues { Queues (Self.port_view self.old) job (Self.port_view self.new) }
        ensures rest_unchanged { Self.rest self.new ≡ Self.rest self.old };

    /// Cancels the job that waits. False comes exactly where, at the step of this call, no unclaimed job stood; a job that
    /// is cancelled already gives true.
    fn cancel(&mut self) -> bool
        ensures cancels { Cancels (Self.port_view self.old) result (Self.port_view self.new) }
        ensures rest_unchanged { Self.rest self.new ≡ Self.rest self.old };

    /// Takes the answer, and leaves the port free. `None` comes exactly where, at the step of this call, no answer stood.
    fn collect(&mut self) -> Option<Answer>
        ensures collects { Collects (Self.port_view self.old) result (Self.port_view self.new) }
        ensures rest_unchanged { Self.rest self.new ≡ Self.rest self.old };

    /// Takes the job or the answer back, and leaves the port free. `Busy` comes only where, at a step of this call, the
    /// job was claimed.
    fn pull(&mut self) -> Pull
        ensures pulls { Pulls (Self.port_view self.old) result (Self.port_view self.new) }
        ensures rest_unchanged { Self.rest self.new ≡ Self.rest self.old };
}

/// The worker's end.
pub trait WorkPort: PortModel {
    /// Claims the job that waits. `None` comes only where, at the first step of this call, no unclaimed job stood, or the
    /// guest cancelled or pulled it between two steps: so over a free port, and while the job is claimed, whose number
    /// stays the claimed one.
    fn claim(&mut self) -> Option<Job>
        ensures claims { Claims (Self.port_view self.old) result (Self.port_view self.new) }
        ensures rest_unchanged { Self.rest self.new ≡ Self.rest self.old };

    /// Posts the answer to the claimed job.
    fn post(&mut self, answer: Answer)
        requires claimed_number { (Self.port_view self.old).claimed_number ≡ Some answer.number }
        ensures posts { Posts (Self.port_view self.old) answer (Self.port_view self.new) }
        ensures rest_unchanged { Self.rest self.new ≡ Self.rest self.old };
}
