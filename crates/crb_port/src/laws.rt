//! Laws of the calls of a port.
ghost use Rattle.std.specs.Prelude.{◌≡◌, true, Some, None, Option, ℕ};
ghost use Rattle.crb_port.specs.Views.{PortView};
ghost use Rattle.crb_port.specs.Calls.{Claims};
ghost use Rattle.crb_port.specs.declared.job.Job.{Job};

/// Whatever a port says of itself: over a free one, and over one whose job is claimed, a claim answers `None`, and the
/// number that is claimed stays so.
pub fn claims_need_a_waiting_job()
    ensures free { (k l : PortView) (answer : Option Job) → Claims k answer l → k.is_free ≡ true → answer ≡ None }
    ensures claimed { (k l : PortView) (answer : Option Job) (number : ℕ) → Claims k answer l → k.claimed_number ≡ Some number
        → (answer ≡ None) × (l.claimed_number ≡ Some number) }
{}
