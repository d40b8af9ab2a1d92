//! Laws of the steps of one worker.

ghost use Rattle.std.specs.Prelude.{◌≡◌, ◌≤◌, ◌++◌, ◌⊎◌, ℕ, List, length, true, []};
ghost use Rattle.vt_base.specs.Faults.{IsCounted};
ghost use Rattle.crb_port.specs.Views.{PortView};
ghost use Rattle.crb_port.specs.declared.job.Job.{Job};
ghost use Rattle.crb_worker.specs.declared.progress.Progress.{Progress};
ghost use Rattle.crb_worker.specs.declared.progress.Progress.TheVariants.{Claimed};
ghost use Rattle.crb_worker.specs.declared.progress.Step.{Step};
ghost use Rattle.crb_worker.specs.declared.progress.Step.TheVariants.{Lost};
ghost use Rattle.crb_worker.specs.Wires.{WorkerWires};
ghost use Rattle.crb_worker.specs.Steps.{WorkerStep, ReceivesNoHead};
ghost use Rattle.crb_worker.specs.Runs.{Moment, Runs, SendsThese, ClaimsNoJob, sent_with, sent_count, commands_of};

use ctrl_client::Wires;

/// What a step sends is determined by the progress before it: the command of a claimed job that isn't cancelled, in one
/// send, and with any other progress nothing.
pub fn a_step_sends_once<W: Wires>()
    ensures { (p q : Progress) (k l : PortView) (w v : WorkerWires W.Schedule) (step : Step)
        → WorkerStep p k w step q l v → SendsThese (sent_with p) w v }
{}

/// A job's command is sent at most once, also where the send fails. A job that was cancelled before its claim is never
/// sent.
pub fn a_job_is_sent_once<W: Wires>()
    // The steps of one job are any of a run among which no other job is claimed.
    ensures once { (p q : Progress) (before job after : List Moment) → Runs W.Schedule p (before ++ job ++ after) q → ClaimsNoJob job
        → (sent_count job ≤ 1) × (length (commands_of job) ≤ 1) }
    ensures cancelled { (claimed : Job) (q : Progress) (job after : List Moment) → Runs W.Schedule (Claimed claimed) (job ++ after) q
        → ClaimsNoJob job → claimed.cancelled ≡ true → (sent_count job ≡ 0) × (commands_of job ≡ []) }
{}

/// A job is lost only where a call on the wires failed in that step, or where ten bytes came that are no header of a
/// response.
pub fn a_lost_job_has_its_cause<W: Wires>()
    ensures { (p q : Progress) (k l : PortView) (w v : WorkerWires W.Schedule) (number : ℕ)
        → WorkerStep p k w (Lost number) q l v → IsCounted w.faults v.faults ⊎ ReceivesNoHead w v }
{}
