//! Laws of transcripts.
ghost use Rattle.std.specs.Prelude.{◌≡◌, ◌≢◌, ◌+◌, ◌≤◌, List, ◌++◌, map, Some, None};
ghost use Rattle.crb_regs.specs.declared.phase.Phase.TheVariants.{Execution, Lost};
ghost use Rattle.crb_history.specs.Snapshot.{Snapshot};
ghost use Rattle.crb_history.specs.Device.{phase_of, number_of};
ghost use Rattle.vt_script.specs.declared.event.Event.{Event as Line};
ghost use Rattle.vt_transcript.specs.Replies.{Transcript, IsRun, line_of, injected_fault_of, history};
ghost use Rattle.vt_transcript.specs.Plain.{ArePlain, plain, plain_history};
ghost use Rattle.crb_history.specs.Continued.{snapshot_after, MaySuspend};
ghost use Rattle.vt_transcript.specs.Endings.{LetGoOn, step_count, HasEnd};
ghost use Rattle.tpm_core.specs.Steps.{IsValid};

/// Lines that let no call fail have one run: each reply follows from the lines before it. No device is lost in it.
pub fn plain_runs_are_one()
    ensures run { (b : Snapshot) (lines : List Line) (t : Transcript) → ArePlain lines → map line_of t ≡ map Some lines
        → IsRun b t → t ≡ plain b lines }
    ensures unordered { (b : Snapshot) (lines : List Line) → ArePlain lines → injected_fault_of (plain b lines) ≡ None }
    ensures working { (b : Snapshot) (lines : List Line) → ArePlain lines → b.device.phase ≢ Lost
        → phase_of b (plain_history b lines) ≢ Lost }
{}

/// Lines have one run, whichever calls are to fail: each reply follows from the lines and the replies before it.
pub fn runs_are_one()
    ensures { (b : Snapshot) (t u : Transcript) → map line_of t ≡ map line_of u → IsRun b t → IsRun b u → t ≡ u }
{}

/// A run to a point where the guest may be suspended, at which no call is to fail, and a run from the values at that point are
/// one run: each reply of the second is the one that its line has in the run of both.
pub fn runs_continue()
    ensures { (b : Snapshot) (t more : Transcript) → IsValid b.tpm → IsRun b t → MaySuspend b (history b t) → injected_fault_of t ≡ None
        → IsRun (snapshot_after b (history b t)) more → IsRun b (more ++ t) }
{
    tpm_core::laws::pasts_join();
}

/// A command that is under way ends within four steps of the worker where no call is to fail: one of the replies says that it
/// is done or cancelled, whatever accesses and cancels come between the steps. A reset would end it otherwise.
pub fn commands_end()
    ensures { (b : Snapshot) (t more : Transcript) → IsRun b (more ++ t) → phase_of b (history b t) ≡ Execution → injected_fault_of t ≡ None
        → LetGoOn more → 4 ≤ step_count more → HasEnd (number_of b (history b t)) more }
{}
