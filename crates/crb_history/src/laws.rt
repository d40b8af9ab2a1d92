//! Laws of histories.
ghost use Rattle.std.specs.Prelude.{◌≡◌, ℕ, ◌+◌, ◌%◌, ◌^◌, ◌<◌, ◌++◌};
ghost use Rattle.crb_regs.specs.declared.phase.Phase.TheVariants.{Lost};
ghost use Rattle.crb_history.specs.Snapshot.{Snapshot};
ghost use Rattle.crb_history.specs.Event.{History};
ghost use Rattle.crb_history.specs.Device.{phase_of, number_of, shown_byte, executed};
ghost use Rattle.crb_history.specs.Legal.{Legal};
ghost use Rattle.crb_history.specs.Continued.{snapshot_after, MaySuspend};
ghost use Rattle.tpm_core.specs.Steps.{IsValid};
ghost use Rattle.crb_history.specs.Counts.{start_count, done_count, execution_count};

/// The last command's number is that of the base plus the number of commands that were started since.
pub fn numbers_count_starts()
    ensures { (b : Snapshot) (p : History) → b.device.number < 2 ^ 64
        → number_of b p ≡ (b.device.number + start_count b p) % 2 ^ 64 }
{}

/// The TPM executed as many commands as finished as done: none twice, and none that was cancelled or lost.
pub fn done_is_executed_once()
    ensures { (b : Snapshot) (p : History) → execution_count (executed b p) ≡ done_count p }
{}

/// A device that was lost stays so, and shows the same whatever happens.
pub fn lost_stays_lost()
    ensures phase { (b : Snapshot) (p more : History) → Legal b (more ++ p) → phase_of b p ≡ Lost → phase_of b (more ++ p) ≡ Lost }
    ensures page { (b : Snapshot) (p more : History) → Legal b (more ++ p) → phase_of b p ≡ Lost
        → (i : ℕ) → shown_byte b (more ++ p) i ≡ shown_byte b p i }
{}

/// A run to a point where the guest may be suspended, and a run from the values at that point, are one run of one device over
/// one TPM: the guest reads what it would have read without the suspension, and nothing is executed twice.
pub fn histories_continue()
    ensures legal { (b : Snapshot) (h more : History) → IsValid b.tpm → Legal b h → MaySuspend b h
        → Legal (snapshot_after b h) more → Legal b (more ++ h) }
    ensures page { (b : Snapshot) (h more : History) → IsValid b.tpm → MaySuspend b h → Legal (snapshot_after b h) more
        → (i : ℕ) → i < 0x1000 → shown_byte (snapshot_after b h) more i ≡ shown_byte b (more ++ h) i }
    ensures executed { (b : Snapshot) (h more : History) → IsValid b.tpm → MaySuspend b h → Legal (snapshot_after b h) more
        → executed b (more ++ h) ≡ executed (snapshot_after b h) more ++ executed b h }
{
    tpm_core::laws::pasts_join();
}
