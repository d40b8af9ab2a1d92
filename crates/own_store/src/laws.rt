//! The law of a put that a crash cuts short, for proofs above. Its call does nothing.
ghost use Rattle.std.specs.Prelude.{◌≡◌, ◌⊎◌, ℕ, Some};
ghost use Rattle.own_store.specs.Disk.{Image};
ghost use Rattle.own_store.specs.Slots.{in_force, entry_in_force};
ghost use Rattle.own_store.specs.Ledger.{IsOldOrNew};
ghost use Rattle.own_store.specs.declared.entry.Entry.{Entry};

/// What a put leaves of a disk at any moment opens with the old entry or the new one. `old` is the image before the put
/// of `entry`, and `left` what a crash left, which opens with `found`.
pub fn opening_gives_old_or_new()
    ensures old_or_new { (old left : Image) (entry found : Entry) (version : ℕ) →
        IsOldOrNew old entry left → in_force left ≡ Some (record { version = version; entry = found }) →
        (entry_in_force old ≡ Some found) ⊎ (found ≡ entry) }
{}
