//! A disk as the ledger sees it: what a read gives, and what a crash may leave.
ghost use Rattle.std.specs.Prelude.{◌≡◌, ◌+◌, ◌≤◌, ℕ, length, OnOk, MatchResult};
ghost use Rattle.own_store.specs.Disk.{Image, bytes_of, Written, Torn, OutcomesFollow, IsDurable, Elapses};
ghost use Rattle.vt_base.specs.Faults.{HasCause};

use vt_base::Failed;

/// How many bytes a disk holds.
pub const DISK_LENGTH: usize = 16384;

/// A disk of [`DISK_LENGTH`] bytes that may lose power at any moment. A write is pending until a sync succeeds. Until then
/// a crash may leave any bytes in its range, and leaves all others.
pub trait Disk {
    /// The bytes that a read gives.
    ghost content: { Self → Image };

    /// What a crash at this moment may leave.
    ghost may_leave: { Self → Image → Type 0 };

    /// The moment, as a number that doesn't fall.
    ghost moment: { Self → ℕ };

    /// What a crash at some moment from that one on might have left, during a call or between two.
    ghost left_since: { Self → ℕ → Image → Type 0 };

    /// How many calls have failed. A counter that has reached its last value stays there.
    ghost faults: { Self → ℕ };

    /// The second is the first after so many calls, none of which failed.
    ghost calls_done: { Self → ℕ → Self → Type 0 };

    /// The second is the first after so many calls, of which the last alone failed.
    ghost fails_at: { Self → ℕ → Self → Type 0 };

    /// Gives the bytes from a place on.
    fn read(&mut self, at: u32, into: &mut [u8]) -> Result<(), Failed>
        requires inside { at + length into.old ≤ 16384 }
        ensures bytes { OnOk result (into.new ≡ bytes_of (content self.old) at (length into.old)) }
        ensures content { OnOk result (content self.new ≡ content self.old) }
        ensures crash { (c : Image) → may_leave self.new c → may_leave self.old c }
        ensures time { Elapses (moment self.old) (moment self.new) (left_since self.old) (left_since self.new) (may_leave self.new) }
        ensures cause { HasCause (faults self.old) (faults self.new) result }
        ensures calls { MatchResult result (λ _. calls_done self.old 1 self.new) (λ _. fails_at self.old 1 self.new) };

    /// Writes bytes from a place on. Until a sync succeeds, a crash may leave any bytes there; so it may after a write
    /// that failed.
    fn write_at(&mut self, at: u32, bytes: &[u8]) -> Result<(), Failed>
        requires inside { at + length bytes.now ≤ 16384 }
        ensures written { OnOk result (Written at bytes.now (content self.old) (content self.new)) }
        ensures crash { OutcomesFollow (Torn at (length bytes.now)) (may_leave self.old) (may_leave self.new) }
        ensures time { Elapses (moment self.old) (moment self.new) (left_since self.old) (left_since self.new) (may_leave self.new) }
        ensures cause { HasCause (faults self.old) (faults self.new) result }
        ensures calls { MatchResult result (λ _. calls_done self.old 1 self.new) (λ _. fails_at self.old 1 self.new) };

    /// Does the pending writes. After a sync that succeeded a crash leaves what a read gives.
    fn sync(&mut self) -> Result<(), Failed>
        ensures durable { OnOk result (IsDurable (content self.old) (may_leave self.new)) }
        ensures content { OnOk result (content self.new ≡ content self.old) }
        ensures crash { (c : Image) → may_leave self.new c → may_leave self.old c }
        ensures time { Elapses (moment self.old) (moment self.new) (left_since self.old) (left_since self.new) (may_leave self.new) }
        ensures cause { HasCause (faults self.old) (faults self.new) result }
        ensures calls { MatchResult result (λ _. calls_done self.old 1 self.new) (λ _. fails_at self.old 1 self.new) };

    /// No call is done between a disk and itself.
    ghost no_calls: { (disk : Self) → calls_done disk 0 disk };

    /// Calls that were done, and more of them.
    ghost calls_join: { (a b c : Self) (m n : ℕ) → calls_done a m b → calls_done b n c → calls_done a (m + n) c };

    /// Calls that were done, and then some of which the last failed.
    ghost failure_joins: { (a b c : Self) (m n : ℕ) → calls_done a m b → fails_at b n c → fails_at a (m + n) c };

    /// A crash may leave what a read gives. So a read after a call that failed gives what a crash may leave.
    ghost content_is_left: { (disk : Self) → may_leave disk (content disk) };

    /// This moment is one of those since an earlier one.
    ghost counts_now: { (disk : Self) (t : ℕ) (c : Image) → t ≤ moment disk → may_leave disk c → left_since disk t c };

    /// Since this moment there is no other.
    ghost only_now: { (disk : Self) (c : Image) → left_since disk (moment disk) c → may_leave disk c };
}
