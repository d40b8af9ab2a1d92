//! The three parts of a put. Each makes at most two calls of the disk.
ghost use Rattle.std.specs.Prelude.{◌≡◌, ◌⊎◌, ◌+◌, length, true, false, None, OnOk};
ghost use Rattle.own_store.specs.Disk.{IsDurable, LeavesOnly, MakesCalls};
ghost use Rattle.own_store.specs.Slots.{other, is_open, body, behind_gate, stored, in_force, calls_to_close};
ghost use Rattle.own_store.specs.Body.{stored_in};
ghost use Rattle.own_store.specs.Ledger.{IsNewer};
ghost use Rattle.vt_base.specs.Faults.{HasCause};

use crate::Disk;
use crate::slot::{GATE_CLOSED, GATE_OPEN, Slot};
use vt_base::Failed;

/// Closes the gate of a slot that isn't in force, if it is open. A crash at any moment leaves the entry in force.
/// A gate that isn't open isn't written: after a crash it may read as open, with a torn body behind it.
pub fn close_gate<D: Disk>(disk: &mut D, slot: Slot, was_open: bool) -> Result<(), Failed>
    requires durable { IsDurable (D.content disk.old) (D.may_leave disk.old) }
    requires gate { is_open (D.content disk.old) slot ≡ was_open }
    requires unused { in_force (D.content disk.old) ≡ stored (D.content disk.old) (other slot) }
    ensures durable { OnOk result (IsDurable (D.content disk.new) (D.may_leave disk.new)) }
    ensures closed { OnOk result (is_open (D.content disk.new) slot ≡ false) }
    ensures other_gate { OnOk result (is_open (D.content disk.new) (other slot) ≡ is_open (D.content disk.old) (other slot)) }
    ensures force { OnOk result (in_force (D.content disk.new) ≡ in_force (D.content disk.old)) }
    ensures any_moment { LeavesOnly D.moment D.left_since disk.old disk.new (λ c. in_force c ≡ in_force (D.content disk.old)) }
    ensures cause { HasCause (D.faults disk.old) (D.faults disk.new) result }
    ensures calls { MakesCalls D.calls_done D.fails_at (calls_to_close was_open) disk.old disk.new result }
{
    if !was_open {
        return Ok(());
    }
    disk.write_at(slot.place(), &[GATE_CLOSED])?;
    disk.sync()
}

/// Writes a body behind a closed gate. A crash at any moment leaves the entry in force.
pub fn write_body<D: Disk>(disk: &mut D, slot: Slot, bytes: &[u8]) -> Result<(), Failed>
    requires durable { IsDurable (D.content disk.old) (D.may_leave disk.old) }
    requires closed { is_open (D.content disk.old) slot ≡ false }
    requires length { length bytes.now ≡ 8191 }
    ensures durable { OnOk result (IsDurable (D.content disk.new) (D.may_leave disk.new)) }
    ensures closed { OnOk result (is_open (D.content disk.new) slot ≡ false) }
    ensures body { OnOk result (body (D.content disk.new) slot ≡ bytes.now) }
    ensures other_gate { OnOk result (is_open (D.content disk.new) (other slot) ≡ is_open (D.content disk.old) (other slot)) }
    ensures force { OnOk result (in_force (D.content disk.new) ≡ in_force (D.content disk.old)) }
    ensures any_moment { LeavesOnly D.moment D.left_since disk.old disk.new (λ c. in_force c ≡ in_force (D.content disk.old)) }
    ensures cause { HasCause (D.faults disk.old) (D.faults disk.new) result }
    ensures calls { MakesCalls D.calls_done D.fails_at 2 disk.old disk.new result }
{
    disk.write_at(slot.place() + 1, bytes)?;
    disk.sync()
}

/// Opens the gate before a body whose version is above that in force. A crash at any moment leaves the entry
/// that was in force or that of the body.
pub fn open_gate<D: Disk>(disk: &mut D, slot: Slot) -> Result<(), Failed>
    requires durable { IsDurable (D.content disk.old) (D.may_leave disk.old) }
    requires closed { is_open (D.content disk.old) slot ≡ false }
    requires newer { IsNewer (behind_gate (D.content disk.old) slot) (in_force (D.content disk.old)) }
    ensures durable { OnOk result (IsDurable (D.content disk.new) (D.may_leave disk.new)) }
    ensures opened { OnOk result (is_open (D.content disk.new) slot ≡ true) }
    ensures other_gate { OnOk result (is_open (D.content disk.new) (other slot) ≡ is_open (D.content disk.old) (other slot)) }
    ensures force { OnOk result (in_force (D.content disk.new) ≡ behind_gate (D.content disk.old) slot) }
    ensures stored { OnOk result (in_force (D.content disk.new) ≡ stored (D.content disk.new) slot) }
    ensures any_moment { LeavesOnly D.moment D.left_since disk.old disk.new
        (λ c. (in_force c ≡ in_force (D.content disk.old)) ⊎ (in_force c ≡ behind_gate (D.content disk.old) slot)) }
    ensures cause { HasCause (D.faults disk.old) (D.faults disk.new) result }
    ensures calls { MakesCalls D.calls_done D.fails_at 2 disk.old disk.new result }
{
    disk.write_at(slot.place(), &[GATE_OPEN])?;
    disk.sync()
}

/// Puts the entry of a body into a slot that isn't in force. A crash at any moment leaves the entry that was in
/// force or that of the body.
pub fn put_body<D: Disk>(
    disk: &mut D,
    slot: Slot,
    was_open: bool,
    bytes: &[u8],
) -> Result<(), Failed>
    requires durable { IsDurable (D.content disk.old) (D.may_leave disk.old) }
    requires gate { is_open (D.content disk.old) slot ≡ was_open }
    requires unused { in_force (D.content disk.old) ≡ stored (D.content disk.old) (other slot) }
    requires length { length bytes.now ≡ 8191 }
    requires newer { IsNewer (stored_in bytes.now) (in_force (D.content disk.old)) }
    ensures durable { OnOk result (IsDurable (D.content disk.new) (D.may_leave disk.new)) }
    ensures opened { OnOk result (is_open (D.content disk.new) slot ≡ true) }
    ensures other_gate { OnOk result (is_open (D.content disk.new) (other slot) ≡ is_open (D.content disk.old) (other slot)) }
    ensures force { OnOk result (in_force (D.content disk.new) ≡ stored_in bytes.now) }
    ensures stored { OnOk result (in_force (D.content disk.new) ≡ stored (D.content disk.new) slot) }
    ensures any_moment { LeavesOnly D.moment D.left_since disk.old disk.new
        (λ c. (in_force c ≡ in_force (D.content disk.old)) ⊎ (in_force c ≡ stored_in bytes.now)) }
    ensures cause { HasCause (D.faults disk.old) (D.faults disk.new) result }
    ensures calls { MakesCalls D.calls_done D.fails_at (calls_to_close was_open + 4) disk.old disk.new result }
{
    close_gate(disk, slot, was_open)?;
    write_body(disk, slot, bytes)?;
    open_gate(disk, slot)
}

/// Closes both gates, whatever the disk had.
pub fn close_both<D: Disk>(disk: &mut D) -> Result<(), Failed>
    ensures durable { OnOk result (IsDurable (D.content disk.new) (D.may_leave disk.new)) }
    ensures first { OnOk result (is_open (D.content disk.new) Slot.First ≡ false) }
    ensures second { OnOk result (is_open (D.content disk.new) Slot.Second ≡ false) }
    ensures cause { HasCause (D.faults disk.old) (D.faults disk.new) result }
    ensures calls { MakesCalls D.calls_done D.fails_at 3 disk.old disk.new result }
{
    disk.write_at(Slot::First.place(), &[GATE_CLOSED])?;
    disk.write_at(Slot::Second.place(), &[GATE_CLOSED])?;
    disk.sync()
}

/// Puts the entry of a body into the first slot of a disk, whatever the disk had.
pub fn start_with<D: Disk>(disk: &mut D, bytes: &[u8]) -> Result<(), Failed>
    requires length { length bytes.now ≡ 8191 }
    requires entry { IsNewer (stored_in bytes.now) None }
    ensures durable { OnOk result (IsDurable (D.content disk.new) (D.may_leave disk.new)) }
    ensures opened { OnOk result (is_open (D.content disk.new) Slot.First ≡ true) }
    ensures other_gate { OnOk result (is_open (D.content disk.new) Slot.Second ≡ false) }
    ensures force { OnOk result (in_force (D.content disk.new) ≡ stored_in bytes.now) }
    ensures stored { OnOk result (in_force (D.content disk.new) ≡ stored (D.content disk.new) Slot.First) }
    ensures cause { HasCause (D.faults disk.old) (D.faults disk.new) result }
    ensures calls { MakesCalls D.calls_done D.fails_at 7 disk.old disk.new result }
{
    close_both(disk)?;
    put_body(disk, Slot::First, false, bytes)
}
