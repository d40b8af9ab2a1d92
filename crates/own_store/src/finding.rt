//! The entry in force of a disk that a crash may have left.
ghost use Rattle.std.specs.Prelude.{◌≡◌, ◌≤◌, ◌↔◌, length, None, IfOk, OnOk, IsErrOf};
ghost use Rattle.own_store.specs.Disk.{Image, IsDurable, LeavesOnly, FailsWithin};
ghost use Rattle.own_store.specs.Slots.{newer, in_force};
ghost use Rattle.own_store.specs.Finding.{IsReadingAt, IsReadingOf, IsChosen, IsFound, ExcludesPutFaults};
ghost use Rattle.vt_base.specs.Faults.{Rose};

use crate::Disk;
use crate::body::{Stored, decode_body};
use crate::ledger::LedgerFault;
use crate::slot::{GATE_OPEN, SLOT_LENGTH, Slot};
use std::alloc::{AllocError, Global};

/// What one slot has.
#[derive(Debug, Drop)]
pub struct Reading {
    pub was_open: bool,
    /// Its entry, if the gate is open and the body in range.
    pub stored: Option<Stored>,
}

/// The entry in force, and the slot that isn't.
#[derive(Debug, Drop)]
pub struct Found {
    pub spare: Slot,
    pub spare_open: bool,
    pub stored: Stored,
}

fn read_slot<D: Disk>(alloc: Global, disk: &mut D, slot: Slot) -> Result<Reading, LedgerFault>
    ensures reading { IfOk result (λ r. IsReadingAt (D.content disk.old) slot r) }
    ensures content { OnOk result (D.content disk.new ≡ D.content disk.old) }
    ensures crash { (c : Image) → D.may_leave disk.new c → D.may_leave disk.old c }
    ensures any_moment { LeavesOnly D.moment D.left_since disk.old disk.new (D.may_leave disk.old) }
    ensures fault { IsErrOf result LedgerFault.Disk → Rose (D.faults disk.old) (D.faults disk.new) }
    ensures later { D.faults disk.old ≤ D.faults disk.new }
    ensures others { ExcludesPutFaults result }
    ensures no_entry { IsErrOf result LedgerFault.NoEntry → ⊥ }
    ensures calls { OnOk result (D.calls_done disk.old 1 disk.new) }
    ensures fails { IsErrOf result LedgerFault.Disk → D.fails_at disk.old 1 disk.new }
{
    let mut bytes = Box::new(alloc, [0; SLOT_LENGTH])?;
    let into: &mut [u8] = &mut *bytes;
    disk.read(slot.place(), into)?;
    Ok(reading_of(alloc, &*bytes)?)
}

// The reading of the bytes of a slot.
fn reading_of(alloc: Global, bytes: &[u8]) -> Result<Reading, AllocError>
    requires { length bytes.now ≡ 8192 }
    ensures { IfOk result (λ r. IsReadingOf bytes.now r) }
{
    let (gate, body) = bytes.split_at(1);
    let was_open = gate[0] == GATE_OPEN;
    let stored = if was_open {
        decode_body(alloc, body)?
    } else {
        None
    };
    Ok(Reading { was_open, stored })
}

// The entry of the greater version.
fn choose(first: Reading, second: Reading) -> Result<Found, LedgerFault>
    ensures chosen { IfOk result (λ f. IsChosen first second f) }
    ensures none { IsErrOf result LedgerFault.NoEntry ↔ (newer first.stored second.stored ≡ None) }
    ensures others { ExcludesPutFaults result }
    ensures no_disk { IsErrOf result LedgerFault.Disk → ⊥ }
{
    match (first.stored, second.stored) {
        (None, None) => Err(LedgerFault::NoEntry),
        (Some(stored), None) => Ok(Found {
            spare: Slot::Second,
            spare_open: second.was_open,
            stored,
        }),
        (None, Some(stored)) => Ok(Found {
            spare: Slot::First,
            spare_open: first.was_open,
            stored,
        }),
        (Some(one), Some(two)) => {
            if one.version < two.version {
                Ok(Found {
                    spare: Slot::First,
                    spare_open: first.was_open,
                    stored: two,
                })
            } else {
                Ok(Found {
                    spare: Slot::Second,
                    spare_open: second.was_open,
                    stored: one,
                })
            }
        }
    }
}

/// Finds the entry in force. It makes a sync and reads each slot once.
pub fn find<D: Disk>(alloc: Global, disk: &mut D) -> Result<Found, LedgerFault>
    ensures found { IfOk result (λ f. IsFound (D.content disk.old) f) }
    ensures content { OnOk result (D.content disk.new ≡ D.content disk.old) }
    ensures durable { OnOk result (IsDurable (D.content disk.new) (D.may_leave disk.new)) }
    ensures crash { (c : Image) → D.may_leave disk.new c → D.may_leave disk.old c }
    ensures any_moment { LeavesOnly D.moment D.left_since disk.old disk.new (D.may_leave disk.old) }
    ensures none { IsErrOf result LedgerFault.NoEntry → in_force (D.content disk.old) ≡ None }
    ensures fault { IsErrOf result LedgerFault.Disk → Rose (D.faults disk.old) (D.faults disk.new) }
    ensures later { D.faults disk.old ≤ D.faults disk.new }
    ensures others { ExcludesPutFaults result }
    ensures calls { OnOk result (D.calls_done disk.old 3 disk.new) }
    ensures calls_without_entry { IsErrOf result LedgerFault.NoEntry → D.calls_done disk.old 3 disk.new }
    ensures fails { IsErrOf result LedgerFault.Disk → FailsWithin D.fails_at 3 disk.old disk.new }
{
    disk.sync()?;
    let first = read_slot(alloc, disk, Slot::First)?;
    let second = read_slot(alloc, disk, Slot::Second)?;
    choose(first, second)
}
