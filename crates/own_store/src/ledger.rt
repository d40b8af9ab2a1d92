//! The ledger.
ghost use Rattle.std.specs.Prelude.{◌≡◌, ◌≢◌, ◌⊎◌, ◌↔◌, ◌≤◌, ◌+◌, ◌-◌, ◌^◌, length, true, false, Some, None, IfOk, IfErr, OnOk, OnErr, IsErrOf};
ghost use Rattle.own_store.specs.Disk.{Image, LeavesOnly, FailsWithin};
ghost use Rattle.own_store.specs.Slots.{in_force, put_calls};
ghost use Rattle.own_store.specs.Ledger.{IsInForce, IsOldOrNew};
ghost use Rattle.vt_base.specs.Faults.{Rose};
ghost use Rattle.own_store.specs.declared.ledger.LedgerFault.TheVariants.{Disk, Memory};

use crate::body::encode_body;
use crate::entry::Entry;
use crate::finding::find;
use crate::parts::{put_body, start_with};
use crate::slot::{BODY_LENGTH, Slot};
use crate::{Disk, MemDisk};
use std::alloc::{AllocError, AllocFailed, Global};
use std::marker::Model;
use thiserror::Error;
use vt_base::Failed;

/// Why a ledger refuses.
#[derive(Clone, Copy, Debug, PartialEq, Eq, Error)]
pub enum LedgerFault {
    /// A call of the disk failed.
    #[error("the disk failed")]
    Disk,
    /// No slot of the disk has an entry.
    #[error("the disk has no entry")]
    NoEntry,
    /// The version in force is the last one.
    #[error("no version is left")]
    VersionEnd,
    /// A call of the disk failed in an earlier put. The disk has to be opened again.
    #[error("the disk failed in an earlier put")]
    Shut,
    /// There is no memory.
    #[error("out of memory")]
    Memory,
}

impl From<Failed> for LedgerFault {
    ghost from_gives = { λ _ e. e ≡ Disk };

    fn from(_: Failed) -> Self {
        LedgerFault::Disk
    }
}

impl From<AllocError> for LedgerFault {
    ghost from_gives = { λ _ e. e ≡ Memory };

    fn from(_: AllocError) -> Self {
        LedgerFault::Memory
    }
}

impl<T: Drop> From<AllocFailed<T>> for LedgerFault {
    ghost from_gives = { λ _ e. e ≡ Memory };

    fn from(_: AllocFailed<T>) -> Self {
        LedgerFault::Memory
    }
}

/// A disk that keeps one entry over any loss of power. To a contract it is the disk, the version in force, and whether an
/// earlier put failed.
#[derive(Debug, Drop)]
pub struct Ledger<D: Disk> {
    disk: D,
    // The slot that isn't in force.
    spare: Slot,
    spare_open: bool,
    version: u64,
    shut: bool,
    body: Box<[u8; BODY_LENGTH]>,
}

impl<D: Disk> Model for Ledger<D> {
    ghost use Rattle.std.specs.Prelude.{◌≡◌, false};
    ghost use Rattle.own_store.specs.Ledger.{LedgerOver, IsReady};

    ghost Value = { LedgerOver D };

    ghost view = { λ l. record { disk = l.disk; version = l.version; shut = l.shut } };

    ghost invariant = { λ l. l.shut ≡ false → IsReady D.content D.may_leave l.disk l.spare l.spare_open l.version };
}

impl<D: Disk + Drop> Ledger<D> {
    /// Opens a disk that a crash may have left, by a sync and one read of each slot. It writes nothing new, so a crash
    /// leaves what it could have left before. The disk comes back with a refusal.
    pub fn open(alloc: Global, disk: D) -> Result<(Ledger<D>, Entry), (D, LedgerFault)>
        // The entry in force of the disk, as it was, is in force in the ledger.
        ensures in_force { IfOk result (λ r. IsInForce D.content D.may_leave r.0 r.1) }
        ensures same_content { IfOk result (λ r. D.content r.0.disk ≡ D.content disk) }

        ensures no_entry { IfErr result (λ e. e.1 ≡ LedgerFault.NoEntry → in_force (D.content disk) ≡ None) }
        ensures disk { IfErr result (λ e. e.1 ≡ LedgerFault.Disk → Rose (D.faults disk) (D.faults e.0)) }
        ensures others { IfErr result (λ e. (e.1 ≢ LedgerFault.VersionEnd) × (e.1 ≢ LedgerFault.Shut)) }
        ensures faults_stay { IfOk result (λ r. D.faults disk ≤ D.faults r.0.disk) }
        ensures faults_stay_on_error { IfErr result (λ e. D.faults disk ≤ D.faults e.0) }

        ensures any_moment { IfOk result (λ r. LeavesOnly D.moment D.left_since disk r.0.disk (D.may_leave disk)) }
        ensures any_moment_on_error { IfErr result (λ e. LeavesOnly D.moment D.left_since disk e.0 (D.may_leave disk)) }
        ensures crash_on_error { IfErr result (λ e. (c : Image) → D.may_leave e.0 c → D.may_leave disk c) }

        ensures calls { IfOk result (λ r. D.calls_done disk 3 r.0.disk) }
        ensures calls_without_entry { IfErr result (λ e. e.1 ≡ LedgerFault.NoEntry → D.calls_done disk 3 e.0) }
        ensures fails { IfErr result (λ e. e.1 ≡ LedgerFault.Disk → FailsWithin D.fails_at 3 disk e.0) }
    {
        let mut disk = disk;
        let body = match Box::new(alloc, [0; BODY_LENGTH]) {
            Ok(body) => body,
            Err(_) => return Err((disk, LedgerFault::Memory)),
        };
        match find(alloc, &mut disk) {
            Ok(found) => {
                let ledger = Ledger {
                    disk,
                    spare: found.spare,
                    spare_open: found.spare_open,
                    version: found.stored.version,
                    shut: false,
                    body,
                };
                Ok((ledger, found.stored.entry))
            }
            Err(fault) => Err((disk, fault)),
        }
    }

    /// Makes a disk whose entry in force is this one, with version 1, whatever the disk had. The disk comes back with a
    /// refusal; then it may have no entry.
    pub fn format(alloc: Global, disk: D, first: &Entry) -> Result<Ledger<D>, (D, LedgerFault)>
        requires limit { length first.now.stream ≤ 7285 }
        ensures in_force { IfOk result (λ l. IsInForce D.content D.may_leave l first.now) }
        ensures version { IfOk result (λ l. l.version ≡ 1) }
        ensures next_calls { IfOk result (λ l. put_calls (D.content l.disk) ≡ 4) }

        ensures disk { IfErr result (λ e. e.1 ≡ LedgerFault.Disk → Rose (D.faults disk) (D.faults e.0)) }
        ensures others { IfErr result (λ e. (e.1 ≡ LedgerFault.Disk) ⊎ (e.1 ≡ LedgerFault.Memory)) }
        ensures faults_stay { IfOk result (λ l. D.faults disk ≤ D.faults l.disk) }
        ensures faults_stay_on_error { IfErr result (λ e. D.faults disk ≤ D.faults e.0) }

        ensures calls { IfOk result (λ l. D.calls_done disk 7 l.disk) }
        ensures fails { IfErr result (λ e. e.1 ≡ LedgerFault.Disk → FailsWithin D.fails_at 7 disk e.0) }
    {
        let mut disk = disk;
        let mut body = match Box::new(alloc, [0; BODY_LENGTH]) {
            Ok(body) => body,
            Err(_) => return Err((disk, LedgerFault::Memory)),
        };
        encode_body(&mut *body, 1, first);
        if start_with(&mut disk, &*body).is_err() {
            return Err((disk, LedgerFault::Disk));
        }
        Ok(Ledger {
            disk,
            spare: Slot::Second,
            spare_open: false,
            version: 1,
            shut: false,
            body,
        })
    }
}

impl<D: Disk> Ledger<D> {
    /// The disk as it is.
    pub fn into_disk(self) -> D
        ensures disk { result ≡ self.disk }
    {
        self.disk
    }

    /// Puts an entry in force. A crash at any moment leaves a disk whose entry in force is the one before or the new one,
    /// and after Ok the new one alone. It takes no memory.
    pub fn put(&mut self, entry: &Entry) -> Result<(), LedgerFault>
        requires limit { length entry.now.stream ≤ 7285 }

        // The entry is on the disk before the answer.
        ensures in_force { OnOk result (IsInForce D.content D.may_leave self.new entry.now) }
        ensures version { OnOk result (self.new.version ≡ self.old.version + 1) }

        // What a crash leaves, at any moment of the put and at its end.
        ensures any_moment { self.old.shut ≡ false → LeavesOnly D.moment D.left_since self.old.disk self.new.disk
            (IsOldOrNew (D.content self.old.disk) entry.now) }
        ensures crash { self.old.shut ≡ false → (c : Image) → D.may_leave self.new.disk c → IsOldOrNew (D.content self.old.disk) entry.now c }

        ensures disk { IsErrOf result LedgerFault.Disk → Rose (D.faults self.old.disk) (D.faults self.new.disk) × (self.new.shut ≡ true) }
        ensures shut { IsErrOf result LedgerFault.Shut ↔ (self.old.shut ≡ true) }
        ensures version_end { IsErrOf result LedgerFault.VersionEnd ↔ (self.old.shut ≡ false) × (self.old.version ≡ 2 ^ 64 - 1) }
        ensures others { (IsErrOf result LedgerFault.NoEntry → ⊥) × (IsErrOf result LedgerFault.Memory → ⊥) }
        ensures unchanged { IsErrOf result LedgerFault.Shut ⊎ IsErrOf result LedgerFault.VersionEnd → self.new ≡ self.old }
        ensures faults_stay { D.faults self.old.disk ≤ D.faults self.new.disk }

        // How many calls of the disk it makes.
        ensures calls { OnOk result (D.calls_done self.old.disk (put_calls (D.content self.old.disk)) self.new.disk) }
        ensures next_calls { OnOk result (put_calls (D.content self.new.disk) ≡ 6) }
        ensures fails { IsErrOf result LedgerFault.Disk → FailsWithin D.fails_at (put_calls (D.content self.old.disk)) self.old.disk self.new.disk }
    {
        if self.shut {
            return Err(LedgerFault::Shut);
        }
        if self.version == u64::MAX {
            return Err(LedgerFault::VersionEnd);
        }
        let version = self.version + 1;
        encode_body(&mut *self.body, version, entry);
        if put_body(&mut self.disk, self.spare, self.spare_open, &*self.body).is_err() {
            self.shut = true;
            return Err(LedgerFault::Disk);
        }
        self.spare = self.spare.other();
        self.spare_open = true;
        self.version = version;
        Ok(())
    }
}

impl Ledger<MemDisk> {
    /// Takes the room for 16 more calls of the disk from now. Without the memory for it nothing changes.
    pub fn room(&mut self) -> Result<(), AllocError>
        ensures room { OnOk result (self.new ≡ record self.old { disk = record self.old.disk { room = 16 } }) }
        ensures unchanged_on_error { OnErr result (self.new ≡ self.old) }
    {
        self.disk.room()
    }

    /// Makes the k-th call of the disk from now fail, k from 1 on.
    pub fn fail_at(&mut self, k: u64)
        requires from_one { 1 ≤ k }
        ensures injected { self.new ≡ record self.old { disk = record self.old.disk { calls_to_fault = Some (k - 1) } } }
    {
        self.disk.fail_at(k);
    }

    /// Loses power at the k-th call of the disk from now, k from 1 on.
    pub fn lose_at(&mut self, k: u64, keep: bool)
        requires from_one { 1 ≤ k }
        ensures injected { self.new ≡ record self.old { disk = record self.old.disk { calls_to_loss = Some (k - 1, keep) } } }
    {
        self.disk.lose_at(k, keep);
    }

    /// Whether the disk is without power.
    pub fn is_off(&self) -> bool
        ensures off { result ≡ self.now.disk.off }
    {
        self.disk.is_off()
    }
}
