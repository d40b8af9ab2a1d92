//! A disk in memory, whose calls fail and whose power is lost where its user says so.
ghost use Rattle.std.specs.Prelude.{◌≡◌, ◌+◌, ◌≤◌, ◌-◌, ◌++◌, [], ◌∷◌, true, false, Some, None, length, IfSome, IfOk, OnOk, OnErr};
ghost use Rattle.own_store.specs.Disk.{Written, bytes_of};
ghost use Rattle.own_store.specs.Steps.{state, after, byte_at, overwritten, IsLeft, LeftSince};
ghost use Rattle.own_store.specs.Steps.Step.{Wrote, Synced, Lost, Nothing};
ghost use Rattle.own_store.specs.StepLaws.{counts, only};
ghost use Rattle.own_store.specs.MemDisk.{MayLose, MayHaveLost, memory_content, with_step};
ghost use Rattle.own_store.specs.Injected.{CallsDone, FailsAt, IsBeyond, fewer, IsLossBeyond, fewer_to_loss, CallBegins};
ghost use Rattle.own_store.specs.InjectedLaws.{no_calls_done, calls_done_join, failure_joins_calls};
ghost use Rattle.std.proofs.Common.{inl, refl};
ghost use Rattle.vt_base.specs.Buffer.{zeros};
ghost use Rattle.vt_base.specs.Faults.{Rose, counted};

use crate::call_log::{CALLS, Call, CallLog};
use crate::{DISK_LENGTH, Disk};
use std::alloc::{AllocError, Global};
use std::marker::Model;
use vt_base::Failed;

// A loss of power that is to come, after so many calls.
#[derive(Clone, Copy, Debug)]
struct Loss {
    calls: u64,
    keep: bool,
}

/// A disk in memory. It keeps a list of all its calls, by which its moments are known, in memory that [`MemDisk::new`]
/// and [`MemDisk::room`] take. A call that finds no room there isn't done, fails and is counted as a fault; so is each
/// call without power.
#[derive(Debug, Drop)]
pub struct MemDisk {
    bytes: Box<[u8; DISK_LENGTH]>,
    synced: Box<[u8; DISK_LENGTH]>,
    calls: CallLog,
    room: usize,
    pending: bool,
    calls_to_fault: Option<u64>,
    loss: Option<Loss>,
    off: bool,
    faults: u64,
}

impl Model for MemDisk {
    ghost use Rattle.std.specs.Prelude.{option_map};
    ghost use Rattle.own_store.specs.MemDisk.{MemoryDisk, IsConsistentDisk};

    ghost Value = { MemoryDisk };

    ghost view = { λ d. record { steps = d.calls.steps; room = d.room; off = d.off; calls_to_fault = d.calls_to_fault; calls_to_loss = option_map (λ l. (l.calls, l.keep)) d.loss; faults = d.faults } };

    ghost invariant = { λ d. IsConsistentDisk d.bytes.value d.synced.value d.calls d.pending d.room };
}

fn overwrite(all: &mut [u8], at: usize, bytes: &[u8])
    requires { at + length bytes.now ≤ length all.old }
    ensures { all.new ≡ overwritten all.old at bytes.now }
{
    all[at..at + bytes.len()].copy_from_slice(bytes);
}

fn copy_all(into: &mut [u8], from: &[u8])
    requires { length into.old ≡ length from.now }
    ensures { into.new ≡ from.now }
{
    into.copy_from_slice(from);
}

fn zeroed(alloc: Global) -> Result<Box<[u8; DISK_LENGTH]>, AllocError>
    ensures { IfOk result (λ b. b.value ≡ zeros 16384) }
{
    let bytes = Box::new(alloc, [0; DISK_LENGTH])?;
    Ok(bytes)
}

// Does the pending writes, or drops them.
fn end_pending(bytes: &mut [u8], synced: &mut [u8], keep: bool)
    requires { length bytes.old ≡ length synced.old }
    ensures content { bytes.new ≡ (after (record { content = bytes.old; synced = synced.old }) (Lost keep)).content }
    ensures synced { synced.new ≡ (after (record { content = bytes.old; synced = synced.old }) (Lost keep)).synced }
{
    if keep {
        copy_all(synced, bytes);
    } else {
        copy_all(bytes, synced);
    }
}

fn copy_range(into: &mut [u8], all: &[u8], at: usize)
    requires { at + length into.old ≤ length all.now }
    ensures { into.new ≡ bytes_of (byte_at all.now) at (length into.old) }
{
    let count = into.len();
    into.copy_from_slice(&all[at..at + count]);
}

impl MemDisk {
    /// A disk of zeros with power, nothing pending and the room for 16 calls.
    pub fn new(alloc: Global) -> Result<MemDisk, AllocError>
        ensures start { IfOk result (λ d. d ≡ record { steps = []; room = 16; off = false; calls_to_fault = None; calls_to_loss = None; faults = 0 }) }
    {
        let mut calls = CallLog::new(alloc);
        calls.reserve()?;
        Ok(MemDisk {
            bytes: zeroed(alloc)?,
            synced: zeroed(alloc)?,
            calls,
            room: CALLS,
            pending: false,
            calls_to_fault: None,
            loss: None,
            off: false,
            faults: 0,
        })
    }

    /// Takes the room for 16 more calls from now. Without the memory for it nothing changes.
    pub fn room(&mut self) -> Result<(), AllocError>
        ensures room { OnOk result (self.new ≡ record self.old { room = 16 }) }
        ensures unchanged_on_error { OnErr result (self.new ≡ self.old) }
        ensures steps { self.new.steps ≡ self.old.steps }
    {
        self.calls.reserve()?;
        self.room = CALLS;
        Ok(())
    }

    /// Makes the k-th call from now fail, k from 1 on. That call isn't done. It replaces an earlier order of this kind.
    pub fn fail_at(&mut self, k: u64)
        requires from_one { 1 ≤ k }
        ensures injected { self.new ≡ record self.old { calls_to_fault = Some (k - 1) } }
    {
        self.calls_to_fault = Some(k - 1);
    }

    /// Loses power at the k-th call from now, k from 1 on, which isn't done. The pending writes are done, or dropped where
    /// `keep` is false. It replaces an earlier order of this kind.
    pub fn lose_at(&mut self, k: u64, keep: bool)
        requires from_one { 1 ≤ k }
        ensures injected { self.new ≡ record self.old { calls_to_loss = Some (k - 1, keep) } }
    {
        self.loss = Some(Loss { calls: k - 1, keep });
    }

    /// Loses power at once. What a read gives then is something that a crash could have left.
    pub fn lose(&mut self, keep: bool)
        ensures off { self.new ≡ record self.old { steps = self.new.steps; off = true } }
        ensures steps { MayLose keep self.old.steps self.new.steps }
        ensures lost { state self.new.steps ≡ after (state self.old.steps) (Lost keep) }
        ensures left { IsLeft (state self.old.steps) (memory_content self.new) }
    {
        self.off = true;
        if !self.pending {
            return;
        }
        end_pending(&mut *self.bytes, &mut *self.synced, keep);
        self.calls.add(Call::Loss { keep });
        self.pending = false;
    }

    /// Whether power was lost, and not given again.
    pub fn is_off(&self) -> bool
        ensures off { result ≡ self.now.off }
    {
        self.off
    }

    /// Gives power again. After it, calls are done again.
    pub fn power_on(&mut self)
        ensures on { self.new ≡ record self.old { off = false } }
    {
        self.off = false;
    }

    fn count_fault(&mut self)
        ensures counts { self.new ≡ record self.old { faults = counted self.old.faults } }
        ensures rose { Rose self.old.faults self.new.faults }
        ensures later { self.old.faults ≤ self.new.faults }
    {
        self.faults = self.faults.saturating_add(1);
    }

    // Counts a call that an injected fault waits for, and says whether it is the one that fails.
    fn fault_comes(&mut self) -> bool
        ensures comes { result ≡ true → (self.old.calls_to_fault ≡ Some 0) × (self.new ≡ record self.old { calls_to_fault = None }) }
        ensures beyond { result ≡ false → IsBeyond 1 self.old.calls_to_fault × (self.new ≡ record self.old { calls_to_fault = fewer 1 self.old.calls_to_fault }) }
    {
        match self.calls_to_fault {
            None => false,
            Some(0) => {
                self.calls_to_fault = None;
                true
            }
            Some(calls) => {
                self.calls_to_fault = Some(calls - 1);
                false
            }
        }
    }

    // Counts a call that a loss of power waits for, and says whether it comes at this one, and how.
    fn loss_comes(&mut self) -> Option<bool>
        ensures comes { IfSome result (λ keep. (self.old.calls_to_loss ≡ Some (0, keep)) × (self.new ≡ record self.old { calls_to_loss = None })) }
        ensures beyond { result ≡ None → IsLossBeyond 1 self.old.calls_to_loss × (self.new ≡ record self.old { calls_to_loss = fewer_to_loss 1 self.old.calls_to_loss }) }
    {
        let loss = self.loss?;
        if loss.calls == 0 {
            self.loss = None;
            return Some(loss.keep);
        }
        self.loss = Some(Loss {
            calls: loss.calls - 1,
            keep: loss.keep,
        });
        None
    }

    // Whether a call is to be done. Where it isn't, its failure has been counted. A loss of power comes before a fault.
    fn begin(&mut self) -> bool
        ensures begins { result ≡ true → CallBegins self.old self.new }
        ensures fails { result ≡ false → FailsAt self.old 1 self.new }
        ensures steps { result ≡ false → MayHaveLost self.old.steps self.new.steps }
        ensures rose { result ≡ false → Rose self.old.faults self.new.faults }
        ensures later { self.old.faults ≤ self.new.faults }
    {
        if self.off {
            self.count_fault();
            return false;
        }
        let fails = self.fault_comes();
        if let Some(keep) = self.loss_comes() {
            self.lose(keep);
            self.count_fault();
            return false;
        }
        if fails {
            self.count_fault();
            return false;
        }
        if self.room == 0 {
            self.count_fault();
            return false;
        }
        true
    }

    fn do_write(&mut self, at: u32, bytes: &[u8])
        requires inside { at + length bytes.now ≤ 16384 }
        requires room { 1 ≤ self.old.room }
        ensures done { self.new ≡ with_step (self.old.steps ++ Wrote at bytes.now ∷ []) (self.old.room - 1) self.old }
        ensures written { Written at bytes.now (memory_content self.old) (memory_content self.new) }
    {
        overwrite(&mut *self.bytes, at as usize, bytes);
        self.calls.add_write(at, bytes);
        self.pending = true;
        self.room -= 1;
    }

    fn do_sync(&mut self)
        requires room { 1 ≤ self.old.room }
        ensures done { self.new ≡ with_step (self.old.steps ++ Synced ∷ []) (self.old.room - 1) self.old }
    {
        copy_all(&mut *self.synced, &*self.bytes);
        self.calls.add(Call::Sync);
        self.pending = false;
        self.room -= 1;
    }

    fn do_read(&mut self, at: u32, into: &mut [u8])
        requires inside { at + length into.old ≤ 16384 }
        requires room { 1 ≤ self.old.room }
        ensures done { self.new ≡ with_step (self.old.steps ++ Nothing ∷ []) (self.old.room - 1) self.old }
        ensures bytes { into.new ≡ bytes_of (memory_content self.old) at (length into.old) }
    {
        copy_range(into, &*self.bytes, at as usize);
        self.calls.add(Call::Read);
        self.room -= 1;
    }
}

impl Disk for MemDisk {
    ghost content = { memory_content };

    ghost may_leave = { λ d. IsLeft (state d.steps) };

    ghost moment = { λ d. length d.steps };

    ghost left_since = { λ d. LeftSince d.steps };

    ghost faults = { λ d. d.faults };

    ghost calls_done = { CallsDone };

    ghost fails_at = { FailsAt };

    ghost no_calls = { no_calls_done };

    ghost calls_join = { calls_done_join };

    ghost failure_joins = { failure_joins_calls };

    ghost content_is_left = { λ d. inl refl };

    ghost counts_now = { λ d t c le now. counts d.steps t c now };

    ghost only_now = { λ d c left. only d.steps c left };

    fn read(&mut self, at: u32, into: &mut [u8]) -> Result<(), Failed> {
        if !self.begin() {
            return Err(Failed);
        }
        self.do_read(at, into);
        Ok(())
    }

    fn write_at(&mut self, at: u32, bytes: &[u8]) -> Result<(), Failed> {
        if !self.begin() {
            return Err(Failed);
        }
        self.do_write(at, bytes);
        Ok(())
    }

    fn sync(&mut self) -> Result<(), Failed> {
        if !self.begin() {
            return Err(Failed);
        }
        self.do_sync();
        Ok(())
    }
}
