ghost use Rattle.std.specs.Prelude.{◌≤◌, length, IfOk};

use own_store::{Disk, Entry, Ledger, LedgerFault, MemDisk, Role};
use std::alloc::Global;
use std::test::*;
use vt_base::Bytes;

fn entry(alloc: Global, role: Role, top: u64, stream: &[u8]) -> Result<Entry, Fail>
    requires { length stream.now ≤ 7285 }
    ensures { IfOk result (λ e. length e.stream ≤ 7285) }
{
    let stream = Bytes::from_slice(alloc, stream)?;
    Ok(Entry { role, top, stream })
}

// A ledger whose entry has the top 1.
fn formatted(alloc: Global) -> Result<Ledger<MemDisk>, Fail> {
    let first = entry(alloc, Role::Running, 1, b"one")?;
    match Ledger::format(alloc, MemDisk::new(alloc)?, &first) {
        Ok(ledger) => Ok(ledger),
        Err(_) => Err(Fail::new("not formatted")),
    }
}

// Whether an entry with this top was put.
fn puts(alloc: Global, ledger: &mut Ledger<MemDisk>, top: u64) -> Result<bool, Fail> {
    ledger.room()?;
    let next = entry(alloc, Role::Prepared, top, b"next")?;
    Ok(ledger.put(&next).is_ok())
}

// The top of the entry in force, once there is power.
fn top_after(alloc: Global, mut disk: MemDisk) -> Result<u64, Fail> {
    disk.power_on();
    disk.room()?;
    match Ledger::open(alloc, disk) {
        Ok((_, found)) => Ok(found.top),
        Err(_) => Err(Fail::new("not opened")),
    }
}

// Entries 1 and 2 are put, and power is lost at the k-th call of the put of 3. Gives the top that is found then.
fn found_after(alloc: Global, k: u64, keep: bool) -> Result<u64, Fail>
    requires { 1 ≤ k }
{
    let mut ledger = formatted(alloc)?;
    if !puts(alloc, &mut ledger, 2)? {
        return Err(Fail::new("not put"));
    }
    ledger.lose_at(k, keep);
    if puts(alloc, &mut ledger, 3)? {
        return Err(Fail::new("power was not lost"));
    }
    top_after(alloc, ledger.into_disk())
}

// The call at which power is lost, whether the pending writes are done, and the top then. A put makes six calls: the
// gate is closed, the body written and the gate opened, each with a sync.
const LOSSES: [(u64, bool, u64); 12] = [
    (1, true, 2),
    (1, false, 2),
    (2, true, 2),
    (2, false, 2),
    (3, true, 2),
    (3, false, 2),
    (4, true, 2),
    (4, false, 2),
    (5, true, 2),
    (5, false, 2),
    (6, true, 3),
    (6, false, 2),
];

#[test]
fn the_last_entry_is_found_again(rt: HostRuntime) -> Result<(), Fail> {
    let mut ledger = formatted(rt.alloc())?;
    assert!(rt; puts(rt.alloc(), &mut ledger, 2)?);
    assert!(rt; puts(rt.alloc(), &mut ledger, 3)?);
    assert_eq!(rt; top_after(rt.alloc(), ledger.into_disk())?, 3);
    Ok(())
}

#[test]
fn a_put_cut_short_leaves_the_old_entry_or_the_new_one(rt: HostRuntime) -> Result<(), Fail> {
    for (k, keep, top) in LOSSES {
        if k >= 1 {
            assert_eq!(rt; found_after(rt.alloc(), k, keep)?, top);
        }
    }
    Ok(())
}

// The first put after `format` finds its gate closed, and makes four calls.
#[test]
fn a_first_put_makes_four_calls(rt: HostRuntime) -> Result<(), Fail> {
    let mut ledger = formatted(rt.alloc())?;
    ledger.lose_at(5, false);
    assert!(rt; puts(rt.alloc(), &mut ledger, 2)?);
    assert!(rt; !ledger.is_off());
    assert!(rt; !puts(rt.alloc(), &mut ledger, 3)?);
    assert!(rt; ledger.is_off());
    Ok(())
}

#[test]
fn a_ledger_is_shut_once_its_disk_failed(rt: HostRuntime) -> Result<(), Fail> {
    let mut ledger = formatted(rt.alloc())?;
    let next = entry(rt.alloc(), Role::Released, 2, b"")?;
    ledger.fail_at(1);
    assert_eq!(rt; ledger.put(&next), Err(LedgerFault::Disk));
    assert_eq!(rt; ledger.put(&next), Err(LedgerFault::Shut));
    assert_eq!(rt; top_after(rt.alloc(), ledger.into_disk())?, 1);
    Ok(())
}

// Both gates, version, role, top, length and stream of the first two entries.
#[test]
fn slots_byte_by_byte(rt: HostRuntime) -> Result<(), Fail> {
    let mut ledger = formatted(rt.alloc())?;
    assert!(rt; puts(rt.alloc(), &mut ledger, 0x0203)?);
    let mut disk = ledger.into_disk();
    disk.room()?;
    let mut bytes = [0; 24];
    assert!(rt; disk.read(0, &mut bytes).is_ok());
    assert_eq!(rt;
        bytes,
        [
            0xA5, 0, 0, 0, 0, 0, 0, 0, 1, 1, 0, 0, 0, 0, 0, 0, 0, 1, 0, 3, 0x6F, 0x6E, 0x65, 0
        ]
    );
    assert!(rt; disk.read(8192, &mut bytes).is_ok());
    assert_eq!(rt;
        bytes,
        [
            0xA5, 0, 0, 0, 0, 0, 0, 0, 2, 3, 0, 0, 0, 0, 0, 0, 2, 3, 0, 4, 0x6E, 0x65, 0x78, 0x74
        ]
    );
    Ok(())
}

// A disk of zeros has no entry, and a seventeenth call no room.
#[test]
fn no_entry_and_no_room(rt: HostRuntime) -> Result<(), Fail> {
    let mut disk = match Ledger::open(rt.alloc(), MemDisk::new(rt.alloc())?) {
        Ok(_) => return Err(Fail::new("an entry")),
        Err((disk, fault)) => {
            assert_eq!(rt; fault, LedgerFault::NoEntry);
            disk
        }
    };
    for _ in 3..16 {
        assert!(rt; disk.sync().is_ok());
    }
    assert!(rt; disk.sync().is_err());
    disk.lose(true);
    assert!(rt; disk.is_off());
    Ok(())
}

const TEXTS: [(LedgerFault, &str); 5] = [
    (LedgerFault::Disk, "the disk failed"),
    (LedgerFault::NoEntry, "the disk has no entry"),
    (LedgerFault::VersionEnd, "no version is left"),
    (LedgerFault::Shut, "the disk failed in an earlier put"),
    (LedgerFault::Memory, "out of memory"),
];

#[test]
fn each_fault_has_its_text(rt: HostRuntime) -> Result<(), Fail> {
    for (fault, text) in TEXTS {
        assert_eq!(rt; format!(in rt.alloc(); "{fault}")?.as_str(), text);
    }
    Ok(())
}
