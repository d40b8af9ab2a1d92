//! A ledger of one entry on a disk of its own. After any loss of power it has the entry that was put last, or the one
//! before it where power was lost during the put.
//!
//! - A [`Disk`] is known by what a read gives and by what a crash may leave: until a sync succeeds, any bytes in the range
//!   of a write. [`MemDisk`] is one in memory, whose calls fail and whose power is lost where its user says so.
//! - An [`Entry`] is what a host may do ([`Role`]), an epoch and a saved stream; to the ledger they are values.
//! - [`Ledger::format`] makes a ledger, [`Ledger::open`] finds its entry again, and [`Ledger::put`] puts another in its
//!   place.
//!
//! A program formats a disk once. After a loss of power it opens the disk that [`Ledger::into_disk`] gave, and goes on
//! with the entry that it is given.
#![tactic(auto)]

mod body;
mod call_log;
mod disk;
mod entry;
mod finding;
mod laws;
mod ledger;
mod memory;
mod parts;
mod slot;

pub use disk::{DISK_LENGTH, Disk};
pub use entry::{Entry, Role, STREAM_LIMIT};
pub use laws::opening_gives_old_or_new;
pub use ledger::{Ledger, LedgerFault};
pub use memory::MemDisk;
