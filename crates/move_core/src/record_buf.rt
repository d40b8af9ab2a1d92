//! The bytes of a device record while a move goes on.
ghost use Rattle.std.specs.Prelude.{◌≡◌, ◌≢◌, ◌+◌, ◌≤◌, ◌++◌, [], length, take, true, IfOk};
ghost use Rattle.crb_regs.specs.declared.phase.Phase.TheVariants.{Lost};
ghost use Rattle.crb_machine.specs.Values.{held_values};
ghost use Rattle.device_record.specs.Records.{encode_record, IsRecord};

use crb_machine::Device;
use crb_port::Port;
use device_record::{RECORD_ROOM, write_record};
use std::alloc::{AllocError, Global};
use std::marker::Model;

/// The bytes of a record, or a prefix of them, in a buffer that is allocated once and holds the longest record.
#[derive(Drop)]
pub struct RecordBuf {
    bytes: Box<[u8; RECORD_ROOM]>,
    count: usize,
}

impl Model for RecordBuf {
    ghost use Rattle.std.specs.Prelude.{◌≡◌, ◌≤◌, ℕ, List, length, take};

    ghost Value = { List ℕ };

    ghost view = { λ r. take r.count r.bytes.value };

    ghost invariant = { λ r. r.count ≤ 4096 };
}

// Writes bytes after the first `at` ones.
fn put_at(into: &mut [u8], at: usize, bytes: &[u8])
    requires room { at + length bytes.now ≤ length into.old }
    ensures prefix { take (at + length bytes.now) into.new ≡ take at into.old ++ bytes.now }
{
    into[at..at + bytes.len()].copy_from_slice(bytes);
}

impl RecordBuf {
    /// An empty buffer.
    pub fn new(alloc: Global) -> Result<RecordBuf, AllocError>
        ensures { IfOk result (λ r. r ≡ []) }
    {
        let bytes = Box::new(alloc, [0; RECORD_ROOM])?;
        Ok(RecordBuf { bytes, count: 0 })
    }

    /// Removes all bytes.
    pub fn clear(&mut self)
        ensures { self.new ≡ [] }
    {
        self.count = 0;
    }

    /// The bytes so far.
    pub fn bytes(&self) -> &[u8]
        ensures value { result.now ≡ self.now }
    {
        &self.bytes[..self.count]
    }

    /// Appends bytes, within the 4096 that the buffer has room for.
    pub fn append(&mut self, bytes: &[u8])
        requires room { length self.old + length bytes.now ≤ 4096 }
        ensures appended { self.new ≡ self.old ++ bytes.now }
    {
        let all: &mut [u8; RECORD_ROOM] = &mut self.bytes;
        put_at(all, self.count, bytes);
        self.count += bytes.len();
    }

    /// Replaces the bytes by the record of a held device, and gives its length, 23 to 3991. A lost device has none.
    pub fn write<P: Port>(&mut self, device: &Device<P>) -> u32
        requires held { device.now.held ≡ true }
        requires working { device.now.regs.phase ≢ Lost }
        ensures written { self.new ≡ encode_record (held_values device.now) }
        ensures is_record { IsRecord self.new (held_values device.now) }
        ensures size { length self.new ≡ result }
        ensures most { result ≤ 3991 }
    {
        let count = write_record(device, &mut self.bytes);
        self.count = count;
        count as u32
    }
}
