//! Single accesses to a bus, and accesses to bytes in a row.
ghost use Rattle.std.specs.Prelude.{◌<◌, ◌≤◌, ◌+◌, ◌^◌, Some, None, [], ◌∷◌, length};
ghost use Rattle.vt_base.specs.Numbers.{IsBytes, number};
ghost use Rattle.crb_regs.specs.Access.{IsWithinPage};
ghost use Rattle.crb_driver.specs.Bus.{Reaches, reading, writing};
ghost use Rattle.crb_driver.specs.Accesses.{byte_reads, byte_writes, register_read, register_write};

use crate::bus::Bus;
use crate::registers::{BYTE_SIZE, REGISTER_SIZE};
use crb_regs::{Access, DATA_BUFFER};
use tpm_frame::{SIZE_FIELD, SIZE_FIELD_LENGTH};

fn read<B: Bus>(bus: &mut B, offset: u32, size: u8) -> u64
    requires is_ready { B.ready bus.old }
    requires within { IsWithinPage offset size None }
    ensures fits { result < 256 ^ size }
    ensures stays_ready { B.ready bus.new }
    ensures steps { Reaches B.step bus.old (reading offset size result ∷ []) bus.new }
{
    let access = Access::new(offset, size, None).unwrap();
    bus.read(&access)
}

fn write<B: Bus>(bus: &mut B, offset: u32, size: u8, value: u64)
    requires is_ready { B.ready bus.old }
    requires within { IsWithinPage offset size (Some value) }
    ensures stays_ready { B.ready bus.new }
    ensures steps { Reaches B.step bus.old (writing offset size value ∷ []) bus.new }
{
    let access = Access::new(offset, size, Some(value)).unwrap();
    bus.write(&access);
}

/// Reads a register.
pub fn read_register<B: Bus>(bus: &mut B, offset: u32) -> u32
    requires is_ready { B.ready bus.old }
    requires within { offset + 4 ≤ 0x1000 }
    ensures stays_ready { B.ready bus.new }
    ensures steps { Reaches B.step bus.old (register_read offset result ∷ []) bus.new }
{
    read(bus, offset, REGISTER_SIZE) as u32
}

/// Writes a register.
pub fn write_register<B: Bus>(bus: &mut B, offset: u32, value: u32)
    requires is_ready { B.ready bus.old }
    requires within { offset + 4 ≤ 0x1000 }
    ensures stays_ready { B.ready bus.new }
    ensures steps { Reaches B.step bus.old (register_write offset value ∷ []) bus.new }
{
    write(bus, offset, REGISTER_SIZE, u64::from(value));
}

/// Reads the size field of the response.
pub fn read_size<B: Bus>(bus: &mut B) -> u32
    requires is_ready { B.ready bus.old }
    ensures stays_ready { B.ready bus.new }
    ensures steps { Reaches B.step bus.old (byte_reads (DATA_BUFFER + SIZE_FIELD) (number result)) bus.new }
{
    let mut size = [0; SIZE_FIELD_LENGTH];
    read_bytes(bus, DATA_BUFFER + SIZE_FIELD as u32, &mut size);
    u32::from_be_bytes(size)
}

/// Reads bytes from an offset on, until `into` is full.
pub fn read_bytes<B: Bus>(bus: &mut B, offset: u32, into: &mut [u8])
    requires is_ready { B.ready bus.old }
    requires within { offset + length into.old ≤ 0x1000 }
    ensures stays_ready { B.ready bus.new }
    ensures steps { Reaches B.step bus.old (byte_reads offset into.new) bus.new }
    ensures bytes { IsBytes into.new }
{
    for i in 0..into.len() {
        into[i] = read(bus, offset + i as u32, BYTE_SIZE) as u8;
    }
}

/// Writes bytes from an offset on.
pub fn write_bytes<B: Bus>(bus: &mut B, offset: u32, bytes: &[u8])
    requires is_ready { B.ready bus.old }
    requires within { offset + length bytes.now ≤ 0x1000 }
    ensures stays_ready { B.ready bus.new }
    ensures steps { Reaches B.step bus.old (byte_writes offset bytes.now) bus.new }
{
    for (i, byte) in bytes.iter().enumerate() {
        write(bus, offset + i as u32, BYTE_SIZE, u64::from(*byte));
    }
}
