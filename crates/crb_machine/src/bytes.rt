//! Writes into the buffer.
ghost use Rattle.std.specs.Prelude.{◌≡◌, ◌+◌, ◌≤◌};
ghost use Rattle.crb_regs.specs.LittleEndian.{byte_of};
ghost use Rattle.crb_machine.specs.Content.{overwritten};

use crb_regs::byte_at;
use vt_base::Buf;

/// Writes the low `size` bytes of a value at a place, the lowest first.
pub fn overwrite(buf: &mut Buf, at: usize, size: u8, value: u64)
    requires size { size ≤ 8 }
    requires place { at + size ≤ 3968 }
    ensures { buf.new ≡ overwritten buf.old at (byte_of value) size }
{
    for k in 0..size {
        buf.set(at + usize::from(k), byte_at(value, u32::from(k)));
    }
}
