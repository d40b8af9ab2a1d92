//! One access of the guest.
ghost use Rattle.std.specs.Prelude.{◌≡◌, ◌+◌, ◌^◌, ◌<◌, ◌≤◌, ◌↔◌, ℕ, IsTrue, IsSome, IfSome};
ghost use Rattle.crb_regs.specs.Access.{Access as AccessValues, IsAccessSize, IsWithinPage};

use std::marker::Model;

/// How many bytes the page has.
pub const PAGE_SIZE: u32 = 0x1000;

/// An access of 1, 2, 4 or 8 bytes within the page, with the value where it is a write.
#[derive(Clone, Copy, Debug, PartialEq, Eq)]
pub struct Access {
    offset: u32,
    size: u8,
    write: Option<u64>,
}

impl Model for Access {
    ghost use Rattle.crb_regs.specs.Access.{Access as AccessValues, IsWithinPage};

    ghost Value = { AccessValues };

    ghost view = { λ a. record { offset = a.offset; size = a.size; write = a.write } };

    ghost invariant = { λ a. IsWithinPage a.offset a.size a.write };

    ghost inverse = { λ v. record { offset = v.offset; size = v.size; write = v.write } };
}

// Whether a value needs at most so many bytes.
fn fits(size: u8, value: u64) -> bool
    requires { IsAccessSize size }
    ensures { IsTrue result ↔ (value < 256 ^ size) }
{
    match size {
        1 => value <= 0xFF,
        2 => value <= 0xFFFF,
        4 => value <= 0xFFFF_FFFF,
        _ => true,
    }
}

impl Access {
    /// A read where `write` is `None`, else a write of that value. `None` comes where the size isn't 1, 2, 4 or 8,
    /// the access leaves the page, or the value needs more than `size` bytes.
    pub fn new(offset: u32, size: u8, write: Option<u64>) -> Option<Access>
        ensures which { IsSome result ↔ IsWithinPage offset size write }
        ensures value { IfSome result (λ a. a ≡ record { offset = offset; size = size; write = write }) }
    {
        if !matches!(size, 1 | 2 | 4 | 8) {
            return None;
        }
        if offset >= PAGE_SIZE || offset + u32::from(size) > PAGE_SIZE {
            return None;
        }
        if let Some(value) = write
            && !fits(size, value)
        {
            return None;
        }
        Some(Access {
            offset,
            size,
            write,
        })
    }

    /// The place of the first byte within the page.
    pub fn offset(&self) -> u32
        ensures value { result ≡ self.now.offset }
        ensures within { self.now.offset + self.now.size ≤ PAGE_SIZE }
    {
        self.offset
    }

    /// How many bytes are read or written.
    pub fn size(&self) -> u8
        ensures value { result ≡ self.now.size }
        ensures sizes { IsAccessSize self.now.size }
    {
        self.size
    }

    /// The value of a write, `None` for a read.
    pub fn write(&self) -> Option<u64>
        ensures value { result ≡ self.now.write }
        ensures fits { IfSome self.now.write (λ v. v < 256 ^ self.now.size) }
        ensures within { self.now.offset + self.now.size ≤ PAGE_SIZE }
    {
        self.write
    }
}
