//! The two slots of a disk.
ghost use Rattle.std.specs.Prelude.{◌≡◌};

/// How many bytes a slot has.
pub const SLOT_LENGTH: usize = 8192;

/// How many of them are behind the gate, which is the first one.
pub const BODY_LENGTH: usize = 8191;

/// The byte of an open gate. A gate with any other byte is closed.
pub const GATE_OPEN: u8 = 0xA5;

/// The byte that closes a gate.
pub const GATE_CLOSED: u8 = 0;

/// One of the two halves of a disk.
#[derive(Clone, Copy, Debug, PartialEq, Eq)]
pub enum Slot {
    First,
    Second,
}

impl Slot {
    ghost use Rattle.own_store.specs.Slots.{place, other as other_slot};

    /// The place of its gate.
    pub fn place(&self) -> u32
        ensures { result ≡ place self.now }
    {
        match *self {
            Slot::First => 0,
            Slot::Second => 8192,
        }
    }

    /// The slot that it isn't.
    pub fn other(&self) -> Slot
        ensures { result ≡ other_slot self.now }
    {
        match *self {
            Slot::First => Slot::Second,
            Slot::Second => Slot::First,
        }
    }
}
