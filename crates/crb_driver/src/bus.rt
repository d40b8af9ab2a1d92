//! What the driver stands on.
ghost use Rattle.std.specs.Prelude.{◌≡◌, ◌<◌, ◌^◌, ℕ, None, IsSome};
ghost use Rattle.crb_driver.specs.Bus.{written};

use crb_regs::Access;

/// What carries out accesses to the register page.
pub trait Bus {
    ghost use Rattle.crb_driver.specs.Bus.{Relation};

    /// Whether accesses may be made. Each access keeps it.
    ghost ready: { Self → Type 0 };

    /// What an access does: the bus before it, the access, the value that it read or wrote, and the bus after it.
    ghost step: { Relation Self };

    /// Does a read, and gives its value.
    fn read(&mut self, a: &Access) -> u64
        requires is_ready { ready self.old }
        requires is_read { a.now.write ≡ None }
        ensures fits { result < 256 ^ a.now.size }
        ensures stays_ready { ready self.new }
        ensures steps { step self.old a.now result self.new };

    /// Does a write of the access's value.
    fn write(&mut self, a: &Access)
        requires is_ready { ready self.old }
        requires is_write { IsSome a.now.write }
        ensures stays_ready { ready self.new }
        ensures steps { step self.old a.now (written a.now) self.new };
}
