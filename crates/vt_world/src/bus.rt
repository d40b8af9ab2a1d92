//! Worlds and pairs as the bus of a driver.
ghost use Rattle.std.specs.Prelude.{◌≡◌, ◌<◌, ◌^◌, ℕ, true, None, IsSome};
ghost use Rattle.move_core.specs.Sides.{is_running};
ghost use Rattle.vt_seat.specs.Seats.{world_of};
ghost use Rattle.vt_world.specs.Bus.{IsReady, Leads};
ghost use Rattle.vt_world.specs.Pairs.{KeepsSeat};

use crate::pair::Pair;
use crate::world::World;
use crb_driver::Bus;
use crb_port::PlainPort;
use crb_regs::{Access, CTRL_START};
use vt_script::Reply;
use vt_seat::Seat;

// A read of the guest at this seat. Its worker takes a step behind a read of START, so that a driver that polls it sees its
// command end.
fn read_at(seat: &mut Seat<PlainPort>, a: &Access) -> u64
    requires runs { is_running seat.old.host.stage ≡ true }
    requires is_read { a.now.write ≡ None }
    requires ready { IsReady (world_of seat.old) }
    ensures leads { Leads (world_of seat.old) a.now result (world_of seat.new) }
    ensures ready { IsReady (world_of seat.new) }
    ensures below { result < 256 ^ a.now.size }
    ensures keeps { KeepsSeat seat.old seat.new }
{
    let Reply::Value { value, .. } = seat.access(a) else {
        unreachable!()
    };
    if a.offset() == CTRL_START {
        seat.work();
    }
    value
}

// A write of the guest at this seat.
fn write_at(seat: &mut Seat<PlainPort>, a: &Access)
    requires runs { is_running seat.old.host.stage ≡ true }
    requires is_write { IsSome a.now.write }
    requires ready { IsReady (world_of seat.old) }
    ensures leads { (value : ℕ) → Leads (world_of seat.old) a.now value (world_of seat.new) }
    ensures ready { IsReady (world_of seat.new) }
    ensures keeps { KeepsSeat seat.old seat.new }
{
    seat.access(a);
}

impl Bus for World {
    ghost use Rattle.vt_world.specs.Worlds.{IsWorldReady, WorldLeads};

    ghost ready = { IsWorldReady };

    ghost step = { WorldLeads };

    fn read(&mut self, a: &Access) -> u64 {
        if self.a.is_running() {
            read_at(&mut self.a, a)
        } else {
            read_at(&mut self.b, a)
        }
    }

    fn write(&mut self, a: &Access) {
        if self.a.is_running() {
            write_at(&mut self.a, a);
        } else {
            write_at(&mut self.b, a);
        }
    }
}

impl Bus for Pair<PlainPort> {
    ghost use Rattle.vt_world.specs.Pairs.{IsPairReady, PairLeads};

    ghost ready = { IsPairReady };

    ghost step = { PairLeads };

    fn read(&mut self, a: &Access) -> u64 {
        if self.a.is_running() {
            read_at(&mut self.a, a)
        } else {
            read_at(&mut self.b, a)
        }
    }

    fn write(&mut self, a: &Access) {
        if self.a.is_running() {
            write_at(&mut self.a, a);
        } else {
            write_at(&mut self.b, a);
        }
    }
}
