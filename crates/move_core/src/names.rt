//! The names of two hosts, and the order and lengths of the parts.
ghost use Rattle.std.specs.Prelude.{◌≡◌, ◌+◌, ◌<◌, ◌≤◌, drop, length, Some};
ghost use Rattle.std.specs.List.{position_from};
ghost use Rattle.move_core.specs.Sides.{other, is_same, part_number, part_after, total_of, is_bad, first_bad};
ghost use Rattle.move_core.specs.Table.{is_next, reason_for, value_for};

use ctrl_client::ClientFault;
use move_codec::Part;
use vt_base::{HostName, Reason};

/// The name of the other host.
pub fn other(name: HostName) -> HostName
    ensures { result ≡ other name }
{
    match name {
        HostName::A => HostName::B,
        HostName::B => HostName::A,
    }
}

/// Whether a message to `to` is for the host `me`.
pub fn is_same(me: HostName, to: HostName) -> bool
    ensures { result ≡ is_same me to }
{
    match (me, to) {
        (HostName::A, HostName::A) | (HostName::B, HostName::B) => true,
        _ => false,
    }
}

// The place of a part in an offer's lengths.
fn number(part: Part) -> usize
    ensures value { result ≡ part_number part }
    ensures below { result < 4 }
{
    match part {
        Part::Record => 0,
        Part::Permanent => 1,
        Part::Volatile => 2,
        Part::Saved => 3,
    }
}

/// The part that is asked for after this one.
pub fn part_after(part: Part) -> Option<Part>
    ensures { result ≡ part_after part }
{
    match part {
        Part::Record => Some(Part::Permanent),
        Part::Permanent => Some(Part::Volatile),
        Part::Volatile => Some(Part::Saved),
        Part::Saved => None,
    }
}

/// How many bytes a part has.
pub fn total_of(totals: &[u32; 4], part: Part) -> u32
    ensures { result ≡ total_of totals.now part }
{
    totals[number(part)]
}

// Whether no part may have this length.
fn is_bad(total: u32) -> bool
    ensures { result ≡ is_bad total }
{
    !(0 < total && total <= 4096)
}

/// The number of the first part whose length is 0 or above 4096.
pub fn first_bad(totals: &[u32; 4]) -> Option<u32>
    ensures { result ≡ first_bad totals.now }
{
    let mut place = 0;
    for total in totals {
        if is_bad(*total) {
            return Some(place);
        }
        place += 1;
    }
    None
}

/// Whether `size` bytes at an offset of a part are the next ones, where `place` bytes of `next` are there, and end within that part.
pub fn is_next(
    totals: &[u32; 4],
    next: Part,
    place: u32,
    part: Part,
    offset: u32,
    size: usize,
) -> bool
    ensures { result ≡ is_next totals.now next place part offset size }
{
    let total = total_of(totals, next);
    number(part) == number(next)
        && offset == place
        && place <= total
        && size as u64 <= u64::from(total - place)
}

/// The reason by which an offer or a piece is refused after a client fault.
pub fn reason_for(fault: ClientFault) -> Reason
    ensures { result ≡ reason_for fault }
{
    match fault {
        ClientFault::Link => Reason::Link,
        ClientFault::Result(_) => Reason::Blob,
        ClientFault::Reply(_) => Reason::Reply,
    }
}

/// The value beside that reason: the emulator's result, or the place in its reply, or 0.
pub fn value_for(fault: ClientFault) -> u32
    ensures { result ≡ value_for fault }
{
    match fault {
        ClientFault::Link => 0,
        ClientFault::Result(number) => number,
        ClientFault::Reply(place) => place,
    }
}
