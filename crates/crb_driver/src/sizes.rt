//! Lengths of responses for a room, and lengths as a fault carries them.
ghost use Rattle.std.specs.Prelude.{◌≡◌, ◌≤◌, IsTrue, not, length};
ghost use Rattle.tpm_frame.specs.Sizes.{IsLength};
ghost use Rattle.crb_driver.specs.Sizes.{IsBadLength, reported};

use tpm_frame::is_length;

/// Whether no response for this room can have this length.
pub fn is_bad_length(count: usize, room: usize) -> bool
    ensures bad { IsTrue result → IsBadLength room count }
    ensures good { IsTrue (not result) → IsLength count × (count ≤ room) }
{
    !is_length(count) || count > room
}

/// The length as a fault carries it.
pub fn reported_length(command: &[u8]) -> u32
    ensures { result ≡ reported (length command.now) }
{
    u32::try_from(command.len()).unwrap_or(u32::MAX)
}
