//! What of a held device outlives a suspension or a move.

use crb_regs::Regs;
use std::marker::Model;

/// The values of a held device; its buffer is lent. Seen as the values of a device.
#[derive(Debug, Drop)]
pub struct HeldState<'a> {
    /// The registers.
    pub regs: Regs,
    /// Whether the job is cancelled that waits in the device; false where none does.
    pub cancelled: bool,
    /// The number of the last job, 0 before the first.
    pub number: u64,
    /// The bytes of the buffer.
    pub content: &'a [u8],
}

impl<'a> Model for HeldState<'a> {
    ghost use Rattle.crb_machine.specs.Values.{DeviceValues};

    ghost Value = { DeviceValues };

    ghost view = { λ s. record {
      granted = s.regs.granted;
      cancel = s.regs.cancel;
      phase = s.regs.phase;
      cancelled = s.cancelled;
      content = s.content.now;
      number = s.number;
    } };
}
