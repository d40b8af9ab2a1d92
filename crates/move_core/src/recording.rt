//! The record of a host whose guest runs on.
ghost use Rattle.std.specs.Prelude.{◌≡◌, ◌≤◌, OnErr, IfOk};
ghost use Rattle.crb_port.specs.Calls.{KeepsWorker};
ghost use Rattle.move_core.specs.Hosts.{IsConsistentHost};
ghost use Rattle.move_core.specs.Parts.{model_of};
ghost use Rattle.move_core.specs.Recording.{Records};

use crate::answers::RecordFault;
use crate::parts::HostParts;
use crb_port::Port;
use crb_regs::Phase;
use device_record::{RECORD_ROOM, write_record};

impl<P: Port> HostParts<P> {
    /// As [`Host::write_record`](crate::Host::write_record).
    pub fn write_record(&mut self, into: &mut [u8; RECORD_ROOM]) -> Result<usize, RecordFault>
        requires consistent { IsConsistentHost P.port_view (model_of self.old) }
        ensures records { Records P.port_view (model_of self.old) result into.new (model_of self.new) }
        ensures within { IfOk result (λ count. count ≤ 3991) }
        ensures untouched { OnErr result (into.new ≡ into.old) }
        ensures consistent { IsConsistentHost P.port_view (model_of self.new) }
        ensures worker { KeepsWorker (P.port_view self.old.device.port) (P.port_view self.new.device.port) }
        ensures rest_unchanged { P.rest self.new.device.port ≡ P.rest self.old.device.port }
        ensures others { model_of self.new ≡ record (model_of self.old) { device = self.new.device } }
    {
        if !self.stage.is_running() {
            return Err(RecordFault::Stopped);
        }
        if let Err(not_yet) = self.device.stop() {
            return Err(RecordFault::NotYet {
                number: not_yet.number,
            });
        }
        if let Phase::Lost = self.device.phase() {
            self.device.go_on();
            return Err(RecordFault::Device);
        }
        let count = write_record(&self.device, into);
        self.device.go_on();
        Ok(count)
    }
}
