//! A device that is held: its guest is stopped, and its buffer is in the device.
ghost use Rattle.std.specs.Prelude.{◌≡◌, true, false, length};
ghost use Rattle.vt_base.specs.Numbers.{IsBytes};
ghost use Rattle.crb_regs.specs.Registers.{is_lost};
ghost use Rattle.crb_port.specs.Calls.{KeepsWorker};
ghost use Rattle.crb_machine.specs.Values.{AreValid, held_values};
ghost use Rattle.crb_machine.specs.Parts.{model_of};
ghost use Rattle.crb_machine.specs.Over.{IsConsistentDevice, Stops, GoesOn, Resets};

use crate::device::NotYet;
use crate::parts::DeviceParts;
use crb_port::{Job, Port, Pull};
use crb_regs::{Phase, Regs};

// What the type of the bytes makes sure of.
fn bytes_fit(bytes: &[u8])
    ensures { IsBytes bytes.now }
{}

impl<P: Port> DeviceParts<P> {
    /// Brings the buffer back and has the device held, unless the job is claimed. Where the buffer is in the device the
    /// port is left alone.
    pub fn stop(&mut self) -> Result<(), NotYet>
        requires runs { self.old.held ≡ false }
        requires consistent { IsConsistentDevice P.port_view (model_of self.old) }
        ensures stops { Stops P.port_view (model_of self.old) result (model_of self.new) }
        ensures worker { KeepsWorker (P.port_view self.old.port) (P.port_view self.new.port) }
        ensures consistent { IsConsistentDevice P.port_view (model_of self.new) }
        ensures rest_unchanged { P.rest self.new.port ≡ P.rest self.old.port }
    {
        if self.own_buffer.is_none() {
            match self.port.pull() {
                Pull::Job(job) => {
                    self.cancelled = job.cancelled;
                    self.own_buffer = Some(job.buf);
                }
                Pull::Answer(answer) => self.take_answer(answer),
                Pull::Busy => {
                    return Err(NotYet {
                        number: self.number,
                    });
                }
                Pull::Free => unreachable!(),
            }
        }
        self.held = true;
        Ok(())
    }

    /// A reset of the guest: a stop, and then the reset values. The device isn't held any more.
    pub fn reset(&mut self) -> Result<(), NotYet>
        requires runs { self.old.held ≡ false }
        requires consistent { IsConsistentDevice P.port_view (model_of self.old) }
        ensures runs { self.new.held ≡ false }
        ensures resets { Resets P.port_view (model_of self.old) result (model_of self.new) }
        ensures worker { KeepsWorker (P.port_view self.old.port) (P.port_view self.new.port) }
        ensures consistent { IsConsistentDevice P.port_view (model_of self.new) }
        ensures rest_unchanged { P.rest self.new.port ≡ P.rest self.old.port }
    {
        self.stop()?;
        self.held = false;
        self.cancelled = false;
        if let Phase::Lost = self.regs.phase {
            return Ok(());
        }
        self.regs = Regs::reset();
        if let Some(buf) = &mut self.own_buffer {
            buf.clear();
        }
        Ok(())
    }

    /// Lets the held device go on: where a command is executed its job waits again.
    pub fn go_on(&mut self)
        requires held { self.old.held ≡ true }
        requires consistent { IsConsistentDevice P.port_view (model_of self.old) }
        ensures goes_on { GoesOn P.port_view (model_of self.old) (model_of self.new) }
        ensures worker { KeepsWorker (P.port_view self.old.port) (P.port_view self.new.port) }
        ensures consistent { IsConsistentDevice P.port_view (model_of self.new) }
        ensures rest_unchanged { P.rest self.new.port ≡ P.rest self.old.port }
    {
        let cancelled = self.cancelled;
        self.held = false;
        self.cancelled = false;
        if let Phase::Execution = self.regs.phase
            && let Some(buf) = self.own_buffer.take()
        {
            self.port.queue(Job {
                number: self.number,
                cancelled,
                buf,
            });
        }
    }

    /// All bytes of the held device's buffer.
    pub fn content(&self) -> &[u8]
        requires held { self.now.held ≡ true }
        requires consistent { IsConsistentDevice P.port_view (model_of self.now) }
        ensures value { result.now ≡ (held_values (model_of self.now)).content }
        ensures size { length result.now ≡ 3968 }
        ensures fit { is_lost self.now.regs.phase ≡ false → AreValid (held_values (model_of self.now)) }
    {
        // Read for the range of its type.
        let _number = self.number;
        let Some(buf) = &self.own_buffer else {
            unreachable!()
        };
        let bytes = buf.bytes();
        bytes_fit(bytes);
        bytes
    }
}
