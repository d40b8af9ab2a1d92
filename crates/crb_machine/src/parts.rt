//! The parts of a device, and what each access does to them.
ghost use Rattle.std.specs.Prelude.{◌≡◌, ◌+◌, ◌*◌, ◌^◌, ◌<◌, ◌≤◌, false, Some, IsSome, IfSome};
ghost use Rattle.crb_regs.specs.LittleEndian.{little_endian_at};
ghost use Rattle.crb_regs.specs.Effects.{effect as effect_of};
ghost use Rattle.crb_port.specs.Calls.{KeepsWorker};
ghost use Rattle.crb_machine.specs.Phases.{next_phase as phase_next};
ghost use Rattle.crb_machine.specs.Steps.{ended_phase, written, written_to};
ghost use Rattle.crb_machine.specs.Parts.{model_of};
ghost use Rattle.crb_machine.specs.Over.{IsConsistentDevice, CollectsAnswer, Acts, WritesTo, own_byte, state_of, with_answer};

use crate::bytes::overwrite;
use crate::phases::next_phase;
use crb_port::{Answer, Job, Outcome, Port};
use crb_regs::{Access, DATA_BUFFER, Effect, Phase, REGISTER_SIZE, Regs, decode};
use vt_base::Buf;

/// What a device over a port is made of: the registers, the number of the last job, the buffer where it is in the
/// device, whether the device is held, whether the waiting job of a held device is cancelled, and the port.
#[derive(Debug, Drop)]
pub struct DeviceParts<P> {
    pub regs: Regs,
    pub number: u64,
    pub own_buffer: Option<Buf>,
    pub held: bool,
    pub cancelled: bool,
    pub port: P,
}

// The phase in which an execution ends.
fn phase_at_end(outcome: Outcome) -> Phase
    ensures { result ≡ ended_phase outcome }
{
    match outcome {
        Outcome::Lost => Phase::Lost,
        Outcome::Done | Outcome::Cancelled => Phase::Completion,
    }
}

impl<P: Port> DeviceParts<P> {
    /// The port alone.
    pub fn into_port(self) -> P
        ensures { result ≡ self.port }
    {
        let DeviceParts {
            own_buffer,
            port,
            ..
        } = self;
        drop(own_buffer);
        port
    }

    /// Takes an answer back, which ends the execution.
    pub fn take_answer(&mut self, answer: Answer)
        ensures { model_of self.new ≡ with_answer answer (model_of self.old) self.old.port }
    {
        self.regs.phase = phase_at_end(answer.outcome);
        self.own_buffer = Some(answer.buf);
    }

    /// Takes an answer that stands in the port. While the buffer is in the device none can, and the port is left alone.
    pub fn collect_answer(&mut self)
        requires runs { self.old.held ≡ false }
        requires consistent { IsConsistentDevice P.port_view (model_of self.old) }
        ensures runs { self.new.held ≡ false }
        ensures collects { CollectsAnswer P.port_view (model_of self.old) (model_of self.new) }
        ensures worker { KeepsWorker (P.port_view self.old.port) (P.port_view self.new.port) }
        ensures consistent { IsConsistentDevice P.port_view (model_of self.new) }
        ensures rest_unchanged { P.rest self.new.port ≡ P.rest self.old.port }
    {
        if self.own_buffer.is_some() {
            return;
        }
        if let Some(answer) = self.port.collect() {
            self.take_answer(answer);
        }
    }

    // The byte of the page at an offset.
    fn byte(&self, offset: u32) -> u8
        requires offset { offset < 0x1000 }
        requires consistent { IsConsistentDevice P.port_view (model_of self.now) }
        ensures { result ≡ own_byte (model_of self.now) offset }
    {
        if offset < DATA_BUFFER {
            return self.regs.byte(offset);
        }
        match self.regs.phase {
            Phase::Ready | Phase::Reception | Phase::Completion => match &self.own_buffer {
                Some(buf) => buf.get((offset - DATA_BUFFER) as usize),
                None => 0xFF,
            },
            _ => 0xFF,
        }
    }

    // The little-endian number of so many bytes, one byte at a time.
    fn value_by_bytes(&self, offset: u32, size: u8) -> u64
        requires size { size ≤ 8 }
        requires place { offset + size ≤ 0x1000 }
        requires consistent { IsConsistentDevice P.port_view (model_of self.now) }
        ensures value { result ≡ little_endian_at (own_byte (model_of self.now)) offset size }
        ensures below { result < 256 ^ size }
    {
        if size == 0 {
            return 0;
        }
        let rest = self.value_by_bytes(offset + 1, size - 1);
        u64::from(self.byte(offset)) + 256 * rest
    }

    /// The little-endian number of so many bytes. A register is read at once.
    pub fn value_at(&self, offset: u32, size: u8) -> u64
        requires size { size ≤ 8 }
        requires place { offset + size ≤ 0x1000 }
        requires consistent { IsConsistentDevice P.port_view (model_of self.now) }
        ensures value { result ≡ little_endian_at (own_byte (model_of self.now)) offset size }
        ensures below { result < 256 ^ size }
    {
        if size == REGISTER_SIZE && offset < DATA_BUFFER && offset % u32::from(REGISTER_SIZE) == 0 {
            return u64::from(self.regs.word(offset));
        }
        self.value_by_bytes(offset, size)
    }

    // What an accepted write of this effect does.
    fn apply_effect(&mut self, effect: Effect, phase: Phase, a: &Access)
        requires runs { self.old.held ≡ false }
        requires write { IsSome a.now.write }
        requires in_buffer { effect ≡ Effect.Buffer → 0x80 ≤ a.now.offset }
        requires accepted { phase_next effect self.old.regs.granted self.old.regs.phase ≡ Some phase }
        requires consistent { IsConsistentDevice P.port_view (model_of self.old) }
        ensures runs { self.new.held ≡ false }
        ensures acts { Acts P.port_view (Some phase) effect a.now (model_of self.old) (model_of self.new) }
        ensures exact { IfSome (state_of P.port_view (model_of self.old)) (λ d. state_of P.port_view (model_of self.new) ≡ Some (written_to (Some phase) effect a.now d)) }
        ensures worker { KeepsWorker (P.port_view self.old.port) (P.port_view self.new.port) }
        ensures consistent { IsConsistentDevice P.port_view (model_of self.new) }
        ensures rest_unchanged { P.rest self.new.port ≡ P.rest self.old.port }
    {
        self.regs.phase = phase;
        match effect {
            Effect::Buffer => {
                if let Some(buf) = &mut self.own_buffer {
                    let at = a.offset() - DATA_BUFFER;
                    overwrite(buf, at as usize, a.size(), a.write().unwrap_or(0));
                }
            }
            Effect::CmdReady | Effect::GoIdle => {
                if let Some(buf) = &mut self.own_buffer {
                    buf.clear();
                }
            }
            Effect::Start => {
                if let Some(buf) = self.own_buffer.take() {
                    self.number = self.number.wrapping_add(1);
                    self.port.queue(Job {
                        number: self.number,
                        cancelled: self.regs.cancel,
                        buf,
                    });
                }
            }
            Effect::Cancel(value) => {
                self.regs.cancel = value;
                if value && self.own_buffer.is_none() {
                    self.port.cancel();
                }
            }
            Effect::Request => self.regs.granted = true,
            Effect::Relinquish => self.regs.granted = false,
            Effect::Nothing => {}
        }
    }

    /// A write of the guest, once an answer that stood is taken.
    pub fn write(&mut self, a: &Access)
        requires runs { self.old.held ≡ false }
        requires write { IsSome a.now.write }
        requires consistent { IsConsistentDevice P.port_view (model_of self.old) }
        ensures runs { self.new.held ≡ false }
        ensures writes { WritesTo P.port_view (model_of self.old) a.now (model_of self.new) }
        ensures exact { IfSome (state_of P.port_view (model_of self.old)) (λ d. state_of P.port_view (model_of self.new) ≡ Some (written d a.now)) }
        ensures worker { KeepsWorker (P.port_view self.old.port) (P.port_view self.new.port) }
        ensures consistent { IsConsistentDevice P.port_view (model_of self.new) }
        ensures rest_unchanged { P.rest self.new.port ≡ P.rest self.old.port }
    {
        let effect = decode(a);
        if let Some(phase) = next_phase(effect, self.regs.granted, self.regs.phase) {
            self.apply_effect(effect, phase, a);
        }
    }
}
