//! The device.
ghost use Rattle.std.specs.Prelude.{◌≡◌, ◌≢◌, ◌^◌, ◌<◌, ◌≤◌, [], length, true, false, Some, None, Ok, IfOk, IfErr, IfSome, OnOk, OnErr, IsSome, IsSomeAnd, IsNone, is_some};
ghost use Rattle.crb_regs.specs.LittleEndian.{little_endian_at};
ghost use Rattle.vt_base.specs.Buffer.{zeros, followed_by_zeros};
ghost use Rattle.crb_regs.specs.Registers.{is_lost, reset_regs};
ghost use Rattle.crb_machine.specs.Steps.{fresh_state, collected, written, device_byte, after_reset, reset_reply, failed, answered, TakesJob};
ghost use Rattle.crb_machine.specs.Values.{AreValid, values_at, device_of, held_values, with_values};
ghost use Rattle.crb_machine.specs.Over.{IsConsistentDevice, HasClaimedNumber, CollectsAnswer, Writes, Resets, Stops, GoesOn, own_byte, state_of};
ghost use Rattle.crb_port.specs.Calls.{KeepsWorker, Claims, Posts};

use crate::parts::DeviceParts;
use crate::state::HeldState;
use crb_port::{Answer, Job, Port, PortModel, WorkPort};
use crb_regs::{Access, Phase, Regs};
use std::alloc::{AllocError, Global};
use std::error::Error;
use std::marker::Model;
use std::{fmt, mem};
use vt_base::Buf;

/// The job of this number is claimed, so that its buffer can't come back yet.
#[derive(Clone, Copy, Debug, PartialEq, Eq)]
pub struct NotYet {
    pub number: u64,
}

impl fmt::Display for NotYet {
    fn fmt<W: fmt::Write>(&self, f: &mut fmt::Formatter<W>) -> fmt::Result {
        write!(f, "the job {} is claimed", self.number)
    }
}

impl Error for NotYet {}

/// The device over its end of a port.
#[derive(Debug, Drop)]
pub struct Device<P: Port> {
    parts: DeviceParts<P>,
}

impl<P: Port> Model for Device<P> {
    ghost use Rattle.crb_machine.specs.Model.{DeviceModel};
    ghost use Rattle.crb_machine.specs.Parts.{model_of};
    ghost use Rattle.crb_machine.specs.Over.{IsConsistentDevice};

    ghost Value = { DeviceModel P };

    ghost view = { λ d. model_of d.parts };

    ghost invariant = { λ d. IsConsistentDevice P.port_view (model_of d.parts) };
}

impl<P: Port + Drop> Device<P> {
    /// A device after a reset, with number 0.
    pub fn new(alloc: Global, port: P) -> Result<Device<P>, AllocError>
        requires free { (P.port_view port).is_free ≡ true }

        ensures fresh { IfOk result (λ d. d ≡ record { regs = reset_regs; number = 0; own_buffer = Some (zeros 3968); held = false; cancelled = false; port = port }) }
        ensures consistent { IfOk result (IsConsistentDevice P.port_view) }
        ensures claimed_number { IfOk result (HasClaimedNumber P.port_view) }

        // Over a port whose state is known.
        ensures exact { IfSome (P.port_view port).state (λ _. IfOk result (λ d. state_of P.port_view d ≡ Some fresh_state)) }
    {
        let buf = Buf::new(alloc)?;
        Ok(Device {
            parts: DeviceParts {
                regs: Regs::reset(),
                number: 0,
                own_buffer: Some(buf),
                held: false,
                cancelled: false,
                port,
            },
        })
    }
}

impl<P: Port> Device<P> {
    /// A read of the guest: an answer that stands is taken back, and the little-endian number of the bytes of the
    /// page is given, each byte by itself.
    pub fn read(&mut self, a: &Access) -> u64
        requires runs { self.old.held ≡ false }
        requires reads { IsNone a.now.write }

        ensures runs { self.new.held ≡ false }
        ensures collects { CollectsAnswer P.port_view self.old self.new }
        ensures worker { KeepsWorker (P.port_view self.old.port) (P.port_view self.new.port) }
        ensures value { result ≡ little_endian_at (own_byte self.new) a.now.offset a.now.size }
        ensures below { result < 256 ^ a.now.size }
        ensures consistent { IsConsistentDevice P.port_view self.new }
        ensures claimed_number { HasClaimedNumber P.port_view self.new }
        ensures rest_unchanged { P.rest self.new.port ≡ P.rest self.old.port }

        // Over a port whose state is known.
        ensures exact { IfSome (state_of P.port_view self.old) (λ d. state_of P.port_view self.new ≡ Some (collected d)) }
        ensures exact_value { IfSome (state_of P.port_view self.old) (λ d. result ≡ little_endian_at (device_byte (collected d)) a.now.offset a.now.size) }
    {
        self.parts.collect_answer();
        self.parts.value_at(a.offset(), a.size())
    }

    /// A write of the guest: an answer that stands is taken back, and then the phase table says what is done.
    pub fn write(&mut self, a: &Access)
        requires runs { self.old.held ≡ false }
        requires writes { IsSome a.now.write }

        ensures runs { self.new.held ≡ false }
        ensures writes { Writes P.port_view self.old a.now self.new }
        ensures worker { KeepsWorker (P.port_view self.old.port) (P.port_view self.new.port) }
        ensures consistent { IsConsistentDevice P.port_view self.new }
        ensures claimed_number { HasClaimedNumber P.port_view self.new }
        ensures rest_unchanged { P.rest self.new.port ≡ P.rest self.old.port }

        // Over a port whose state is known.
        ensures exact { IfSome (state_of P.port_view self.old) (λ d. state_of P.port_view self.new ≡ Some (written (collected d) a.now)) }
    {
        self.parts.collect_answer();
        self.parts.write(a);
    }

    /// A reset of the guest: a job that nobody claimed, or an answer that stands, is taken back, and the registers and
    /// the buffer get the reset values. The number is kept. A device that is lost, or is so once the answer is taken,
    /// stays lost.
    pub fn reset(&mut self) -> Result<(), NotYet>
        requires runs { self.old.held ≡ false }

        ensures runs { self.new.held ≡ false }
        ensures resets { Resets P.port_view self.old result self.new }
        ensures worker { KeepsWorker (P.port_view self.old.port) (P.port_view self.new.port) }
        ensures lost { self.old.regs.phase ≡ Phase.Lost → (result ≡ Ok tt) × (self.new ≡ self.old) }
        ensures consistent { IsConsistentDevice P.port_view self.new }
        ensures claimed_number { HasClaimedNumber P.port_view self.new }
        ensures rest_unchanged { P.rest self.new.port ≡ P.rest self.old.port }

        // Over a port whose state is known.
        ensures exact { IfSome (state_of P.port_view self.old) (λ d. state_of P.port_view self.new ≡ Some (after_reset d)) }
        ensures exact_result { IfSome (state_of P.port_view self.old) (λ d. result ≡ reset_reply d) }
    {
        self.parts.reset()
    }

    /// The device is given up: it is lost, and stays so. Its port has to be free, so that no command is under way.
    pub fn fail(&mut self)
        requires runs { self.old.held ≡ false }
        requires free { (P.port_view self.old.port).is_free ≡ true }

        ensures runs { self.new.held ≡ false }
        ensures failed { self.new ≡ record self.old { regs = record self.old.regs { phase = Phase.Lost } } }
        ensures consistent { IsConsistentDevice P.port_view self.new }
        ensures claimed_number { HasClaimedNumber P.port_view self.new }

        // Over a port whose state is known.
        ensures exact { IfSome (state_of P.port_view self.old) (λ d. state_of P.port_view self.new ≡ Some (failed d)) }
    {
        self.parts.regs.phase = Phase::Lost;
    }

    /// The phase that the registers show. An answer that stands isn't seen until the next access.
    pub fn phase(&self) -> Phase
        ensures { result ≡ self.now.regs.phase }
    {
        self.parts.regs.phase
    }

    /// The number of the last job, 0 before the first.
    pub fn number(&self) -> u64
        ensures { result ≡ self.now.number }
    {
        self.parts.number
    }

    /// The guest is stopped, for a suspension or a move: an answer that stands, or a job that nobody claimed, is taken
    /// back, and no access is taken until the device goes on. Such a job keeps its bytes and its mark, and waits in the
    /// device. Where the job is claimed nothing is done.
    pub fn stop(&mut self) -> Result<(), NotYet>
        requires runs { self.old.held ≡ false }

        ensures held { OnOk result (self.new.held ≡ true) }
        ensures runs { OnErr result (self.new.held ≡ false) }
        ensures free { OnOk result ((P.port_view self.new.port).is_free ≡ true) }
        ensures stops { Stops P.port_view self.old result self.new }
        ensures worker { KeepsWorker (P.port_view self.old.port) (P.port_view self.new.port) }
        ensures consistent { IsConsistentDevice P.port_view self.new }
        ensures claimed_number { HasClaimedNumber P.port_view self.new }
        ensures rest_unchanged { P.rest self.new.port ≡ P.rest self.old.port }

        // Over a port whose state is known.
        ensures exact_values { IfOk result (λ _. IfSome (state_of P.port_view self.old) (λ d. held_values self.new ≡ values_at (collected d))) }
        ensures exact_result { IfSome (state_of P.port_view self.old) (λ d. result ≡ reset_reply d) }
        ensures exact_busy { IfErr result (λ _. state_of P.port_view self.new ≡ state_of P.port_view self.old) }
    {
        self.parts.stop()
    }

    /// The guest goes on: where a command is executed its job waits again, with its number, its bytes and its mark.
    pub fn go_on(&mut self)
        requires held { self.old.held ≡ true }

        ensures runs { self.new.held ≡ false }
        ensures goes_on { GoesOn P.port_view self.old self.new }
        ensures worker { KeepsWorker (P.port_view self.old.port) (P.port_view self.new.port) }
        ensures consistent { IsConsistentDevice P.port_view self.new }
        ensures claimed_number { HasClaimedNumber P.port_view self.new }
        ensures rest_unchanged { P.rest self.new.port ≡ P.rest self.old.port }

        // Over a port whose state is known.
        ensures exact { IfSome (state_of P.port_view self.new) (λ e. e ≡ device_of (held_values self.old)) }
    {
        self.parts.go_on();
    }

    /// The device's end of the port as it is. The device's own values are let go.
    pub fn into_port(self) -> P
        ensures port { result ≡ self.port }

        // What the type makes sure of: a job or an answer is under way exactly where the buffer isn't in the device.
        ensures free { (P.port_view result).is_free ≡ is_some self.own_buffer }
        ensures claimed_number { HasClaimedNumber P.port_view self }
    {
        let Device { parts } = self;
        parts.into_port()
    }

    /// The device goes on over another port, and the old one is given. Both have to be free, so no job is under way.
    pub fn change_port(&mut self, port: P) -> P
        requires free { (P.port_view self.old.port).is_free ≡ true }
        requires given_free { (P.port_view port).is_free ≡ true }

        ensures old { result ≡ self.old.port }
        ensures changed { self.new ≡ record self.old { port = port } }
        ensures consistent { IsConsistentDevice P.port_view self.new }
        ensures claimed_number { HasClaimedNumber P.port_view self.new }

        // Over two ports whose states are known.
        ensures exact { IfSome (state_of P.port_view self.old) (λ d. IfSome (P.port_view port).state (λ _. state_of P.port_view self.new ≡ Some d)) }
    {
        mem::replace(&mut self.parts.port, port)
    }

    /// Whether the guest is stopped.
    pub fn is_held(&self) -> bool
        ensures value { result ≡ self.now.held }

        // What the type makes sure of.
        ensures consistent { IsConsistentDevice P.port_view self.now }
        ensures claimed_number { HasClaimedNumber P.port_view self.now }
    {
        self.parts.held
    }

    /// The values of the held device, with all bytes of its buffer.
    pub fn state(&self) -> HeldState<'_>
        requires held { self.now.held ≡ true }

        ensures values { result ≡ held_values self.now }
        ensures size { length result.content ≡ 3968 }

        // Only a lost device has values that no other can have.
        ensures fit { is_lost self.now.regs.phase ≡ false → AreValid (held_values self.now) }
    {
        HeldState {
            regs: self.parts.regs,
            cancelled: self.parts.cancelled,
            number: self.parts.number,
            content: self.parts.content(),
        }
    }

    /// The held device gets these values, and a buffer of these bytes followed by zeros.
    pub fn set_state(&mut self, state: &HeldState<'_>)
        requires held { self.old.held ≡ true }
        requires working { state.now.phase ≢ Phase.Lost }
        requires size { length state.now.content ≤ 3968 }
        requires idle { state.now.phase ≡ Phase.Idle → followed_by_zeros state.now.content ≡ zeros 3968 }
        requires waits { state.now.cancelled ≡ true → state.now.phase ≡ Phase.Execution }

        ensures held { self.new.held ≡ true }
        ensures values { held_values self.new ≡ record state.now { content = followed_by_zeros state.now.content } }
        ensures restored { self.new ≡ with_values (record state.now { content = followed_by_zeros state.now.content }) self.old }
        ensures port { self.new.port ≡ self.old.port }
        ensures consistent { IsConsistentDevice P.port_view self.new }
        ensures claimed_number { HasClaimedNumber P.port_view self.new }
        ensures rest_unchanged { P.rest self.new.port ≡ P.rest self.old.port }
    {
        self.parts.regs = state.regs;
        self.parts.cancelled = state.cancelled;
        self.parts.number = state.number;
        if let Some(buf) = &mut self.parts.own_buffer {
            buf.hold(state.content);
        }
    }
}

impl<P: Port> PortModel for Device<P> {
    ghost use Rattle.crb_machine.specs.Over.{OwnParts, own_parts};

    ghost port_view = { λ d. P.port_view d.port };

    ghost Rest = { OwnParts × P.Rest };

    ghost rest = { λ d. (own_parts d, P.rest d.port) };

    ghost state_or_looks = { λ d. P.state_or_looks d.port };

    ghost exact = { λ d. P.exact d.port };
}

impl<P: Port + WorkPort> WorkPort for Device<P> {
    /// Claims the job that waits at the device's port. A held device has none there.
    fn claim(&mut self) -> Option<Job>
        ensures claims { Claims (P.port_view self.old.port) result (P.port_view self.new.port) }
        ensures held { self.old.held ≡ true → result ≡ None }
        ensures own { self.new ≡ record self.old { port = self.new.port } }
        ensures consistent { IsConsistentDevice P.port_view self.new }
        ensures claimed_number { HasClaimedNumber P.port_view self.new }
        ensures rest_unchanged { P.rest self.new.port ≡ P.rest self.old.port }

        // Over a port whose state is known.
        ensures exact { IfSome (state_of P.port_view self.old) (λ d. IsSomeAnd (state_of P.port_view self.new) (λ e. TakesJob d e result)) }
    {
        self.parts.port.claim()
    }

    /// Posts the answer to the claimed job at the device's port. The guest sees it at its next access.
    fn post(&mut self, answer: Answer)
        requires claimed_number { (P.port_view self.old.port).claimed_number ≡ Some answer.number }

        ensures posts { Posts (P.port_view self.old.port) answer (P.port_view self.new.port) }
        ensures own { self.new ≡ record self.old { port = self.new.port } }
        ensures consistent { IsConsistentDevice P.port_view self.new }
        ensures claimed_number { HasClaimedNumber P.port_view self.new }
        ensures rest_unchanged { P.rest self.new.port ≡ P.rest self.old.port }

        // Over a port whose state is known.
        ensures exact { IfSome (state_of P.port_view self.old) (λ d. state_of P.port_view self.new ≡ Some (answered answer d)) }
    {
        self.parts.port.post(answer);
    }
}
