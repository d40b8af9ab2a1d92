//! Wires in memory.
ghost use Rattle.std.specs.Prelude.{◌≡◌, ◌-◌, ◌≤◌, Some, None, [], IfOk, length, take, min};
ghost use Rattle.vt_base.specs.Faults.{IsCounted};
ghost use Rattle.ctrl_model.specs.Emulator.{is_nil};
ghost use Rattle.ctrl_model.specs.Link.{cut, Handed, opened, channel_of, taken};
ghost use Rattle.vt_seat.specs.Wires.{wires_to, emulator_of, fails_next, after_call};

use crate::pending::{PendingReply, PendingResponse};
use ctrl_client::Wires;
use ctrl_codec::Out;
use std::alloc::{AllocError, Global};
use std::marker::Model;
use vt_base::{Chan, Failed};
use vt_emulator::{Desk, Emulator};

/// Wires to an emulator in memory, one call of which may be ordered to fail.
#[derive(Drop)]
pub struct MemWires {
    emulator: Emulator,
    replies: PendingReply,
    responses: PendingResponse,
    calls_to_fault: Option<u64>,
    faults: u64,
}

impl Model for MemWires {
    ghost use Rattle.vt_seat.specs.Wires.{WiresState, link_of};

    ghost Value = { WiresState };

    ghost view = { λ w. record { link = link_of w.emulator w.replies w.responses; calls_to_fault = w.calls_to_fault; faults = w.faults } };
}

impl MemWires {
    /// Wires to this emulator. Nothing waits on them, and none of their calls is to fail.
    pub fn new(alloc: Global, emulator: Emulator) -> Result<MemWires, AllocError>
        ensures wires { IfOk result (λ w. w ≡ wires_to emulator) }
    {
        Ok(MemWires {
            emulator,
            replies: PendingReply::new(),
            responses: PendingResponse::new(alloc)?,
            calls_to_fault: None,
            faults: 0,
        })
    }

    /// The emulator behind the wires.
    pub fn emulator(&self) -> &Emulator
        ensures emulator { result.now ≡ emulator_of self.now.link }
    {
        &self.emulator
    }

    /// Lets the call of this number, from now on, fail. The next call has the number 1, and 0 is taken for it. An earlier
    /// number whose call hasn't come is forgotten.
    pub fn fail_at(&mut self, call: u64)
        ensures calls_to_fault { self.new ≡ record self.old { calls_to_fault = Some (call - 1) } }
    {
        self.calls_to_fault = Some(call.saturating_sub(1));
    }

    // Counts a call, and answers whether it is to fail.
    fn count(&mut self) -> bool
        ensures calls_to_fault { result ≡ fails_next self.old.calls_to_fault }
        ensures after { self.new ≡ record self.old { calls_to_fault = after_call self.old.calls_to_fault } }
    {
        match self.calls_to_fault {
            None => false,
            Some(0) => {
                self.calls_to_fault = None;
                true
            }
            Some(before) => {
                self.calls_to_fault = Some(before - 1);
                false
            }
        }
    }

    // Forgets the bytes of a channel.
    fn forget(&mut self, chan: Chan)
        ensures { self.new ≡ record self.old { link = cut chan self.old.link } }
    {
        match chan {
            Chan::Data => {
                self.emulator.forget_command();
                self.responses.clear();
            }
            Chan::Ctrl => {
                self.emulator.forget_request();
                self.replies.clear();
            }
        }
    }

    // Forgets the bytes of a channel, and counts the fault.
    fn fault(&mut self, chan: Chan)
        ensures link { self.new.link ≡ cut chan self.old.link }
        ensures calls_to_fault { self.new.calls_to_fault ≡ self.old.calls_to_fault }
        ensures faults { IsCounted self.old.faults self.new.faults }
    {
        self.forget(chan);
        self.faults = self.faults.saturating_add(1);
    }

    // Hands control bytes to the emulator, unless its channel is closed or a reply waits.
    fn ask(&mut self, bytes: &[u8])
        ensures link { Handed Chan.Ctrl bytes.now self.old.link self.new.link }
        ensures calls_to_fault { self.new.calls_to_fault ≡ self.old.calls_to_fault }
        ensures faults { self.new.faults ≡ self.old.faults }
    {
        if self.emulator.is_closed() || !self.replies.is_empty() {
            return;
        }
        let mut reply = Out::new();
        self.emulator.control(bytes, &mut reply);
        self.replies.hold(reply);
    }

    // Hands bytes of a command to the emulator, unless it holds one or a response waits.
    fn command(&mut self, bytes: &[u8])
        ensures link { Handed Chan.Data bytes.now self.old.link self.new.link }
        ensures calls_to_fault { self.new.calls_to_fault ≡ self.old.calls_to_fault }
        ensures faults { self.new.faults ≡ self.old.faults }
    {
        if self.responses.is_empty() {
            self.emulator.data(bytes);
        }
    }

    // Runs the command that is held, if the channel is that of commands and no bytes wait.
    fn open(&mut self, chan: Chan)
        ensures link { self.new.link ≡ opened chan self.old.link }
        ensures silent { (channel_of chan self.new.link).pending ≡ [] → self.new.link ≡ self.old.link }
        ensures calls_to_fault { self.new.calls_to_fault ≡ self.old.calls_to_fault }
        ensures faults { self.new.faults ≡ self.old.faults }
    {
        if let Chan::Data = chan {
            if self.responses.is_empty() {
                self.responses.run(&mut self.emulator);
            }
        }
    }

    // Whether no bytes wait.
    fn is_silent(&self, chan: Chan) -> bool
        ensures { result ≡ is_nil (channel_of chan self.now.link).pending }
    {
        match chan {
            Chan::Data => self.responses.is_empty(),
            Chan::Ctrl => self.replies.is_empty(),
        }
    }

    // Gives bytes that wait.
    fn give(&mut self, chan: Chan, into: &mut [u8]) -> usize
        ensures count { result ≡ min (length into.old) (length (channel_of chan self.old.link).pending) }
        ensures given { take result into.new ≡ take (length into.old) (channel_of chan self.old.link).pending }
        ensures link { self.new.link ≡ taken chan (length into.old) self.old.link }
        ensures calls_to_fault { self.new.calls_to_fault ≡ self.old.calls_to_fault }
        ensures faults { self.new.faults ≡ self.old.faults }
    {
        match chan {
            Chan::Data => self.responses.give(into),
            Chan::Ctrl => self.replies.give(into),
        }
    }
}

impl Wires for MemWires {
    ghost use Rattle.std.specs.Prelude.{Some, None, ℕ, Option};
    ghost use Rattle.vt_seat.specs.Wires.{fails_next, after_call};

    ghost link = { λ w. Some w.link };

    ghost faults = { λ w. w.faults };

    ghost Schedule = { Option ℕ };

    ghost schedule = { λ w. w.calls_to_fault };

    ghost fails = { fails_next };

    ghost later = { after_call };

    // What passes is determined by the link.
    ghost traffic = { λ _. None };

    ghost cuts = { λ _. 0 };

    fn send(&mut self, chan: Chan, bytes: &[u8]) -> Result<(), Failed> {
        if self.count() {
            self.fault(chan);
            return Err(Failed);
        }
        match chan {
            Chan::Data => self.command(bytes),
            Chan::Ctrl => self.ask(bytes),
        }
        Ok(())
    }

    fn receive(&mut self, chan: Chan, into: &mut [u8]) -> Result<usize, Failed> {
        if self.count() {
            self.fault(chan);
            return Err(Failed);
        }
        self.open(chan);
        if self.is_silent(chan) {
            self.fault(chan);
            return Err(Failed);
        }
        Ok(self.give(chan, into))
    }

    fn cut(&mut self, chan: Chan) {
        self.forget(chan);
    }
}
