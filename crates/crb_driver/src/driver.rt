//! The driver.
ghost use Rattle.std.specs.Prelude.{◌≡◌, ◌≤◌, ◌↔◌, IfOk, OnErr, OnOk, IfErr, IsErrOf, length, take, drop};
ghost use Rattle.crb_driver.specs.Accesses.{collect_accesses, send_accesses};
ghost use Rattle.crb_driver.specs.Bus.{Reaches};
ghost use Rattle.crb_driver.specs.Sizes.{IsIllSized, reported};
ghost use Rattle.tpm_frame.specs.Sizes.{IsLength};
ghost use Rattle.crb_driver.specs.Calls.{AnswersCall, Fails, FailsToFinish, FailsToStart, Finishes, Polls, Starts, AwaitsEnd};

use crate::access::{read_bytes, read_register, read_size, write_bytes, write_register};
use crate::bus::Bus;
use crate::fault::DriverFault;
use crate::sizes::{is_bad_length, reported_length};
use crb_regs::{
    CMD_READY, CTRL_CANCEL, CTRL_REQ, CTRL_START, CTRL_STS, DATA_BUFFER, GO_IDLE, GRANTED,
    LOC_CTRL, LOC_STS, NO_CANCEL, RELINQUISH, REQUEST_ACCESS, START, TPM_IDLE, TPM_STS,
};
use tpm_frame::is_well_sized;

/// A driver of one interface. It keeps nothing: what goes on is determined by the bus.
#[derive(Clone, Copy, Debug)]
pub struct Driver;

// Clears CANCEL, writes the command and starts it.
fn send<B: Bus>(bus: &mut B, command: &[u8])
    requires is_ready { B.ready bus.old }
    requires fits { IsLength (length command.now) }
    ensures stays_ready { B.ready bus.new }
    ensures steps { Reaches B.step bus.old (send_accesses command.now) bus.new }
{
    write_register(bus, CTRL_CANCEL, NO_CANCEL);
    write_bytes(bus, DATA_BUFFER, command);
    write_register(bus, CTRL_START, START);
}

// Reads a response that fills the slice, makes the interface idle and gives access back.
fn collect<B: Bus>(bus: &mut B, response: &mut [u8])
    requires is_ready { B.ready bus.old }
    requires fits { IsLength (length response.old) }
    ensures stays_ready { B.ready bus.new }
    ensures steps { Reaches B.step bus.old (collect_accesses response.new) bus.new }
{
    read_bytes(bus, DATA_BUFFER, response);
    write_register(bus, CTRL_REQ, GO_IDLE);
    write_register(bus, LOC_CTRL, RELINQUISH);
}

impl Driver {
    /// A driver.
    pub fn new() -> Driver
        ensures alike { (driver : Driver) → driver ≡ result }
    {
        Driver
    }

    /// Asks for access, makes the interface ready, writes the command and starts it.
    pub fn start<B: Bus>(&mut self, bus: &mut B, command: &[u8]) -> Result<(), DriverFault>
        requires is_ready { B.ready bus.old }
        ensures stays_ready { B.ready bus.new }
        ensures size { IsErrOf result (DriverFault.Size (reported (length command.now))) ↔ IsIllSized command.now }
        ensures ok { OnOk result (Starts B.step bus.old command.now bus.new) }
        ensures err { IfErr result (λ fault. FailsToStart B.step bus.old command.now fault bus.new) }
    {
        if !is_well_sized(command) {
            return Err(DriverFault::Size(reported_length(command)));
        }
        write_register(bus, LOC_CTRL, REQUEST_ACCESS);
        let access = read_register(bus, LOC_STS);
        if access & GRANTED == 0 {
            return Err(DriverFault::NotGranted(access));
        }
        write_register(bus, CTRL_REQ, CMD_READY);
        let state = read_register(bus, CTRL_STS);
        if state & TPM_IDLE != 0 {
            return Err(DriverFault::NotReady(state));
        }
        send(bus, command);
        Ok(())
    }

    /// Whether the command has ended.
    pub fn poll<B: Bus>(&mut self, bus: &mut B) -> bool
        requires is_ready { B.ready bus.old }
        ensures stays_ready { B.ready bus.new }
        ensures polls { Polls B.step bus.old result bus.new }
    {
        read_register(bus, CTRL_START) == 0
    }

    /// Reads the response to the start of `into`, makes the interface idle and gives access back. It gives the
    /// response's length.
    pub fn finish<B: Bus>(&mut self, bus: &mut B, into: &mut [u8]) -> Result<usize, DriverFault>
        requires is_ready { B.ready bus.old }
        ensures stays_ready { B.ready bus.new }
        ensures ok { IfOk result (λ n. Finishes B.step bus.old (take n into.new) bus.new) }
        ensures length { IfOk result (λ n. IsLength n × (n ≤ length into.old)) }
        ensures rest_unchanged { IfOk result (λ n. drop n into.new ≡ drop n into.old) }
        ensures err { IfErr result (λ fault. FailsToFinish B.step bus.old (length into.old) fault bus.new) }
        ensures untouched { OnErr result (into.new ≡ into.old) }
    {
        let state = read_register(bus, CTRL_STS);
        if state & TPM_STS != 0 {
            return Err(DriverFault::Fatal(state));
        }
        let size = read_size(bus);
        let count = size as usize;
        if is_bad_length(count, into.len()) {
            return Err(DriverFault::BadResponse(size));
        }
        let (response, _) = into.split_at_mut(count);
        collect(bus, response);
        Ok(count)
    }

    // Whether one of so many polls found that the command had ended.
    fn wait<B: Bus>(&mut self, bus: &mut B, polls: u32) -> bool
        requires is_ready { B.ready bus.old }
        ensures stays_ready { B.ready bus.new }
        ensures waits { AwaitsEnd B.step bus.old polls result bus.new }
    {
        for _ in 0..polls {
            if self.poll(bus) {
                return true;
            }
        }
        false
    }

    /// Does a whole command: starts it, polls at most `polls` times until it has ended, and reads the response to the
    /// front of `into`. It gives the response's length. After `TimedOut` the command goes on, and [`Driver::poll`] and
    /// [`Driver::finish`] may follow.
    pub fn call<B: Bus>(
        &mut self,
        bus: &mut B,
        command: &[u8],
        into: &mut [u8],
        polls: u32,
    ) -> Result<usize, DriverFault>
        requires is_ready { B.ready bus.old }
        ensures stays_ready { B.ready bus.new }
        ensures size { IsErrOf result (DriverFault.Size (reported (length command.now))) ↔ IsIllSized command.now }
        ensures ok { IfOk result (λ n. AnswersCall B.step bus.old command.now polls (take n into.new) bus.new) }
        ensures length { IfOk result (λ n. IsLength n × (n ≤ length into.old)) }
        ensures rest_unchanged { IfOk result (λ n. drop n into.new ≡ drop n into.old) }
        ensures err { IfErr result (λ fault. Fails B.step bus.old command.now polls (length into.old) fault bus.new) }
        ensures untouched { OnErr result (into.new ≡ into.old) }
    {
        self.start(bus, command)?;
        if !self.wait(bus, polls) {
            return Err(DriverFault::TimedOut(polls));
        }
        self.finish(bus, into)
    }
}
