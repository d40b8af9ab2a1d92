//! The switch: the requests by which the TPM is powered on, stored and switched off.

ghost use Rattle.std.specs.Prelude.{◌≡◌, Some, false, [], true, nat_lt, ◌==◌, Ok, IsSome};
ghost use Rattle.ctrl_model.specs.Emulator.{InitsBy, Assembled, HandlesRequest, started_here, volatile_taken, no_gathers, switched_off, resulted};

use crate::emulator_core::EmulatorCore;
use ctrl_codec::Request;
use ctrl_model::{BAD_ORDINAL, BAD_PARAMETER, DELETE_VOLATILE, SUCCESS};

impl EmulatorCore {
    /// INIT: the TPM is switched on. Answers the result, as each of these does.
    pub(crate) fn init(&mut self, flags: u32) -> u32
        ensures step { InitsBy (nat_lt DELETE_VOLATILE flags) flags self.old.emulator (resulted result self.new.emulator) }
        ensures command { self.new.command ≡ self.old.command }
    {
        if flags > DELETE_VOLATILE {
            BAD_PARAMETER
        } else if self.blobs.is_empty() {
            self.start_here(flags)
        } else {
            self.start_assembled(flags)
        }
    }

    /// On, with nothing gathered and nothing stored.
    pub(crate) fn switch_on(&mut self)
        requires { IsSome self.old.emulator.tpm }
        ensures { self.new ≡ record self.old {
          emulator = record self.old.emulator {
            on = true;
            stored = false;
            gathers = no_gathers;
          };
        } }
    {
        self.on = true;
        self.stored = false;
        self.blobs.clear();
    }

    /// INIT where nothing was gathered: the TPM that is there is powered on, unless its stored state is kept.
    pub(crate) fn start_here(&mut self, flags: u32) -> u32
        ensures step { resulted result self.new.emulator ≡ started_here flags self.old.emulator.tpm self.old.emulator }
        ensures command { self.new.command ≡ self.old.command }
    {
        let Some(tpm) = &mut self.tpm else {
            return BAD_ORDINAL;
        };
        if !self.stored || flags != 0 {
            tpm.power_on();
        }
        self.switch_on();
        SUCCESS
    }

    /// INIT where blobs were gathered: they make the TPM. One with no volatile state is powered on.
    pub(crate) fn start_assembled(&mut self, flags: u32) -> u32
        ensures step { Assembled (volatile_taken flags self.old.emulator.gathers) self.old.emulator (resulted result self.new.emulator) }
        ensures command { self.new.command ≡ self.old.command }
    {
        let deleted = flags == DELETE_VOLATILE;
        let Ok(mut tpm) = self.blobs.assemble(deleted) else {
            return BAD_PARAMETER;
        };
        if deleted || !self.blobs.has_volatile() {
            tpm.power_on();
        }
        self.tpm = Some(tpm);
        self.switch_on();
        SUCCESS
    }

    /// STOP: off, as `switch_off`.
    pub(crate) fn stop(&mut self) -> u32
        ensures step { HandlesRequest Request.Stop [] self.old.emulator (resulted result self.new.emulator) }
        ensures command { self.new.command ≡ self.old.command }
    {
        self.switch_off();
        SUCCESS
    }

    /// Off, with nothing gathered. The TPM stays.
    pub(crate) fn switch_off(&mut self)
        ensures { self.new ≡ record self.old { emulator = switched_off self.old.emulator } }
    {
        self.on = false;
        self.blobs.clear();
    }

    /// STORE_VOLATILE: the next INIT keeps the TPM as it is, unless a command is executed before it.
    pub(crate) fn store(&mut self) -> u32
        ensures step { HandlesRequest Request.StoreVolatile [] self.old.emulator (resulted result self.new.emulator) }
        ensures command { self.new.command ≡ self.old.command }
    {
        if !self.on {
            return BAD_ORDINAL;
        }
        self.stored = true;
        SUCCESS
    }

    /// SHUTDOWN: off, and the control channel is closed.
    pub(crate) fn shut_down(&mut self) -> u32
        ensures step { HandlesRequest Request.Shutdown [] self.old.emulator (resulted result self.new.emulator) }
        ensures command { self.new.command ≡ self.old.command }
    {
        self.switch_off();
        self.closed = true;
        SUCCESS
    }
}
