//! A host as the worker's end of the port of its device.
ghost use Rattle.std.specs.Prelude.{◌≡◌, true, false, Some, None, IfSome, IsSomeAnd};
ghost use Rattle.crb_port.specs.Calls.{Claims, Posts};
ghost use Rattle.crb_machine.specs.Steps.{TakesJob, answered};
ghost use Rattle.crb_machine.specs.Over.{HasClaimedNumber, state_of};
ghost use Rattle.move_core.specs.Sides.{holds_device};
ghost use Rattle.move_core.specs.Parts.{model_of};
ghost use Rattle.move_core.specs.Hosts.{IsConsistentHost};

use crate::host::Host;
use crate::parts::HostParts;
use crb_port::{Answer, Job, Port, PortModel, WorkPort};

impl<P: Port + WorkPort> HostParts<P> {
    /// As the device's `claim`.
    pub fn claim(&mut self) -> Option<Job>
        requires consistent { IsConsistentHost P.port_view (model_of self.old) }
        ensures stopped { holds_device self.old.stage ≡ true → result ≡ None }
        ensures claims { Claims (P.port_view self.old.device.port) result (P.port_view self.new.device.port) }
        ensures own { self.new ≡ record self.old { device = record self.old.device { port = self.new.device.port } } }
        ensures consistent { IsConsistentHost P.port_view (model_of self.new) }
        ensures claimed_number { HasClaimedNumber P.port_view self.new.device }
        ensures rest_unchanged { P.rest self.new.device.port ≡ P.rest self.old.device.port }
        ensures exact { IfSome (state_of P.port_view self.old.device) (λ d. IsSomeAnd (state_of P.port_view self.new.device) (λ e. TakesJob d e result)) }
    {
        self.device.claim()
    }

    /// As the device's `post`.
    pub fn post(&mut self, answer: Answer)
        requires consistent { IsConsistentHost P.port_view (model_of self.old) }
        requires claimed_number { (P.port_view self.old.device.port).claimed_number ≡ Some answer.number }
        ensures posts { Posts (P.port_view self.old.device.port) answer (P.port_view self.new.device.port) }
        ensures own { self.new ≡ record self.old { device = record self.old.device { port = self.new.device.port } } }
        ensures consistent { IsConsistentHost P.port_view (model_of self.new) }
        ensures claimed_number { HasClaimedNumber P.port_view self.new.device }
        ensures rest_unchanged { P.rest self.new.device.port ≡ P.rest self.old.device.port }
        ensures exact { IfSome (state_of P.port_view self.old.device) (λ d. state_of P.port_view self.new.device ≡ Some (answered answer d)) }
    {
        self.device.post(answer);
    }
}

impl<P: Port> PortModel for Host<P> {
    ghost use Rattle.move_core.specs.Hosts.{HostRest, host_rest};

    ghost port_view = { λ h. P.port_view h.device.port };

    ghost Rest = { HostRest × P.Rest };

    ghost rest = { λ h. (host_rest h, P.rest h.device.port) };

    ghost state_or_looks = { λ h. P.state_or_looks h.device.port };

    ghost exact = { λ h. P.exact h.device.port };
}

impl<P: Port + WorkPort> WorkPort for Host<P> {
    /// Claims the job that waits at the device's port. `None` where none waits, and where the device is held.
    fn claim(&mut self) -> Option<Job>
        ensures stopped { holds_device self.old.stage ≡ true → result ≡ None }
        ensures claims { Claims (P.port_view self.old.device.port) result (P.port_view self.new.device.port) }
        ensures own { self.new ≡ record self.old { device = record self.old.device { port = self.new.device.port } } }
        ensures consistent { IsConsistentHost P.port_view self.new }
        ensures claimed_number { HasClaimedNumber P.port_view self.new.device }
        ensures rest_unchanged { P.rest self.new.device.port ≡ P.rest self.old.device.port }

        // Over a port whose state is known.
        ensures exact { IfSome (state_of P.port_view self.old.device) (λ d. IsSomeAnd (state_of P.port_view self.new.device) (λ e. TakesJob d e result)) }
    {
        self.parts.claim()
    }

    /// Posts the answer to the claimed job at the device's port. The guest sees it at its next access.
    fn post(&mut self, answer: Answer)
        requires claimed_number { (P.port_view self.old.device.port).claimed_number ≡ Some answer.number }

        ensures posts { Posts (P.port_view self.old.device.port) answer (P.port_view self.new.device.port) }
        ensures own { self.new ≡ record self.old { device = record self.old.device { port = self.new.device.port } } }
        ensures consistent { IsConsistentHost P.port_view self.new }
        ensures claimed_number { HasClaimedNumber P.port_view self.new.device }
        ensures rest_unchanged { P.rest self.new.device.port ≡ P.rest self.old.device.port }

        // Over a port whose state is known.
        ensures exact { IfSome (state_of P.port_view self.old.device) (λ d. state_of P.port_view self.new.device ≡ Some (answered answer d)) }
    {
        self.parts.post(answer);
    }
}
