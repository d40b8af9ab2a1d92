//! Laws of the values of a device.
ghost use Rattle.std.specs.Prelude.{◌≡◌, true, false, Ok, Err, Some, IfSome};
ghost use Rattle.vt_base.specs.Buffer.{zeros, followed_by_zeros};
ghost use Rattle.crb_regs.specs.declared.phase.Phase.TheVariants.{Idle};
ghost use Rattle.crb_machine.specs.State.{DeviceState};
ghost use Rattle.crb_machine.specs.Values.{DeviceValues, AreValid, IsUnclaimed, values_at, device_of};
ghost use Rattle.crb_machine.specs.Steps.{collected};
ghost use Rattle.crb_machine.specs.Values.{held_values};
ghost use Rattle.crb_machine.specs.Over.{IsConsistentDevice, Stops, GoesOn, state_of};
ghost use Rattle.crb_machine.specs.Model.{DeviceModel};
ghost use Rattle.crb_machine.specs.declared.device.NotYet.{NotYet};

use crb_port::Port;

/// A device whose job isn't claimed is determined by its values, and the values by the device.
pub fn held_devices_go_on()
    ensures device { (d : DeviceState) → IsUnclaimed d → device_of (values_at d) ≡ d }
    ensures values { (v : DeviceValues) → AreValid v → values_at (device_of v) ≡ v }
{}

/// What `state` gives of a device that isn't lost, `set_state` takes: no byte follows a whole buffer.
#[tactic(auto, using(crate::proofs::Contents::content_is_whole, crate::proofs::Contents::idle_is_zeros))]
pub fn given_values_can_be_taken()
    ensures same { (v : DeviceValues) → AreValid v → followed_by_zeros v.content ≡ v.content }
    ensures idle { (v : DeviceValues) → AreValid v → v.phase ≡ Idle → followed_by_zeros v.content ≡ zeros 3968 }
{}

/// A device over a port whose state is known: what a stop leaves of it, and how it goes on behind one.
pub fn stopped_devices_go_on<P: Port>()
    ensures stopped { (d e : DeviceModel P) → IsConsistentDevice P.port_view d → d.held ≡ false → Stops P.port_view d (Ok tt) e → IfSome (state_of P.port_view d) (λ s. held_values e ≡ values_at (collected s)) }
    ensures busy { (d e : DeviceModel P) (f : NotYet) → Stops P.port_view d (Err f) e → state_of P.port_view e ≡ state_of P.port_view d }
    ensures goes_on { (d e : DeviceModel P) → IsConsistentDevice P.port_view d → d.held ≡ true → GoesOn P.port_view d e → IfSome (state_of P.port_view e) (λ s. s ≡ device_of (held_values d)) }
    ensures same { (d e f : DeviceModel P) → IsConsistentDevice P.port_view d → d.held ≡ false → Stops P.port_view d (Ok tt) e → GoesOn P.port_view e f → IfSome (state_of P.port_view d) (λ s. state_of P.port_view f ≡ Some (collected s)) }
{}
