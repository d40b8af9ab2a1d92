//! A receive that is repeated for the rest.
ghost use Rattle.std.specs.Prelude.{◌≡◌, ◌≤◌, ◌<◌, length, true, is_ok, IfSome, OnOk, OnErr};
ghost use Rattle.vt_base.specs.Faults.{Counts};
ghost use Rattle.ctrl_model.specs.Link.{receivable};
ghost use Rattle.ctrl_client.specs.Receiving.{ReceivesExact};
ghost use Rattle.ctrl_client.specs.Traffic.{Came, CamePart};

use crate::wires::Wires;
use vt_base::{Chan, Failed};

/// Fills the slice with the next bytes.
pub fn receive_exact<W: Wires>(wires: &mut W, chan: Chan, into: &mut [u8]) -> Result<(), Failed>
    requires some { 0 < length into.old }

    // Over wires whose link is known, where so many bytes are at hand, one receive gives them all.
    ensures exact { IfSome (W.link wires.old) (λ l. length into.old ≤ length (receivable chan l)
        → ReceivesExact W.fails W.later chan l (W.schedule wires.old) (length into.old) result into.new (W.link wires.new) (W.schedule wires.new)) }

    // Over any wires.
    ensures came { OnOk result (Came chan into.new (W.traffic wires.old) (W.traffic wires.new)) }
    ensures part { OnErr result (CamePart chan into.new (W.traffic wires.old) (W.traffic wires.new)) }
    ensures counts { Counts (W.faults wires.old) (W.faults wires.new) result }
    ensures uncut { W.cuts wires.new ≡ W.cuts wires.old }
{
    let count = wires.receive(chan, into)?;
    receive_rest(wires, chan, &mut into[count..])
}

// Fills what is left, if anything is.
fn receive_rest<W: Wires>(wires: &mut W, chan: Chan, into: &mut [u8]) -> Result<(), Failed>
    ensures nothing { length into.old ≡ 0 → OnOk result (wires.new ≡ wires.old) }
    ensures succeeds_if_promised { length into.old ≡ 0 → is_ok result ≡ true }
    ensures came { OnOk result (Came chan into.new (W.traffic wires.old) (W.traffic wires.new)) }
    ensures part { OnErr result (CamePart chan into.new (W.traffic wires.old) (W.traffic wires.new)) }
    ensures counts { Counts (W.faults wires.old) (W.faults wires.new) result }
    ensures uncut { W.cuts wires.new ≡ W.cuts wires.old }
{
    let mut done = 0;
    while done < into.len() {
        let count = wires.receive(chan, &mut into[done..])?;
        done += count;
    }
    Ok(())
}
