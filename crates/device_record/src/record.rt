//! The record of a device.

ghost use Rattle.std.specs.Prelude.{◌≡◌, ◌≢◌, ◌≤◌, true, length, take, drop, OnOk, OnErr, IfErr};
ghost use Rattle.crb_machine.specs.Values.{DeviceValues, AreValid, held_values, with_values};
ghost use Rattle.crb_machine.specs.Over.{IsConsistentDevice, HasClaimedNumber};
ghost use Rattle.device_record.specs.Records.{encode_record, IsRecord};
ghost use Rattle.device_record.specs.Layouts.{IsRefused};

use crate::fields::Fields;
use crate::format::{HEADER_SIZE, RECORD_ROOM};
use crate::reading::fields_in;
use crate::writing::{put_record, trimmed_length};
use crb_machine::{Device, HeldState};
use crb_port::Port;
use crb_regs::Phase;
use vt_base::Malformed;

/// Writes the record of a held device at the start of the bytes, and gives its length. A lost device has none.
pub fn write_record<P: Port>(device: &Device<P>, into: &mut [u8; RECORD_ROOM]) -> usize
    requires held { device.now.held ≡ true }
    requires working { device.now.regs.phase ≢ Phase.Lost }

    ensures text { take result into.new ≡ encode_record (held_values device.now) }
    ensures rest_unchanged { drop result into.new ≡ drop result into.old }
    ensures fit { AreValid (held_values device.now) }
    ensures within { result ≤ 3991 }
    ensures size { length (encode_record (held_values device.now)) ≡ result }
{
    let state = device.state();
    let content = state.content;
    let count = trimmed_length(content);
    let fields = Fields {
        regs: state.regs,
        cancelled: state.cancelled,
        number: state.number,
        count: count as u16,
    };
    put_record(&fields, &content[..count], into);
    HEADER_SIZE + count
}

/// Whether these bytes are a record, and why not, with no device.
pub fn check_record(bytes: &[u8]) -> Result<(), Malformed>
    ensures ok { OnOk result ((v : DeviceValues) × IsRecord bytes.now v) }
    ensures refused { IfErr result (λ fault. IsRefused fault bytes.now) }
{
    fields_in(bytes)?;
    Ok(())
}

/// Gives a held device the values of the record that these bytes are. Bytes that are none are refused, and then nothing is
/// changed. The device stays held.
pub fn load_record<P: Port>(device: &mut Device<P>, bytes: &[u8]) -> Result<(), Malformed>
    requires held { device.old.held ≡ true }

    ensures ok { OnOk result (IsRecord bytes.now (held_values device.new)) }
    ensures restored { OnOk result ((v : DeviceValues) → IsRecord bytes.now v → device.new ≡ with_values v device.old) }
    ensures refused { IfErr result (λ fault. IsRefused fault bytes.now) }
    ensures unchanged { OnErr result (device.new ≡ device.old) }
    ensures held { device.new.held ≡ true }
    ensures port { device.new.port ≡ device.old.port }
    ensures consistent { OnOk result (IsConsistentDevice P.port_view device.new) }
    ensures claimed_number { OnOk result (HasClaimedNumber P.port_view device.new) }
    ensures rest_unchanged { P.rest device.new.port ≡ P.rest device.old.port }
{
    let fields = fields_in(bytes)?;
    device.set_state(&HeldState {
        regs: fields.regs,
        cancelled: fields.cancelled,
        number: fields.number,
        content: &bytes[HEADER_SIZE..],
    });
    Ok(())
}
