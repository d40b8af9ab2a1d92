//! Streams read.

ghost use Rattle.std.specs.Prelude.{◌≡◌, ◌≢◌, ◌+◌, ◌^◌, ◌<◌, ◌≤◌, true, false, [], length, drop, IfOk, IfErr, OnOk, OnErr};
ghost use Rattle.vt_base.specs.Refusing.{malformed};
ghost use Rattle.vt_base.specs.declared.types.Why.TheVariants.{Cut};
ghost use Rattle.vt_base.specs.declared.types.Kind.TheVariants.{Permanent, Volatile, Saved};
ghost use Rattle.crb_machine.specs.Values.{held_values};
ghost use Rattle.crb_machine.specs.Over.{IsConsistentDevice, HasClaimedNumber};
ghost use Rattle.device_record.specs.Records.{IsRecord};
ghost use Rattle.state_blobs.specs.Refusals.{length_field};
ghost use Rattle.saved_stream.specs.declared.part.Part.TheVariants.{Record, Blob};
ghost use Rattle.saved_stream.specs.Parts.{parts};
ghost use Rattle.saved_stream.specs.Streams.{IsStream};
ghost use Rattle.saved_stream.specs.Refusals.{moved, IsStopped, ArePartsRefused, HasHead, IsStreamRefused};
ghost use Rattle.saved_stream.specs.Places.{between, IsPartAt, AreAt};

use crate::format::{HEADER_SIZE, LENGTH_PLACE};
use crate::head::length_of;
use crb_machine::Device;
use crb_port::Port;
use device_record::{check_record, load_record};
use state_blobs::{Gather, assemble};
use std::alloc::{AllocError, Global};
use tpm_core::Tpm;
use vt_base::{Kind, Malformed, Why};

/// Gives a held device the values of a stream's record, and makes the TPM of its blobs. Bytes that are no stream are
/// refused. After a refusal, or for lack of memory, the device is as before. It stays held.
pub fn read_stream<P: Port>(
    alloc: Global,
    bytes: &[u8],
    device: &mut Device<P>,
) -> Result<Result<Tpm, Malformed>, AllocError>
    requires held { device.old.held ≡ true }

    ensures stream { IfOk result (λ read. IfOk read (λ tpm. IsStream bytes.now (record { tpm = tpm; device = held_values device.new }))) }
    ensures refused { IfOk result (λ read. IfErr read (λ fault. IsStreamRefused fault bytes.now)) }
    ensures unchanged { IfOk result (λ read. OnErr read (device.new ≡ device.old)) }
    ensures err { OnErr result (device.new ≡ device.old) }
    ensures held { device.new.held ≡ true }
    ensures port { device.new.port ≡ device.old.port }
    ensures consistent { IfOk result (λ read. OnOk read (IsConsistentDevice P.port_view device.new)) }
    ensures claimed_number { IfOk result (λ read. OnOk read (HasClaimedNumber P.port_view device.new)) }
    ensures rest_unchanged { P.rest device.new.port ≡ P.rest device.old.port }
{
    let mut permanent = Gather::new(alloc, Kind::Permanent)?;
    let mut volatile = Gather::new(alloc, Kind::Volatile)?;
    let mut saved = Gather::new(alloc, Kind::Saved)?;
    let tpm = read_whole(bytes, device, &mut permanent, &mut volatile, &mut saved);
    Ok(tpm)
}

/// Where the blobs of a stream begin, and where the last one ends.
#[derive(Clone, Copy)]
pub struct Places {
    pub permanent: usize,
    pub volatile: usize,
    pub saved: usize,
    pub end: usize,
}

impl Places {
    ghost use Rattle.saved_stream.specs.Places.{begin_of};

    /// Where the blob of a kind begins.
    fn begin_of(&self, kind: Kind) -> usize
        ensures { result ≡ begin_of kind self.now }
    {
        match kind {
            Kind::Permanent => self.permanent,
            Kind::Volatile => self.volatile,
            Kind::Saved => self.saved,
        }
    }
}

// Reads a stream. The device is loaded last, when nothing is left to refuse.
fn read_whole<P: Port>(
    bytes: &[u8],
    device: &mut Device<P>,
    permanent: &mut Gather,
    volatile: &mut Gather,
    saved: &mut Gather,
) -> Result<Tpm, Malformed>
    requires held { device.old.held ≡ true }
    requires permanent { permanent.old ≡ record { kind = Permanent; begun = []; whole = false } }
    requires volatile { volatile.old ≡ record { kind = Volatile; begun = []; whole = false } }
    requires saved { saved.old ≡ record { kind = Saved; begun = []; whole = false } }
    ensures stream { IfOk result (λ tpm. IsStream bytes.now (record { tpm = tpm; device = held_values device.new })) }
    ensures refused { IfErr result (λ fault. IsStreamRefused fault bytes.now) }
    ensures unchanged { OnErr result (device.new ≡ device.old) }
    ensures held { device.new.held ≡ true }
    ensures port { device.new.port ≡ device.old.port }
    ensures consistent { OnOk result (IsConsistentDevice P.port_view device.new) }
    ensures claimed_number { OnOk result (HasClaimedNumber P.port_view device.new) }
    ensures rest_unchanged { P.rest device.new.port ≡ P.rest device.old.port }
{
    let length = length_of(bytes)?;
    let at = parts_at(bytes, permanent, volatile, saved)?;
    if length as usize != at.end - HEADER_SIZE {
        return Err(Malformed {
            why: Why::Length,
            place: LENGTH_PLACE as u32,
        });
    }
    let tpm = match assemble(permanent, volatile, saved) {
        Ok(tpm) => tpm,
        Err(blame) => return Err(moved(at.begin_of(blame.kind), blame.fault)),
    };
    if at.end < bytes.len() {
        return Err(Malformed {
            why: Why::Extra,
            place: at.end as u32,
        });
    }
    load(bytes, at.permanent, device);
    Ok(tpm)
}

/// Gives the device the values of the record, which ends at this place.
fn load<P: Port>(bytes: &[u8], end: usize, device: &mut Device<P>)
    requires held { device.old.held ≡ true }
    requires part { IsPartAt Record bytes.now 9 end }
    ensures ok { IsRecord (between bytes.now 9 end) (held_values device.new) }
    ensures held { device.new.held ≡ true }
    ensures port { device.new.port ≡ device.old.port }
    ensures consistent { IsConsistentDevice P.port_view device.new }
    ensures claimed_number { HasClaimedNumber P.port_view device.new }
    ensures rest_unchanged { P.rest device.new.port ≡ P.rest device.old.port }
{
    device_record::laws::records_are_prefix_free();
    let (_, rest) = bytes.split_at(HEADER_SIZE);
    let Ok(()) = load_record(device, &rest[..end - HEADER_SIZE]) else {
        unreachable!()
    };
}

/// Reads the four parts, and says where they stand.
fn parts_at(
    bytes: &[u8],
    permanent: &mut Gather,
    volatile: &mut Gather,
    saved: &mut Gather,
) -> Result<Places, Malformed>
    requires head { 9 ≤ length bytes.now }
    requires permanent { permanent.old ≡ record { kind = Permanent; begun = []; whole = false } }
    requires volatile { volatile.old ≡ record { kind = Volatile; begun = []; whole = false } }
    requires saved { saved.old ≡ record { kind = Saved; begun = []; whole = false } }
    ensures parts { IfOk result (AreAt bytes.now) }
    ensures permanent { IfOk result (λ at. permanent.new ≡ record { kind = Permanent; begun = between bytes.now at.permanent at.volatile; whole = true }) }
    ensures volatile { IfOk result (λ at. volatile.new ≡ record { kind = Volatile; begun = between bytes.now at.volatile at.saved; whole = true }) }
    ensures saved { IfOk result (λ at. saved.new ≡ record { kind = Saved; begun = between bytes.now at.saved at.end; whole = true }) }
    ensures refused { IfErr result (λ fault. ArePartsRefused parts 9 fault (drop 9 bytes.now)) }
{
    let record_end = record_in(bytes, HEADER_SIZE)?;
    let permanent_end = blob_in(bytes, record_end, permanent)?;
    let volatile_end = blob_in(bytes, permanent_end, volatile)?;
    let saved_end = blob_in(bytes, volatile_end, saved)?;
    Ok(Places {
        permanent: record_end,
        volatile: permanent_end,
        saved: volatile_end,
        end: saved_end,
    })
}

/// Says where the record ends that begins at a place. All bytes from there are checked, and what is refused as extra isn't
/// its own.
fn record_in(bytes: &[u8], from: usize) -> Result<usize, Malformed>
    requires from { from ≤ length bytes.now }
    requires near { from ≤ 9 }
    ensures part { IfOk result (IsPartAt Record bytes.now from) }
    ensures refused { IfErr result (λ fault. IsStopped Record from fault (drop from bytes.now)) }
{
    device_record::laws::records_are_prefix_free();
    let (_, rest) = bytes.split_at(from);
    let Err(fault) = check_record(rest) else {
        return Ok(bytes.len());
    };
    let Why::Extra = fault.why else {
        return Err(moved(from, fault));
    };
    Ok(from + fault.place as usize)
}

/// Gathers the blob that begins at a place, and says where it ends.
fn blob_in(bytes: &[u8], from: usize, gather: &mut Gather) -> Result<usize, Malformed>
    requires empty { gather.old.begun ≡ [] }
    requires from { from ≤ length bytes.now }
    requires near { from ≤ 11982 }
    ensures part { IfOk result (IsPartAt (Blob gather.old.kind) bytes.now from) }
    ensures begun { IfOk result (λ end. gather.new ≡ record { kind = gather.old.kind; begun = between bytes.now from end; whole = true }) }
    ensures refused { IfErr result (λ fault. IsStopped (Blob gather.old.kind) from fault (drop from bytes.now)) }
{
    state_blobs::laws::blobs_are_prefix_free();
    let (_, rest) = bytes.split_at(from);
    let fault = match gather.push(rest) {
        Ok(true) => return Ok(bytes.len()),
        Ok(false) => return Err(moved(from, cut_behind(gather))),
        Err(fault) => fault,
    };
    let Why::Extra = fault.why else {
        return Err(moved(from, fault));
    };
    let count = fault.place as usize;
    match gather.push(&rest[..count]) {
        Ok(true) => Ok(from + count),
        Ok(false) => unreachable!(),
        Err(_) => unreachable!(),
    }
}

/// The bytes end before the blob does.
fn cut_behind(gather: &Gather) -> Malformed
    ensures fault { result ≡ malformed Cut (length gather.now.begun) }
    ensures within_limit { result.place ≤ 1942 }
{
    Malformed {
        why: Why::Cut,
        place: gather.len() as u32,
    }
}

/// A fault in bytes that begin at a place.
fn moved(place: usize, fault: Malformed) -> Malformed
    requires { place + fault.place < 2 ^ 32 }
    ensures { result ≡ moved place fault }
{
    Malformed {
        why: fault.why,
        place: place as u32 + fault.place,
    }
}
