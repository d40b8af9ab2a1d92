//! A seat is saved, and made again from what was saved.
ghost use Rattle.std.specs.Prelude.{◌≡◌, ◌≤◌, ◌++◌, true, None, length, OnOk, OnErr, IfOk};
ghost use Rattle.crb_machine.specs.Values.{DeviceValues};
ghost use Rattle.tpm_core.specs.declared.parts.TpmParts.{TpmParts};
ghost use Rattle.crb_history.specs.Snapshot.{Snapshot};
ghost use Rattle.vt_transcript.specs.OneHost.{OneHost};
ghost use Rattle.device_record.specs.Records.{encode_record};
ghost use Rattle.saved_stream.specs.Streams.{encode_stream};
ghost use Rattle.move_core.specs.Sides.{is_running};
ghost use Rattle.vt_seat.specs.Follows.{RefinesOneHost};
ghost use Rattle.vt_seat.specs.Seats.{world_of};
ghost use Rattle.vt_seat.specs.Blobs.{IsReadable};
ghost use Rattle.vt_seat.specs.Saving.{CanSave, Saves, Loads, IsLoaded};

use crate::blobs::{fetch, switch_on};
use crate::seat::Seat;
use crate::wires::MemWires;
use crb_machine::{Device, stopped_devices_go_on};
use crb_port::PlainPort;
use device_record::RECORD_ROOM;
use move_core::{Host, RecordFault};
use saved_stream::{read_stream, write_stream};
use state_blobs::LARGEST_BLOB;
use std::alloc::{AllocError, Global};
use vt_base::{HostName, Kind, Malformed};
use vt_emulator::Emulator;

/// What a save came to.
#[derive(Clone, Copy, Debug, PartialEq, Eq)]
pub enum Saved {
    /// The saved stream was appended.
    Whole,
    /// The command of this number is claimed and unfinished, and nothing was appended.
    NotYet(u64),
}

impl Seat<PlainPort> {
    /// Appends the saved stream of this host: the record of its device and the blobs of its TPM. A command that was started
    /// and that nobody has claimed is saved with the device. The seat goes on as before: its worker and its wires are as they
    /// were, and of its host only the device took back an answer, where one was there.
    ///
    /// No call on its wires may be ordered to fail, and its device may not be lost.
    pub fn save(&mut self, into: &mut Vec<u8>) -> Result<Saved, AllocError>
        requires runs { is_running self.old.host.stage ≡ true }
        requires can { (b : Snapshot) × (s : OneHost) × CanSave b s (world_of self.old) }
        ensures saves { IfOk result (λ saved. (b : Snapshot) (s : OneHost) → CanSave b s (world_of self.old) → Saves b s.history saved into.old.items into.new.items) }
        ensures goes_on { (b : Snapshot) (s : OneHost) → CanSave b s (world_of self.old) → RefinesOneHost b s (world_of self.new) }
        ensures others { self.new ≡ record self.old { host = record self.old.host { device = self.new.host.device } } }
        ensures err { OnErr result (into.new.items ≡ into.old.items) }
    {
        tpm_core::laws::pasts_join();
        stopped_devices_go_on::<PlainPort>();
        // The emulator gives its blobs in pieces of at least a byte.
        let has_tpm = self.wires.emulator().tpm().is_some();
        prove!(has_tpm);
        let _side = self.host.side();
        let mut record = [0; RECORD_ROOM];
        let written = self.host.write_record(&mut record);
        match written {
            Ok(count) => {
                append(&record[..count], &mut self.wires, into)?;
                Ok(Saved::Whole)
            }
            Err(RecordFault::NotYet { number }) => Ok(Saved::NotYet(number)),
            Err(_) => unreachable!(),
        }
    }

    /// The running host of this name that a saved stream encodes, with a worker that has nothing in hand; or why and
    /// where the bytes are no saved stream. Its emulator was given the blobs and then switched on; a piece of its
    /// record or of a blob has at most `piece` bytes.
    pub fn load(
        alloc: Global,
        name: HostName,
        bytes: &[u8],
        piece: u32,
    ) -> Result<Result<Seat<PlainPort>, Malformed>, AllocError>
        requires least { 1 ≤ piece }
        requires most { piece ≤ 4096 }
        ensures loads { IfOk result (Loads bytes.now) }
        ensures made { IfOk result (IsLoaded name piece) }
    {
        let mut device = Device::new(alloc, PlainPort::new())?;
        let Ok(()) = device.stop() else {
            unreachable!()
        };
        match read_stream(alloc, bytes, &mut device)? {
            Ok(tpm) => {
                let emulator = Emulator::empty(alloc, piece)?;
                let mut wires = MemWires::new(alloc, emulator)?;
                switch_on(&mut wires, &tpm);
                device.go_on();
                let host = Host::running(alloc, name, device, piece)?;
                let seat = Seat::new(host, wires);
                Ok(Ok(seat))
            }
            Err(fault) => Ok(Err(fault)),
        }
    }
}

// Appends the saved stream that begins with this record, with the blobs of the TPM behind the wires.
fn append(device: &[u8], wires: &mut MemWires, into: &mut Vec<u8>) -> Result<(), AllocError>
    requires readable { (t : TpmParts) × IsReadable wires.old t }
    requires short { length device.now ≤ 4096 }
    ensures ok { OnOk result ((t : TpmParts) (v : DeviceValues) → IsReadable wires.old t → device.now ≡ encode_record v
        → into.new.items ≡ into.old.items ++ encode_stream (record { tpm = t; device = v })) }
    ensures err { OnErr result (into.new.items ≡ into.old.items) }
    ensures link { wires.new.link ≡ wires.old.link }
    ensures calls_to_fault { wires.new.calls_to_fault ≡ None }
    ensures faults { wires.new.faults ≡ wires.old.faults }
{
    state_blobs::laws::blobs_are_prefix_free();
    let mut permanent = [0; LARGEST_BLOB];
    let permanent_length = fetch(wires, Kind::Permanent, 0, &mut permanent);
    let mut volatile = [0; LARGEST_BLOB];
    let volatile_length = fetch(wires, Kind::Volatile, 0, &mut volatile);
    let mut saved = [0; LARGEST_BLOB];
    let saved_length = fetch(wires, Kind::Saved, 0, &mut saved);
    write_stream(
        device,
        &permanent[..permanent_length],
        &volatile[..volatile_length],
        &saved[..saved_length],
        into,
    )
}
