//! The requests of a host to its emulator.
ghost use Rattle.std.specs.Prelude.{◌≡◌, ◌<◌, ◌≤◌, [], ◌∷◌, length, IfOk, OnErr, Ok, Err};
ghost use Rattle.ctrl_codec.specs.declared.request.Request.TheVariants.{Stop};
ghost use Rattle.move_core.specs.Requests.{wires_view, Asks, FetchesPiece, Gets, GivesPiece, GivesLastPiece, GetsTotal, GetsTotals, listed, SwitchesOn};
ghost use Rattle.vt_base.specs.declared.types.Kind.TheVariants.{Permanent, Volatile, Saved};

use ctrl_client::{ClientFault, Wires, get_piece, init, put_piece, stop};
use ctrl_model::LARGEST_PIECE;
use state_blobs::Piece;
use std::alloc::{AllocError, Global};
use vt_base::{Bytes, Kind};

/// A piece of a blob, and the length of the whole blob.
#[derive(Drop)]
pub struct Fetched {
    pub total: u32,
    pub bytes: Bytes,
}

/// Switches the emulator off, so that it takes blobs.
pub fn switch_off<W: Wires>(wires: &mut W) -> Result<(), ClientFault>
    ensures { let w = wires_view W.fails W.later (W.link wires.old) (W.schedule wires.old) (W.faults wires.old) (W.traffic wires.old) in
        let v = wires_view W.fails W.later (W.link wires.new) (W.schedule wires.new) (W.faults wires.new) (W.traffic wires.new) in
        Asks Stop [] w v result }
{
    stop(wires)
}

/// Gives the emulator the next piece of a blob.
pub fn give<W: Wires>(wires: &mut W, kind: Kind, bytes: &[u8]) -> Result<(), ClientFault>
    requires some { 0 < length bytes.now }
    requires most { length bytes.now ≤ LARGEST_PIECE }
    ensures { let w = wires_view W.fails W.later (W.link wires.old) (W.schedule wires.old) (W.faults wires.old) (W.traffic wires.old) in
        let v = wires_view W.fails W.later (W.link wires.new) (W.schedule wires.new) (W.faults wires.new) (W.traffic wires.new) in
        GivesPiece kind bytes.now w v result }
{
    put_piece(wires, kind, bytes)
}

// Switches the emulator on, with the blobs that it was given, unless the last piece failed.
fn switch_on<W: Wires>(wires: &mut W, given: Result<(), ClientFault>) -> Result<(), ClientFault>
    ensures { let w = wires_view W.fails W.later (W.link wires.old) (W.schedule wires.old) (W.faults wires.old) (W.traffic wires.old) in
        let v = wires_view W.fails W.later (W.link wires.new) (W.schedule wires.new) (W.faults wires.new) (W.traffic wires.new) in
        SwitchesOn given w v result }
{
    match given {
        Ok(()) => init(wires, 0),
        Err(fault) => Err(fault),
    }
}

/// Gives the emulator the last piece of all, and then switches it on.
pub fn give_last<W: Wires>(wires: &mut W, bytes: &[u8]) -> Result<(), ClientFault>
    requires some { 0 < length bytes.now }
    requires most { length bytes.now ≤ LARGEST_PIECE }
    ensures { let w = wires_view W.fails W.later (W.link wires.old) (W.schedule wires.old) (W.faults wires.old) (W.traffic wires.old) in
        let v = wires_view W.fails W.later (W.link wires.new) (W.schedule wires.new) (W.faults wires.new) (W.traffic wires.new) in
        GivesLastPiece bytes.now w v result }
{
    let given = give(wires, Kind::Saved, bytes);
    switch_on(wires, given)
}

// Asks for the piece of a blob at an offset.
fn get<W: Wires>(
    wires: &mut W,
    kind: Kind,
    offset: u32,
    into: &mut [u8],
) -> Result<Piece, ClientFault>
    ensures { let w = wires_view W.fails W.later (W.link wires.old) (W.schedule wires.old) (W.faults wires.old) (W.traffic wires.old) in
        let v = wires_view W.fails W.later (W.link wires.new) (W.schedule wires.new) (W.faults wires.new) (W.traffic wires.new) in
        Gets kind offset w v into.old into.new result }
{
    get_piece(wires, kind, offset, into)
}

/// Asks for the piece of a blob at an offset. Room for the longest piece is allocated first, so `AllocError` leaves the wires as
/// they were.
pub fn fetch<W: Wires>(
    alloc: Global,
    wires: &mut W,
    kind: Kind,
    offset: u32,
) -> Result<Result<Fetched, ClientFault>, AllocError>
    ensures fetches { IfOk result (λ got.
        let w = wires_view W.fails W.later (W.link wires.old) (W.schedule wires.old) (W.faults wires.old) (W.traffic wires.old) in
        let v = wires_view W.fails W.later (W.link wires.new) (W.schedule wires.new) (W.faults wires.new) (W.traffic wires.new) in
        FetchesPiece kind offset w v got) }
    ensures untouched { OnErr result (wires.new ≡ wires.old) }
{
    let mut bytes = Bytes::from_slice(alloc, &[0; LARGEST_PIECE])?;
    match get(wires, kind, offset, bytes.as_mut_slice()) {
        Ok(piece) => {
            bytes.cut(piece.length as usize);
            Ok(Ok(Fetched {
                total: piece.total,
                bytes,
            }))
        }
        Err(fault) => Ok(Err(fault)),
    }
}

// Asks for the length of a blob.
fn total<W: Wires>(wires: &mut W, kind: Kind) -> Result<u32, ClientFault>
    ensures { let w = wires_view W.fails W.later (W.link wires.old) (W.schedule wires.old) (W.faults wires.old) (W.traffic wires.old) in
        let v = wires_view W.fails W.later (W.link wires.new) (W.schedule wires.new) (W.faults wires.new) (W.traffic wires.new) in
        GetsTotal kind w v result }
{
    let mut room = [0; LARGEST_PIECE];
    match get(wires, kind, 0, &mut room) {
        Ok(piece) => Ok(piece.total),
        Err(fault) => Err(fault),
    }
}

/// Asks for the lengths of the three blobs, up to the first fault.
pub fn totals<W: Wires>(wires: &mut W) -> Result<(u32, u32, u32), ClientFault>
    ensures { let w = wires_view W.fails W.later (W.link wires.old) (W.schedule wires.old) (W.faults wires.old) (W.traffic wires.old) in
        let v = wires_view W.fails W.later (W.link wires.new) (W.schedule wires.new) (W.faults wires.new) (W.traffic wires.new) in
        GetsTotals (Permanent ∷ Volatile ∷ Saved ∷ []) w v (listed result) }
{
    match total(wires, Kind::Permanent) {
        Ok(permanent) => match total(wires, Kind::Volatile) {
            Ok(volatile) => match total(wires, Kind::Saved) {
                Ok(saved) => Ok((permanent, volatile, saved)),
                Err(fault) => Err(fault),
            },
            Err(fault) => Err(fault),
        },
        Err(fault) => Err(fault),
    }
}
