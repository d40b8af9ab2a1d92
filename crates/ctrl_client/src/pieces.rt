//! A piece of a blob, and the size of the buffer.
ghost use Rattle.std.specs.Prelude.{◌≡◌, ◌≢◌, ◌≤◌, ℕ, length, take, drop, nat_lt, if◌then◌else◌, false, Err, IfOk, IfErr, IfSome, OnOk, OnErr, option_map};
ghost use Rattle.vt_base.specs.Numbers.{big_endian_at};
ghost use Rattle.std.specs.Int.{w32};
ghost use Rattle.ctrl_model.specs.Emulator.{type_of};
ghost use Rattle.ctrl_model.specs.Link.{empty_channel, receivable, cut};
ghost use Rattle.ctrl_client.specs.Pieces.{checked_fields, leaves_bytes, IsPiece, IsPlace, HasField, Fetches, TakesData, IsSized, Sizes};
ghost use Rattle.ctrl_client.specs.Exchange.{CountsLink};
ghost use Rattle.ctrl_client.specs.Traffic.{Came, CamePart, fields_in, AnswersPiece, CutsForBytes, LeavesSlice, AnswersSize};

use crate::client::{exchange, type_of};
use crate::fault::ClientFault;
use crate::places::{FIXED_LENGTH, SIZE_PLACE};
use crate::receive::receive_exact;
use crate::wires::Wires;
use ctrl_codec::Request;
use ctrl_model::{FLAGS_PLACE, LENGTH_PLACE, SUCCESS, TOTAL_PLACE};
use state_blobs::Piece;
use std::marker::Model;
use vt_base::{Chan, Kind, u32_at};

// The fixed fields of a reply to GET_STATEBLOB.
#[derive(Drop)]
struct Fields {
    result: u32,
    flags: u32,
    total: u32,
    length: u32,
}

impl Model for Fields {
    ghost use Rattle.ctrl_client.specs.Pieces.{BlobFields};

    ghost Value = { BlobFields };

    ghost view = { λ f. record { result = f.result; flags = f.flags; total = f.total; size = f.length } };
}

impl Fields {
    fn read(bytes: &[u8; FIXED_LENGTH]) -> Fields
        ensures { result ≡ fields_in bytes.now }
    {
        Fields {
            result: u32_at(bytes, 0),
            flags: u32_at(bytes, FLAGS_PLACE as usize),
            total: u32_at(bytes, TOTAL_PLACE as usize),
            length: u32_at(bytes, LENGTH_PLACE as usize),
        }
    }

    // The piece that they give, or why they can't stand.
    fn check(&self, offset: u32, room: usize) -> Result<Piece, ClientFault>
        ensures checked { result ≡ checked_fields self.now offset room }
        ensures piece { IfOk result (IsPiece offset room) }
    {
        if self.result != SUCCESS {
            return Err(ClientFault::Result(self.result));
        }
        if self.flags != 0 {
            return Err(ClientFault::Reply(FLAGS_PLACE));
        }
        if self.total < offset {
            return Err(ClientFault::Reply(TOTAL_PLACE));
        }
        let left = self.total - offset;
        if self.length > left || self.length as usize > room || (self.length == 0 && left > 0) {
            return Err(ClientFault::Reply(LENGTH_PLACE));
        }
        Ok(Piece {
            total: self.total,
            length: self.length,
        })
    }
}

/// Asks for a piece of a blob, from this place on, and puts its bytes in front of `into`. The emulator says how long a piece
/// is. A piece longer than `into`, or an empty piece before the end of the blob, gives `Reply`.
///
/// The bytes of `into` behind the piece stay as they were, and with a refusal all of them do. After `Link`, `into` begins
/// with the bytes that were received. From there to the piece's length it may hold anything. After `Reply`, and after
/// `Result` where the reply says that data follows it, the control channel is cut: those bytes must not be read as the
/// next reply. After a `Result` with no data there is nothing to forget, and the channel isn't cut.
pub fn get_piece<W: Wires>(
    wires: &mut W,
    kind: Kind,
    offset: u32,
    into: &mut [u8],
) -> Result<Piece, ClientFault>
    // Over wires whose link is known, while no byte waits on the control channel and it is open, and where the blob's
    // length fits its field: the answer is the one that the fields of the emulator's reply make.
    ensures exact { IfSome (W.link wires.old) (λ l. HasField kind l
        → Fetches W.fails W.later kind offset (length into.old) l (W.schedule wires.old) result into.old into.new (W.link wires.new) (W.schedule wires.new)) }

    // Over any wires.
    ensures reply { result ≢ Err ClientFault.Link
        → AnswersPiece (Request.GetStateBlob 0 (type_of kind) offset) offset (W.traffic wires.old) (W.traffic wires.new) (W.link wires.new) into.old into.new result }
    ensures slice { result ≡ Err ClientFault.Link
        → LeavesSlice (Request.GetStateBlob 0 (type_of kind) offset) offset (W.traffic wires.old) (W.traffic wires.new) into.old into.new }
    ensures uncut { result ≡ Err ClientFault.Link → W.cuts wires.new ≡ W.cuts wires.old }
    ensures cuts { result ≢ Err ClientFault.Link
        → CutsForBytes (Request.GetStateBlob 0 (type_of kind) offset) offset (length into.old) (W.traffic wires.old) (W.traffic wires.new) (W.cuts wires.old) (W.cuts wires.new) result }
    ensures piece { IfOk result (IsPiece offset (length into.old)) }
    ensures counts { CountsLink (W.faults wires.old) (W.faults wires.new) result }
    ensures refused { (number : ℕ) → result ≡ Err (ClientFault.Result number) → number ≢ 0 }
    ensures place { (place : ℕ) → result ≡ Err (ClientFault.Reply place) → IsPlace place }

    // After a reply that can't stand nothing waits on the channel.
    ensures cut { (place : ℕ) → result ≡ Err (ClientFault.Reply place) → IfSome (W.link wires.new) (λ l. l.control ≡ empty_channel) }
{
    let request = Request::GetStateBlob {
        flags: 0,
        kind: type_of(kind),
        offset,
    };
    let mut fixed = [0; FIXED_LENGTH];
    if exchange(wires, &request, &[], &mut fixed).is_err() {
        return Err(ClientFault::Link);
    }
    let fields = Fields::read(&fixed);
    match fields.check(offset, into.len()) {
        Ok(piece) => receive_data(wires, piece, into),
        Err(fault) => {
            forget_rest(wires, fault, &fields);
            Err(fault)
        }
    }
}

// Cuts the control channel where more bytes of a reply may come whose fields were refused.
fn forget_rest<W: Wires>(wires: &mut W, fault: ClientFault, fields: &Fields)
    ensures link { W.link wires.new ≡ (if leaves_bytes (Err fault) fields.now.size then option_map (cut Chan.Ctrl) (W.link wires.old) else W.link wires.old) }
    ensures schedule { IfSome (W.link wires.old) (λ _. W.schedule wires.new ≡ W.schedule wires.old) }
    ensures traffic { W.traffic wires.new ≡ W.traffic wires.old }
    ensures uncut { leaves_bytes (Err fault) fields.now.size ≡ false → W.cuts wires.new ≡ W.cuts wires.old }
    ensures faults { W.faults wires.new ≡ W.faults wires.old }
{
    let is_malformed = match fault {
        ClientFault::Reply(_) => true,
        ClientFault::Result(_) | ClientFault::Link => false,
    };
    if is_malformed || fields.length > 0 {
        wires.cut(Chan::Ctrl);
    }
}

// Receives the data of a piece into the start of `into`, if there is any.
fn receive_data<W: Wires>(
    wires: &mut W,
    piece: Piece,
    into: &mut [u8],
) -> Result<Piece, ClientFault>
    requires room { piece.length ≤ length into.old }
    ensures exact { IfSome (W.link wires.old) (λ m. piece.length ≤ length (receivable Chan.Ctrl m)
        → TakesData (nat_lt 0 piece.length) W.fails W.later piece m (W.schedule wires.old) result into.old into.new (W.link wires.new) (W.schedule wires.new)) }
    ensures piece { IfOk result (λ p. p ≡ piece) }
    ensures came { OnOk result (Came Chan.Ctrl (take piece.length into.new) (W.traffic wires.old) (W.traffic wires.new)) }
    ensures part { OnErr result (CamePart Chan.Ctrl (take piece.length into.new) (W.traffic wires.old) (W.traffic wires.new)) }
    ensures rest_unchanged { drop piece.length into.new ≡ drop piece.length into.old }
    ensures size { length into.new ≡ length into.old }
    ensures fault { IfErr result (λ fault. fault ≡ ClientFault.Link) }
    ensures counts { CountsLink (W.faults wires.old) (W.faults wires.new) result }
    ensures uncut { W.cuts wires.new ≡ W.cuts wires.old }
{
    if piece.length == 0 {
        return Ok(piece);
    }
    let prefix = &mut into[..piece.length as usize];
    match receive_exact(wires, Chan::Ctrl, prefix) {
        Ok(()) => Ok(piece),
        Err(_) => Err(ClientFault::Link),
    }
}

/// Asks for another size of the buffer of commands and responses, and gives the size that the emulator took; 0 asks for the
/// size that it has.
pub fn set_buffer<W: Wires>(wires: &mut W, size: u32) -> Result<u32, ClientFault>
    // Over wires whose link is known, while no byte waits on the control channel and it is open.
    ensures exact { IfSome (W.link wires.old) (λ l. IsSized l
        → Sizes W.fails W.later size l (W.schedule wires.old) result (W.link wires.new) (W.schedule wires.new)) }

    // Over any wires.
    ensures reply { result ≢ Err ClientFault.Link → AnswersSize (Request.SetBufferSize size) (W.traffic wires.old) (W.traffic wires.new) result }
    ensures counts { CountsLink (W.faults wires.old) (W.faults wires.new) result }
    ensures uncut { W.cuts wires.new ≡ W.cuts wires.old }
    ensures refused { (number : ℕ) → result ≡ Err (ClientFault.Result number) → number ≢ 0 }
    ensures no_reply { (place : ℕ) → result ≢ Err (ClientFault.Reply place) }
{
    let mut reply = [0; FIXED_LENGTH];
    if exchange(wires, &Request::SetBufferSize { size }, &[], &mut reply).is_err() {
        return Err(ClientFault::Link);
    }
    match u32_at(&reply, 0) {
        SUCCESS => Ok(u32_at(&reply, SIZE_PLACE)),
        result => Err(ClientFault::Result(result)),
    }
}
