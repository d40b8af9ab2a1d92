//! What is asked over a link.
ghost use Rattle.std.specs.Prelude.{◌≡◌, ◌≢◌, ◌<◌, ◌≤◌, ℕ, [], length, is_ok, Some, Err, IfSome, OnOk};
ghost use Rattle.vt_base.specs.Faults.{Counts};
ghost use Rattle.ctrl_codec.specs.Requests.{HasData, IsInRange};
ghost use Rattle.ctrl_codec.specs.Replies.{encode_reply};
ghost use Rattle.ctrl_model.specs.Emulator.{EmulatorState, RequestOutcome, HandlesRequest, kind_of, type_of};
ghost use Rattle.ctrl_client.specs.Exchange.{IsQuiet, SendsRequest, Exchanges, HasResult, Commands, CountsLink};
ghost use Rattle.ctrl_client.specs.Traffic.{Went, Passed, AnswersResult, encode_zeroed_request};

use crate::fault::ClientFault;
use crate::receive::receive_exact;
use crate::wires::Wires;
use ctrl_codec::{DATA_PLACE, Out, Request, write_request};
use ctrl_model::{LARGEST_PIECE, PERMANENT_BLOB, SAVED_BLOB, VOLATILE_BLOB};
use vt_base::{Chan, Failed, Kind};

// Sends a request, and its data behind it.
fn send_request<W: Wires>(wires: &mut W, request: &Request, payload: &[u8]) -> Result<(), Failed>
    requires range { IsInRange request.now }
    requires data { HasData request.now payload.now }
    ensures exact { IfSome (W.link wires.old) (λ l. IsQuiet l
        → SendsRequest W.fails W.later request.now payload.now l (W.schedule wires.old) (is_ok result) (W.link wires.new) (W.schedule wires.new)) }
    ensures went { OnOk result (Went Chan.Ctrl (encode_zeroed_request request.now payload.now) (W.traffic wires.old) (W.traffic wires.new)) }
    ensures counts { Counts (W.faults wires.old) (W.faults wires.new) result }
    ensures uncut { W.cuts wires.new ≡ W.cuts wires.old }
{
    let mut out = Out::new();
    write_request(request, payload, &mut out);
    let bytes = out.bytes();
    if payload.is_empty() {
        return wires.send(Chan::Ctrl, bytes);
    }
    let (head, tail) = bytes.split_at(DATA_PLACE);
    wires.send(Chan::Ctrl, head)?;
    wires.send(Chan::Ctrl, tail)
}

// Sends a request, and fills the slice with the first bytes of its reply.
pub(crate) fn exchange<W: Wires>(
    wires: &mut W,
    request: &Request,
    payload: &[u8],
    reply: &mut [u8],
) -> Result<(), Failed>
    requires range { IsInRange request.now }
    requires data { HasData request.now payload.now }
    requires some { 0 < length reply.old }
    requires room { (d : EmulatorState) (request_outcome : RequestOutcome) → HandlesRequest request.now payload.now d request_outcome → length reply.old ≤ length (encode_reply request_outcome.reply request_outcome.payload) }
    ensures exact { IfSome (W.link wires.old) (λ l. IsQuiet l
        → Exchanges W.fails W.later request.now payload.now l (W.schedule wires.old) (is_ok result) reply.new (W.link wires.new) (W.schedule wires.new)) }
    ensures passed { OnOk result (Passed request.now payload.now reply.new (W.traffic wires.old) (W.traffic wires.new)) }
    ensures size { length reply.new ≡ length reply.old }
    ensures counts { Counts (W.faults wires.old) (W.faults wires.new) result }
    ensures uncut { W.cuts wires.new ≡ W.cuts wires.old }
{
    send_request(wires, request, payload)?;
    receive_exact(wires, Chan::Ctrl, reply)
}

// Sends a request that is answered by a result alone.
fn command<W: Wires>(wires: &mut W, request: &Request, payload: &[u8]) -> Result<(), ClientFault>
    requires range { IsInRange request.now }
    requires data { HasData request.now payload.now }
    requires result { HasResult request.now }
    ensures exact { IfSome (W.link wires.old) (λ l. IsQuiet l
        → Commands W.fails W.later request.now payload.now l (W.schedule wires.old) result (W.link wires.new) (W.schedule wires.new)) }

    // Over any wires.
    ensures reply { result ≢ Err ClientFault.Link → AnswersResult request.now payload.now (W.traffic wires.old) (W.traffic wires.new) result }
    ensures counts { CountsLink (W.faults wires.old) (W.faults wires.new) result }
    ensures uncut { W.cuts wires.new ≡ W.cuts wires.old }
    ensures refused { (number : ℕ) → result ≡ Err (ClientFault.Result number) → number ≢ 0 }
    ensures no_reply { (place : ℕ) → result ≢ Err (ClientFault.Reply place) }
{
    let mut reply = [0; 4];
    if exchange(wires, request, payload, &mut reply).is_err() {
        return Err(ClientFault::Link);
    }
    match u32::from_be_bytes(reply) {
        0 => Ok(()),
        result => Err(ClientFault::Result(result)),
    }
}

// The type of a blob, as it stands in a message.
pub(crate) fn type_of(kind: Kind) -> u32
    ensures kind { kind_of result ≡ Some kind }
    ensures value { result ≡ type_of kind }
{
    match kind {
        Kind::Permanent => PERMANENT_BLOB,
        Kind::Volatile => VOLATILE_BLOB,
        Kind::Saved => SAVED_BLOB,
    }
}

/// Switches the emulator on. Where blobs were given to it its TPM is assembled from them; otherwise the TPM that it has is
/// powered on, unless its volatile state was stored. Bit 0 of the flags deletes the volatile state.
pub fn init<W: Wires>(wires: &mut W, flags: u32) -> Result<(), ClientFault>
    // Over wires whose link is known, while no byte waits on the control channel and it is open.
    ensures exact { IfSome (W.link wires.old) (λ l. IsQuiet l
        → Commands W.fails W.later (Request.Init flags) [] l (W.schedule wires.old) result (W.link wires.new) (W.schedule wires.new)) }

    // Over any wires.
    ensures reply { result ≢ Err ClientFault.Link → AnswersResult (Request.Init flags) [] (W.traffic wires.old) (W.traffic wires.new) result }
    ensures counts { CountsLink (W.faults wires.old) (W.faults wires.new) result }
    ensures uncut { W.cuts wires.new ≡ W.cuts wires.old }
    ensures refused { (number : ℕ) → result ≡ Err (ClientFault.Result number) → number ≢ 0 }
    ensures no_reply { (place : ℕ) → result ≢ Err (ClientFault.Reply place) }
{
    command(wires, &Request::Init { flags }, &[])
}

/// Switches the emulator off. It keeps its TPM, and forgets the blobs that were given to it.
pub fn stop<W: Wires>(wires: &mut W) -> Result<(), ClientFault>
    // Over wires whose link is known, while no byte waits on the control channel and it is open.
    ensures exact { IfSome (W.link wires.old) (λ l. IsQuiet l
        → Commands W.fails W.later Request.Stop [] l (W.schedule wires.old) result (W.link wires.new) (W.schedule wires.new)) }

    // Over any wires.
    ensures reply { result ≢ Err ClientFault.Link → AnswersResult Request.Stop [] (W.traffic wires.old) (W.traffic wires.new) result }
    ensures counts { CountsLink (W.faults wires.old) (W.faults wires.new) result }
    ensures uncut { W.cuts wires.new ≡ W.cuts wires.old }
    ensures refused { (number : ℕ) → result ≡ Err (ClientFault.Result number) → number ≢ 0 }
    ensures no_reply { (place : ℕ) → result ≢ Err (ClientFault.Reply place) }
{
    command(wires, &Request::Stop, &[])
}

/// Asks that the command which the emulator holds be cancelled.
pub fn cancel<W: Wires>(wires: &mut W) -> Result<(), ClientFault>
    // Over wires whose link is known, while no byte waits on the control channel and it is open.
    ensures exact { IfSome (W.link wires.old) (λ l. IsQuiet l
        → Commands W.fails W.later Request.CancelCommand [] l (W.schedule wires.old) result (W.link wires.new) (W.schedule wires.new)) }

    // Over any wires.
    ensures reply { result ≢ Err ClientFault.Link → AnswersResult Request.CancelCommand [] (W.traffic wires.old) (W.traffic wires.new) result }
    ensures counts { CountsLink (W.faults wires.old) (W.faults wires.new) result }
    ensures uncut { W.cuts wires.new ≡ W.cuts wires.old }
    ensures refused { (number : ℕ) → result ≡ Err (ClientFault.Result number) → number ≢ 0 }
    ensures no_reply { (place : ℕ) → result ≢ Err (ClientFault.Reply place) }
{
    command(wires, &Request::CancelCommand, &[])
}

/// Gives a piece of a blob to the emulator, behind the pieces before it. Needs 1 to 4096 bytes.
pub fn put_piece<W: Wires>(wires: &mut W, kind: Kind, bytes: &[u8]) -> Result<(), ClientFault>
    requires some { 0 < length bytes.now }
    requires most { length bytes.now ≤ LARGEST_PIECE }
    // Over wires whose link is known, while no byte waits on the control channel and it is open.
    ensures exact { IfSome (W.link wires.old) (λ l. IsQuiet l
        → Commands W.fails W.later (Request.SetStateBlob 0 (type_of kind) (length bytes.now)) bytes.now l (W.schedule wires.old) result (W.link wires.new) (W.schedule wires.new)) }

    // Over any wires.
    ensures reply { result ≢ Err ClientFault.Link → AnswersResult (Request.SetStateBlob 0 (type_of kind) (length bytes.now)) bytes.now (W.traffic wires.old) (W.traffic wires.new) result }
    ensures counts { CountsLink (W.faults wires.old) (W.faults wires.new) result }
    ensures uncut { W.cuts wires.new ≡ W.cuts wires.old }
    ensures refused { (number : ℕ) → result ≡ Err (ClientFault.Result number) → number ≢ 0 }
    ensures no_reply { (place : ℕ) → result ≢ Err (ClientFault.Reply place) }
{
    let request = Request::SetStateBlob {
        flags: 0,
        kind: type_of(kind),
        length: bytes.len() as u32,
    };
    command(wires, &request, bytes)
}
