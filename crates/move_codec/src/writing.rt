// Messages written.
ghost use Rattle.std.specs.Prelude.{◌≡◌, ◌+◌, ◌-◌, ◌^◌, ◌≤◌, ◌<◌, ◌++◌, [], length, OnOk, OnErr};
ghost use Rattle.vt_base.specs.Numbers.{number};
ghost use Rattle.move_codec.specs.Encoding.{HasPiece, IsInRange, Moves, fields_of, kind_of, before_body, encode_message};

use crate::format::{BARE_LENGTH, MAGIC, VERSION};
use crate::laws;
use crate::message::{Body, Message};
use crate::names::Named;
use std::alloc::{AllocError, Global};

fn put_number(text: &mut Vec<u8>, n: u32) -> Result<(), AllocError>
    ensures { OnOk result (text.new.items ≡ text.old.items ++ number n) }
{
    text.extend_from_slice(&n.to_be_bytes())
}

/// Writes what follows the epoch.
fn put_fields(text: &mut Vec<u8>, body: &Body) -> Result<(), AllocError>
    requires piece { HasPiece body.now }
    ensures fields { OnOk result (text.new.items ≡ text.old.items ++ fields_of body.now) }
{
    match body {
        Body::Offer { totals } => {
            let [record, permanent, volatile, saved] = *totals;
            put_number(text, record)?;
            put_number(text, permanent)?;
            put_number(text, volatile)?;
            put_number(text, saved)?;
        }
        Body::Need { part, offset } => {
            text.extend_from_slice(&[part.to_byte()])?;
            put_number(text, *offset)?;
        }
        Body::Piece {
            part,
            offset,
            bytes,
        } => {
            let bytes = bytes.as_slice();
            text.extend_from_slice(&[part.to_byte()])?;
            put_number(text, *offset)?;
            text.extend_from_slice(&(bytes.len() as u16).to_be_bytes())?;
            text.extend_from_slice(bytes)?;
        }
        Body::Prepared | Body::Commit | Body::Abort => {}
        Body::Refuse { reason, value } => {
            text.extend_from_slice(&[reason.to_byte()])?;
            put_number(text, *value)?;
        }
    }
    Ok(())
}

/// Writes what stands before the body, which has so many bytes.
fn put_header(text: &mut Vec<u8>, m: &Message, length: u32) -> Result<(), AllocError>
    requires empty { text.old.items ≡ [] }
    requires fits { length < 2 ^ 32 - 10 }
    ensures header { OnOk result (text.new.items ≡ before_body (10 + length) (kind_of m.now.body) m.now.to m.now.epoch) }
{
    text.extend_from_slice(&MAGIC)?;
    text.push(VERSION)?;
    put_number(text, BARE_LENGTH + length)?;
    text.extend_from_slice(&[m.body.kind().to_byte(), m.to.to_byte()])?;
    text.extend_from_slice(&m.epoch.to_be_bytes())
}

/// Appends the one encoding of a message, whose piece has 1 to 4096 bytes. The bytes are put together in memory of
/// their own, so that where memory is wanting nothing is appended.
#[tactic(auto, using(crate::proofs::Writes::fields_room))]
pub fn write_message(alloc: Global, m: &Message, into: &mut Vec<u8>) -> Result<(), AllocError>
    requires piece { HasPiece m.now.body }
    ensures written { OnOk result (into.new.items ≡ into.old.items ++ encode_message m.now) }
    ensures exact { Moves m.now (encode_message m.now) }
    ensures err { OnErr result (into.new.items ≡ into.old.items) }
{
    laws::messages_are_in_range(m);
    let mut fields = Vec::new(alloc);
    put_fields(&mut fields, &m.body)?;
    let mut text = Vec::new(alloc);
    put_header(&mut text, m, fields.len() as u32)?;
    text.extend_from_slice(&fields)?;
    into.extend_from_slice(&text)
}
