// How migration messages are parsed from left to right.
ghost use Rattle.std.specs.Prelude.{◌≡◌};
ghost use Rattle.vt_base.specs.Parsing.{parsed};
ghost use Rattle.move_codec.specs.Messages.{offer, need, piece, refusal, body_of, receiver, after_length, after_magic, messages};
ghost use Rattle.move_codec.specs.Room.{messages_within};

use crate::format::{
    BARE_LENGTH, BODY_PLACE, COUNT_PLACE, KIND_PLACE, LARGEST_LENGTH, LARGEST_PIECE, LENGTH_PLACE,
    MAGIC, PIECE_LENGTH, RECEIVER_PLACE, VERSION, VERSION_PLACE,
};
use crate::names::{Kind, Named, Part};
use crate::outline::{Outline, Shape};
use vt_base::{
    Grammar, HostName, Malformed, Missing, Parsed, Reason, Why, behind_magic, byte_of, field_of,
    long_of, number_of, refused, short_of,
};

/// The grammar of migration messages.
pub(crate) struct Messages;

fn offer_of(to: HostName, epoch: u64, rest: &[u8]) -> Parsed<Outline>
    ensures { result ≡ parsed (offer to epoch) rest.now }
{
    let (record, rest) = number_of(rest)?;
    let (permanent, rest) = number_of(rest)?;
    let (volatile, rest) = number_of(rest)?;
    let (saved, _) = number_of(rest)?;
    let totals = [record, permanent, volatile, saved];
    let shape = Shape::Offer { totals };
    Ok(Ok(Outline { to, epoch, shape }))
}

fn need_of(to: HostName, epoch: u64, rest: &[u8]) -> Parsed<Outline>
    ensures { result ≡ parsed (need to epoch) rest.now }
{
    let (part, rest) = byte_of(rest)?;
    let Some(part) = Part::from_byte(part) else {
        return refused(Why::Value, BODY_PLACE);
    };
    let (offset, _) = number_of(rest)?;
    let shape = Shape::Need { part, offset };
    Ok(Ok(Outline { to, epoch, shape }))
}

fn piece_of(length: u32, to: HostName, epoch: u64, rest: &[u8]) -> Parsed<Outline>
    ensures { result ≡ parsed (piece length to epoch) rest.now }
{
    let (part, rest) = byte_of(rest)?;
    let Some(part) = Part::from_byte(part) else {
        return refused(Why::Value, BODY_PLACE);
    };
    let (offset, rest) = number_of(rest)?;
    let (count, rest) = short_of(rest)?;
    if count == 0 || count > LARGEST_PIECE {
        return refused(Why::Value, COUNT_PLACE);
    }
    if PIECE_LENGTH + u32::from(count) != length {
        return refused(Why::Length, COUNT_PLACE);
    }
    let _bytes = field_of(rest, usize::from(count))?;
    let shape = Shape::Piece { part, offset };
    Ok(Ok(Outline { to, epoch, shape }))
}

fn refusal_of(to: HostName, epoch: u64, rest: &[u8]) -> Parsed<Outline>
    ensures { result ≡ parsed (refusal to epoch) rest.now }
{
    let (reason, rest) = byte_of(rest)?;
    let Some(reason) = Reason::from_byte(reason) else {
        return refused(Why::Value, BODY_PLACE);
    };
    let (value, _) = number_of(rest)?;
    let shape = Shape::Refuse { reason, value };
    Ok(Ok(Outline { to, epoch, shape }))
}

fn body_of(kind: Kind, length: u32, to: HostName, epoch: u64, rest: &[u8]) -> Parsed<Outline>
    ensures { result ≡ parsed (body_of kind length to epoch) rest.now }
{
    let shape = match kind {
        Kind::Offer => return offer_of(to, epoch, rest),
        Kind::Need => return need_of(to, epoch, rest),
        Kind::Piece => return piece_of(length, to, epoch, rest),
        Kind::Refuse => return refusal_of(to, epoch, rest),
        Kind::Prepared => Shape::Prepared,
        Kind::Commit => Shape::Commit,
        Kind::Abort => Shape::Abort,
    };
    Ok(Ok(Outline { to, epoch, shape }))
}

fn receiver_of(kind: Kind, length: u32, rest: &[u8]) -> Parsed<Outline>
    ensures { result ≡ parsed (receiver kind length) rest.now }
{
    let (to, rest) = byte_of(rest)?;
    let Some(to) = HostName::from_byte(to) else {
        return refused(Why::Value, RECEIVER_PLACE);
    };
    let (epoch, rest) = long_of(rest)?;
    body_of(kind, length, to, epoch, rest)
}

fn kind_of(length: u32, rest: &[u8]) -> Parsed<Outline>
    ensures { result ≡ parsed (after_length length) rest.now }
{
    if length < BARE_LENGTH || length > LARGEST_LENGTH {
        return refused(Why::Length, LENGTH_PLACE);
    }
    let (kind, rest) = byte_of(rest)?;
    let Some(kind) = Kind::from_byte(kind) else {
        return refused(Why::Value, KIND_PLACE);
    };
    if !kind.fits(length) {
        return refused(Why::Length, LENGTH_PLACE);
    }
    receiver_of(kind, length, rest)
}

fn version_of(rest: &[u8]) -> Parsed<Outline>
    ensures { result ≡ parsed after_magic rest.now }
{
    let (version, rest) = byte_of(rest)?;
    if version != VERSION {
        return refused(Why::Version, VERSION_PLACE);
    }
    let (length, rest) = number_of(rest)?;
    kind_of(length, rest)
}

impl Grammar for Messages {
    type End = Result<Outline, Malformed>;

    ghost layout = { λ _. messages };

    ghost room = { λ _. 4122 };

    ghost within = { λ _. messages_within };

    #[tactic(auto, using(crate::proofs::MagicRead::parsed_message))]
    fn parse(&self, bytes: &[u8]) -> Result<Result<Outline, Malformed>, Missing> {
        match behind_magic(bytes, MAGIC)? {
            Ok(rest) => version_of(rest),
            Err(fault) => Ok(Err(fault)),
        }
    }
}
