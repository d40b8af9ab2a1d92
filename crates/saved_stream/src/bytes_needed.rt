//! How many bytes to ask for next, for a reader that takes a stream from a source bit by bit.

ghost use Rattle.std.specs.Prelude.{◌≡◌, ◌≤◌, length};
ghost use Rattle.vt_base.specs.Parsing.{parsed};
ghost use Rattle.state_blobs.specs.Refusals.{length_field};
ghost use Rattle.saved_stream.specs.Headers.{begins, is_header, parts_then, walk, wanted_after};

use crate::format::{HEADER_SIZE, LENGTH_PLACE, MAGIC, MAGIC_SIZE, VERSION};
use crate::part::Part;
use vt_base::{Kind, Missing, field_of, u32_at};

/// The parts, in their order.
const PARTS: [Part; 4] = [
    Part::Record,
    Part::Blob(Kind::Permanent),
    Part::Blob(Kind::Volatile),
    Part::Blob(Kind::Saved),
];

/// How many bytes are missing of the first header or body that isn't whole in `begin`: of the nine bytes before the
/// parts, of which the length isn't looked at, and of the header of nine bytes and the body of each part. It is 0 where
/// the body of the fourth part is whole, or where a whole header is refused, and then more bytes don't help. So a
/// reader that asks for as many bytes each time, and stops at 0, takes no byte past the end of a stream.
#[tactic(auto, using(crate::proofs::HeadersRead::walk_few))]
pub fn wanted(begin: &[u8]) -> u32
    ensures { result ≡ wanted_after begin.now }
{
    match walked(begin) {
        Ok(_) => 0,
        Err(Missing(count)) => count as u32,
    }
}

/// Whether the stream is whole, where nothing is missing.
#[tactic(auto, unfolding(crate::specs::Headers::walk))]
fn walked(begin: &[u8]) -> Result<bool, Missing>
    ensures walk { result ≡ parsed walk begin.now }
{
    let (head, rest) = field_of(begin, HEADER_SIZE)?;
    if !begins(head, MAGIC) {
        return Ok(false);
    }
    parts_walked(&PARTS, rest)
}

fn parts_walked(parts: &[Part], bytes: &[u8]) -> Result<bool, Missing>
    ensures walk { result ≡ parsed (parts_then parts.now) bytes.now }
{
    let [part, parts @ ..] = parts else {
        return Ok(true);
    };
    let (header, rest) = field_of(bytes, HEADER_SIZE)?;
    if !is_header(*part, header) {
        return Ok(false);
    }
    let (_, rest) = field_of(rest, length_in(header) as usize)?;
    parts_walked(parts, rest)
}

fn is_header(part: Part, header: &[u8]) -> bool
    requires { length header.now ≡ 9 }
    ensures { result ≡ is_header part header.now }
{
    header.starts_with(&part.magic()) && part.may_have(header[MAGIC_SIZE], length_in(header))
}

/// Whether a head begins with this magic and the version of streams.
fn begins(header: &[u8], magic: [u8; MAGIC_SIZE]) -> bool
    requires { length header.now ≡ 9 }
    ensures { result ≡ begins magic header.now }
{
    header.starts_with(&magic) && header[MAGIC_SIZE] == VERSION
}

/// The number in the length field of a header.
fn length_in(header: &[u8]) -> u32
    requires { 9 ≤ length header.now }
    ensures { result ≡ length_field header.now }
{
    u32_at(header, LENGTH_PLACE)
}
