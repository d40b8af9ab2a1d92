//! The bytes behind a gate: version, role, top, length and stream.
ghost use Rattle.std.specs.Prelude.{◌≡◌, ◌+◌, ◌≤◌, ◌++◌, length, take, Some, IfOk};
ghost use Rattle.own_store.specs.Body.{role_of, role_byte, stored_in};

use crate::entry::{Entry, Role, STREAM_LIMIT};
use std::alloc::{AllocError, Global};
use vt_base::{Bytes, u16_at, u64_at};

// The places of the fields; the version comes first.
const ROLE_PLACE: usize = 8;

const TOP_PLACE: usize = 9;

const LENGTH_PLACE: usize = 17;

const STREAM_PLACE: usize = 19;

/// An entry and its version.
#[derive(Debug, Drop)]
pub struct Stored {
    pub version: u64,
    pub entry: Entry,
}

fn role_to_byte(role: Role) -> u8
    ensures { result ≡ role_byte role }
{
    match role {
        Role::Empty => 0,
        Role::Running => 1,
        Role::Released => 2,
        Role::Prepared => 3,
    }
}

fn role_from_byte(byte: u8) -> Option<Role>
    ensures { result ≡ role_of byte }
{
    match byte {
        0 => Some(Role::Empty),
        1 => Some(Role::Running),
        2 => Some(Role::Released),
        3 => Some(Role::Prepared),
        _ => None,
    }
}

/// The entry of a body with its version, if role and length are in range.
#[tactic(auto, unfolding(crate::specs::Body::stored_in))]
pub fn decode_body(alloc: Global, body: &[u8]) -> Result<Option<Stored>, AllocError>
    requires room { length body.now ≡ 8191 }
    ensures decoded { IfOk result (λ found. found ≡ stored_in body.now) }
{
    let Some(role) = role_from_byte(body[ROLE_PLACE]) else {
        return Ok(None);
    };
    let length = u16_at(body, LENGTH_PLACE) as usize;
    if length > STREAM_LIMIT {
        return Ok(None);
    }
    let (_, rest) = body.split_at(STREAM_PLACE);
    let (stream, _) = rest.split_at(length);
    let stream = Bytes::from_slice(alloc, stream)?;
    let entry = Entry {
        role,
        top: u64_at(body, TOP_PLACE),
        stream,
    };
    let version = u64_at(body, 0);
    Ok(Some(Stored { version, entry }))
}

// Puts bytes behind the first ones.
fn put(into: &mut [u8], at: usize, bytes: &[u8])
    requires { at + length bytes.now ≤ length into.old }
    ensures { take (at + length bytes.now) into.new ≡ take at into.old ++ bytes.now }
{
    into[at..at + bytes.len()].copy_from_slice(bytes);
}

/// Writes the body of an entry. What is behind its stream stays, and has no meaning.
pub fn encode_body(into: &mut [u8], version: u64, entry: &Entry)
    requires room { length into.old ≡ 8191 }
    requires limit { length entry.now.stream ≤ 7285 }
    ensures encoded { stored_in into.new ≡ Some (record { version = version; entry = entry.now }) }
{
    let stream = entry.stream.as_slice();
    put(into, 0, &version.to_be_bytes());
    put(into, ROLE_PLACE, &[role_to_byte(entry.role)]);
    put(into, TOP_PLACE, &entry.top.to_be_bytes());
    put(into, LENGTH_PLACE, &(stream.len() as u16).to_be_bytes());
    put(into, STREAM_PLACE, stream);
}
