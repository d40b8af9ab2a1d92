//! A blob that is read byte by byte, from left to right.

ghost use Rattle.std.specs.Prelude.{◌≡◌, ◌≤◌, ◌<◌, ◌+◌, ℕ, true, List, ◌∷◌, [], ◌++◌, take, IfOk, IfErr, OnOk, OnErr};
ghost use Rattle.vt_base.specs.Refusing.{malformed};
ghost use Rattle.state_blobs.specs.Encodings.{flag_fits};
ghost use Rattle.state_blobs.specs.Refusals.{IsRefused};
ghost use Rattle.state_blobs.specs.Partial.{header_in, fits_header, bytes_read, is_whole, AreValid, IsReading, ReadTheSame};

use crate::blobs::{banks_named, flag_fits, is_length, magic};
use crate::body_fields::{Fields, fields_are_valid, set_byte};
use crate::format::{FLAG_PLACE, HEADER_SIZE, LENGTH_PLACE, VERSION_PLACE};
use crate::numbers::number_with;
use tpm_core::{Banks, PCR_COUNT, SEED_SIZE, SHA256_DIGEST_SIZE, SHA384_DIGEST_SIZE};
use vt_base::{Kind, Malformed, Why};

/// What a header says: the banks that its version stands for, and how many bytes of body there are. What wasn't read yet
/// may have any value.
#[derive(Clone, Copy)]
pub struct Header {
    pub banks: Banks,
    pub length: u32,
}

/// How far a blob was read: the place of the next byte, the header and the fields.
#[derive(Drop)]
pub struct Reading {
    pub place: usize,
    pub header: Header,
    pub fields: Fields,
}

/// Nothing was read.
pub fn unread() -> Reading
    ensures place { result.place ≡ 0 }
    ensures valid { AreValid result.fields }
{
    let reading = Reading {
        place: 0,
        header: Header {
            banks: Banks::One,
            length: 0,
        },
        fields: Fields {
            seed: [0; SEED_SIZE],
            boots: 0,
            flag: 0,
            draws: 0,
            counter: 0,
            pcr: [[0; SHA256_DIGEST_SIZE]; PCR_COUNT],
            pcr384: [[0; SHA384_DIGEST_SIZE]; PCR_COUNT],
        },
    };
    fields_are_valid(&reading.fields);
    reading
}

/// Whether all bytes of the blob were read.
pub fn is_whole(reading: &Reading) -> bool
    ensures { result ≡ is_whole reading.now }
{
    reading.place == HEADER_SIZE + reading.header.length as usize
}

/// Reads the bytes, or refuses one of them and reads none.
pub fn read_bytes(reading: &mut Reading, kind: Kind, bytes: &[u8]) -> Result<(), Malformed>
    requires { IsReading kind reading.old }
    ensures reading { IsReading kind reading.new }
    ensures ok { OnOk result (bytes_read kind reading.new ≡ bytes_read kind reading.old ++ bytes.now) }
    ensures refused { IfErr result (λ fault. IsRefused kind fault (bytes_read kind reading.old ++ bytes.now)) }
    ensures err { OnErr result (ReadTheSame kind reading.old reading.new) }
{
    let before = reading.place;
    for byte in bytes {
        if let Err(fault) = read_byte(reading, kind, *byte) {
            // What the fields have from there on isn't read, and the next piece overwrites it.
            reading.place = before;
            return Err(fault);
        }
    }
    Ok(())
}

/// Reads the next byte, or refuses it and reads nothing.
fn read_byte(reading: &mut Reading, kind: Kind, byte: u8) -> Result<(), Malformed>
    requires { IsReading kind reading.old }
    ensures ok { OnOk result (IsReading kind reading.new) }
    ensures read { OnOk result (bytes_read kind reading.new ≡ bytes_read kind reading.old ++ byte ∷ []) }
    ensures header { OnOk result (9 ≤ reading.old.place → reading.new.header ≡ reading.old.header) }
    ensures refused { IfErr result (λ fault. (rest : List ℕ) → IsRefused kind fault (bytes_read kind reading.old ++ byte ∷ rest)) }
    ensures err { OnErr result (reading.new ≡ reading.old) }
{
    if reading.place < HEADER_SIZE {
        read_header_byte(reading, kind, byte)
    } else {
        read_body_byte(reading, kind, byte)
    }
}

/// The same in the header.
fn read_header_byte(reading: &mut Reading, kind: Kind, byte: u8) -> Result<(), Malformed>
    requires reading { IsReading kind reading.old }
    requires within { reading.old.place < 9 }
    ensures ok { OnOk result (IsReading kind reading.new) }
    ensures read { OnOk result (bytes_read kind reading.new ≡ bytes_read kind reading.old ++ byte ∷ []) }
    ensures refused { IfErr result (λ fault. (rest : List ℕ) → IsRefused kind fault (bytes_read kind reading.old ++ byte ∷ rest)) }
    ensures err { OnErr result (reading.new ≡ reading.old) }
{
    reading.header = header_after(kind, reading.header, reading.place, byte)?;
    reading.place += 1;
    Ok(())
}

/// What is known of the header after a byte of it, which may be one of the magic.
fn header_after(kind: Kind, header: Header, place: usize, byte: u8) -> Result<Header, Malformed>
    requires { place < 9 }
    ensures read { IfOk result (λ next. take (place + 1) (header_in kind next) ≡ take place (header_in kind header) ++ byte ∷ []) }
    ensures sized { IfOk result (λ next. place ≡ 8 → fits_header kind next ≡ true) }
    ensures refused { IfErr result (λ fault. (rest : List ℕ) → IsRefused kind fault (take place (header_in kind header) ++ byte ∷ rest)) }
{
    if place < VERSION_PLACE {
        if byte != magic(kind)[place] {
            return Err(fault_at(Why::Magic, place));
        }
        return Ok(header);
    }
    if place == VERSION_PLACE {
        let Some(banks) = banks_named(byte) else {
            return Err(fault_at(Why::Version, place));
        };
        return Ok(Header { banks, ..header });
    }
    let length = number_with(header.length, place - LENGTH_PLACE, byte);
    if place + 1 == HEADER_SIZE && !is_length(kind, header.banks, length) {
        return Err(fault_at(Why::Length, LENGTH_PLACE));
    }
    Ok(Header { length, ..header })
}

/// The same behind the header.
fn read_body_byte(reading: &mut Reading, kind: Kind, byte: u8) -> Result<(), Malformed>
    requires reading { IsReading kind reading.old }
    requires behind { 9 ≤ reading.old.place }
    ensures ok { OnOk result (IsReading kind reading.new) }
    ensures read { OnOk result (bytes_read kind reading.new ≡ bytes_read kind reading.old ++ byte ∷ []) }
    ensures header { OnOk result (reading.new.header ≡ reading.old.header) }
    ensures refused { IfErr result (λ fault. (rest : List ℕ) → IsRefused kind fault (bytes_read kind reading.old ++ byte ∷ rest)) }
    ensures err { OnErr result (reading.new ≡ reading.old) }
{
    check_body_byte(reading, kind, byte)?;
    let place = reading.place;
    set_byte(&mut reading.fields, kind, place - HEADER_SIZE, byte);
    reading.place = place + 1;
    Ok(())
}

/// Refuses a byte behind the body, and a flag that doesn't fit the length.
fn check_body_byte(reading: &Reading, kind: Kind, byte: u8) -> Result<(), Malformed>
    requires reading { IsReading kind reading.now }
    requires behind { 9 ≤ reading.now.place }
    ensures within { OnOk result (reading.now.place < 9 + reading.now.header.length) }
    ensures flagged { OnOk result (reading.now.place ≡ 9 → flag_fits kind reading.now.header.length byte ≡ true) }
    ensures refused { IfErr result (λ fault. (rest : List ℕ) → IsRefused kind fault (bytes_read kind reading.now ++ byte ∷ rest)) }
{
    if is_whole(reading) {
        return Err(fault_at(Why::Extra, reading.place));
    }
    if reading.place == FLAG_PLACE && !flag_fits(kind, reading.header.length, byte) {
        return Err(fault_at(Why::Value, FLAG_PLACE));
    }
    Ok(())
}

fn fault_at(why: Why, place: usize) -> Malformed
    requires { place ≤ 1942 }
    ensures { result ≡ malformed why place }
{
    Malformed {
        why,
        place: place as u32,
    }
}
