// Big-endian numbers at a place, and readers of one field at the start of some bytes, for the parser of a grammar.
ghost use Rattle.std.specs.Prelude.{◌≡◌, ◌≤◌, ◌+◌, List, take, Ok, Err, IfOk, IfErr, ◌∷◌, [], length};
ghost use Rattle.std.specs.Int.{w16, w32, w64, from_be_bytes};
ghost use Rattle.vt_base.specs.Numbers.{big_endian_at};
ghost use Rattle.vt_base.specs.Parsing.{field_at};

use crate::grammar::Missing;

/// The number in two bytes at a place, its highest byte first. The bytes have to be there.
pub fn u16_at(bytes: &[u8], at: usize) -> u16
    requires { at + 2 ≤ length bytes.now }
    ensures { result ≡ big_endian_at w16 at bytes.now }
{
    u16::from_be_bytes([bytes[at], bytes[at + 1]])
}

/// The number in four bytes at a place, its highest byte first. The bytes have to be there.
pub fn u32_at(bytes: &[u8], at: usize) -> u32
    requires { at + 4 ≤ length bytes.now }
    ensures { result ≡ big_endian_at w32 at bytes.now }
{
    u32::from_be_bytes([bytes[at], bytes[at + 1], bytes[at + 2], bytes[at + 3]])
}

/// The number in eight bytes at a place, its highest byte first. The bytes have to be there.
pub fn u64_at(bytes: &[u8], at: usize) -> u64
    requires { at + 8 ≤ length bytes.now }
    ensures { result ≡ big_endian_at w64 at bytes.now }
{
    let b = &bytes[at..at + 8];
    u64::from_be_bytes([b[0], b[1], b[2], b[3], b[4], b[5], b[6], b[7]])
}

/// A field of `count` bytes at the start, and the bytes after it; or how many of its bytes are missing.
#[tactic(auto, unfolding(crate::specs::Parsing::field_at))]
pub fn field_of(bytes: &[u8], count: usize) -> Result<(&[u8], &[u8]), Missing>
    ensures whole { IfOk result (λ f. field_at count bytes.now ≡ Ok (f.0.now, f.1.now)) }
    ensures count { IfOk result (λ f. length f.0.now ≡ count) }
    ensures short { IfErr result (λ lack. field_at count bytes.now ≡ Err lack) }
{
    if bytes.len() < count {
        return Err(Missing(count - bytes.len()));
    }
    Ok(bytes.split_at(count))
}

/// A big-endian number of four bytes at the start, and the bytes after it.
#[tactic(auto, unfolding(crate::specs::Parsing::field_at))]
pub fn number_of(bytes: &[u8]) -> Result<(u32, &[u8]), Missing>
    ensures whole { IfOk result (λ f. field_at 4 bytes.now ≡ Ok (take 4 bytes.now, f.1.now)) }
    ensures number { IfOk result (λ f. f.0 ≡ from_be_bytes w32 (take 4 bytes.now)) }
    ensures short { IfErr result (λ lack. field_at 4 bytes.now ≡ Err lack) }
{
    let (_field, rest) = field_of(bytes, 4)?;
    Ok((u32_at(bytes, 0), rest))
}

/// A byte at the start, and the bytes after it.
#[tactic(auto, unfolding(crate::specs::Parsing::field_at))]
pub fn byte_of(bytes: &[u8]) -> Result<(u8, &[u8]), Missing>
    ensures whole { IfOk result (λ f. field_at 1 bytes.now ≡ Ok (f.0 ∷ [], f.1.now)) }
    ensures short { IfErr result (λ lack. field_at 1 bytes.now ≡ Err lack) }
{
    let (field, rest) = field_of(bytes, 1)?;
    Ok((field[0], rest))
}

/// A big-endian number of eight bytes at the start, and the bytes after it.
#[tactic(auto, unfolding(crate::specs::Parsing::field_at))]
pub fn long_of(bytes: &[u8]) -> Result<(u64, &[u8]), Missing>
    ensures whole { IfOk result (λ f. field_at 8 bytes.now ≡ Ok (take 8 bytes.now, f.1.now)) }
    ensures number { IfOk result (λ f. f.0 ≡ from_be_bytes w64 (take 8 bytes.now)) }
    ensures short { IfErr result (λ lack. field_at 8 bytes.now ≡ Err lack) }
{
    let (_field, rest) = field_of(bytes, 8)?;
    Ok((u64_at(bytes, 0), rest))
}

/// A big-endian number of two bytes at the start, and the bytes after it.
#[tactic(auto, unfolding(crate::specs::Parsing::field_at))]
pub fn short_of(bytes: &[u8]) -> Result<(u16, &[u8]), Missing>
    ensures whole { IfOk result (λ f. field_at 2 bytes.now ≡ Ok (take 2 bytes.now, f.1.now)) }
    ensures number { IfOk result (λ f. f.0 ≡ from_be_bytes w16 (take 2 bytes.now)) }
    ensures short { IfErr result (λ lack. field_at 2 bytes.now ≡ Err lack) }
{
    let (_field, rest) = field_of(bytes, 2)?;
    Ok((u16_at(bytes, 0), rest))
}
