// Grammars of formats whose bytes may be refused.
ghost use Rattle.std.specs.Prelude.{◌≡◌, Ok, Err, IfOk, IfErr};
ghost use Rattle.vt_base.specs.Magics.{magic_at};
ghost use Rattle.vt_base.specs.Refusing.{malformed};

use crate::fields::byte_of;
use crate::grammar::Missing;
use crate::types::{Malformed, Why};

/// What bytes come to in a format that refuses some of them: a value, a refusal, or a field that isn't whole.
pub type Parsed<V> = Result<Result<V, Malformed>, Missing>;

/// The bytes so far are refused.
pub fn refused<V>(why: Why, place: u32) -> Parsed<V>
    ensures { result ≡ Ok (Err (malformed why place)) }
{
    Ok(Err(Malformed { why, place }))
}

/// What stands behind a magic at the start of the bytes; or a refusal at the first byte that differs.
#[tactic(auto, unfolding(crate::specs::Parsing::field_at))]
pub fn behind_magic(bytes: &[u8], magic: [u8; 4]) -> Parsed<&[u8]>
    ensures whole { IfOk result (λ r. IfOk r (λ rest. magic_at magic 0 bytes.now ≡ Ok (Ok rest.now))) }
    ensures refused { IfOk result (λ r. IfErr r (λ fault. magic_at magic 0 bytes.now ≡ Ok (Err fault))) }
    ensures short { IfErr result (λ lack. magic_at magic 0 bytes.now ≡ Err lack) }
{
    let [first, second, third, fourth] = magic;
    let (byte, rest) = byte_of(bytes)?;
    if byte != first {
        return refused(Why::Magic, 0);
    }
    let (byte, rest) = byte_of(rest)?;
    if byte != second {
        return refused(Why::Magic, 1);
    }
    let (byte, rest) = byte_of(rest)?;
    if byte != third {
        return refused(Why::Magic, 2);
    }
    let (byte, rest) = byte_of(rest)?;
    if byte != fourth {
        return refused(Why::Magic, 3);
    }
    Ok(Ok(rest))
}
