//! The head of a stream.

ghost use Rattle.std.specs.Prelude.{◌≡◌, ◌≤◌, ◌≢◌, length, IfOk, IfErr, OnOk};
ghost use Rattle.vt_base.specs.Parsing.{parsed};
ghost use Rattle.vt_base.specs.declared.types.Why.TheVariants.{Extra};
ghost use Rattle.state_blobs.specs.Refusals.{length_field};
ghost use Rattle.saved_stream.specs.Refusals.{version_then, head, HasHead, IsHeadRefused};

use crate::format::{LENGTH_PLACE, MAGIC, VERSION, VERSION_PLACE};
use vt_base::{Malformed, Missing, Parsed, Why, behind_magic, byte_of, number_of, refused, u32_at};

fn version_of(rest: &[u8]) -> Parsed<()>
    ensures { result ≡ parsed version_then rest.now }
{
    let (version, rest) = byte_of(rest)?;
    if version != VERSION {
        return refused(Why::Version, VERSION_PLACE);
    }
    let (_length, _parts) = number_of(rest)?;
    Ok(Ok(()))
}

#[tactic(auto, using(crate::proofs::MagicRead::parsed_head))]
fn parse(bytes: &[u8]) -> Parsed<()>
    ensures { result ≡ parsed head bytes.now }
{
    match behind_magic(bytes, MAGIC)? {
        Ok(rest) => version_of(rest),
        Err(fault) => Ok(Err(fault)),
    }
}

/// The length that the head of a stream gives, or why there is no head.
#[tactic(auto, using(crate::proofs::Heads::head_if_decoded, crate::proofs::Heads::cut_if_open, crate::proofs::Heads::refused_if_decoded))]
pub fn length_of(bytes: &[u8]) -> Result<u32, Malformed>
    ensures ok { OnOk result (HasHead bytes.now) }
    ensures length { IfOk result (λ count. count ≡ length_field bytes.now) }
    ensures refused { IfErr result (λ fault. IsHeadRefused fault bytes.now) }
{
    match parse(bytes) {
        Err(Missing(_)) => {
            return Err(Malformed {
                why: Why::Cut,
                place: bytes.len() as u32,
            });
        }
        Ok(Err(fault)) => return Err(fault),
        Ok(Ok(())) => {}
    }
    Ok(u32_at(bytes, LENGTH_PLACE))
}
