//! Records read.

ghost use Rattle.std.specs.Prelude.{IfOk, IfErr};
ghost use Rattle.device_record.specs.Layouts.{IsRefused};
ghost use Rattle.device_record.specs.Restoring.{Restores};

use crate::fields::Fields;
use crate::format::HEADER_SIZE;
use crate::parse::parse;
use vt_base::{Malformed, Why};

/// The fields of the record that these bytes are, or why they are none. The content is what stands behind the header.
pub fn fields_in(bytes: &[u8]) -> Result<Fields, Malformed>
    ensures ok { IfOk result (λ f. Restores f bytes.now) }
    ensures refused { IfErr result (λ fault. IsRefused fault bytes.now) }
{
    let Ok(end) = parse(bytes) else {
        return Err(Malformed {
            why: Why::Cut,
            place: bytes.len() as u32,
        });
    };
    let fields = end?;
    let total = HEADER_SIZE + usize::from(fields.count);
    if bytes.len() > total {
        return Err(Malformed {
            why: Why::Extra,
            place: total as u32,
        });
    }
    Ok(fields)
}
