//! Streams written.

ghost use Rattle.std.specs.Prelude.{◌≡◌, ◌≤◌, ◌++◌, length, OnOk, OnErr};
ghost use Rattle.saved_stream.specs.Streams.{with_head};

use crate::format::{HEADER_SIZE, MAGIC, STREAM_ROOM, VERSION};
use std::alloc::AllocError;
use vt_base::ByteBuf;

/// Appends a stream of these parts, each of at most 4096 bytes: the record of a stopped device, and the whole blobs of its
/// TPM. Where memory is wanting nothing is appended.
pub fn write_stream(
    device: &[u8],
    permanent: &[u8],
    volatile: &[u8],
    saved: &[u8],
    into: &mut Vec<u8>,
) -> Result<(), AllocError>
    requires device { length device.now ≤ 4096 }
    requires permanent { length permanent.now ≤ 4096 }
    requires volatile { length volatile.now ≤ 4096 }
    requires saved { length saved.now ≤ 4096 }
    ensures ok { OnOk result (into.new.items ≡ into.old.items ++ with_head (device.now ++ permanent.now ++ volatile.now ++ saved.now)) }
    ensures err { OnErr result (into.new.items ≡ into.old.items) }
{
    let count = device.len() + permanent.len() + volatile.len() + saved.len();
    let mut text = ByteBuf::<STREAM_ROOM>::new();
    text.push(&MAGIC);
    text.push(&[VERSION]);
    text.push(&(count as u32).to_be_bytes());
    text.push(device);
    text.push(permanent);
    text.push(volatile);
    text.push(saved);
    into.extend_from_slice(text.as_slice())
}
