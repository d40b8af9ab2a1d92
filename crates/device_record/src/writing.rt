//! Records written.

ghost use Rattle.std.specs.Prelude.{◌≡◌, ◌+◌, ◌≤◌, ◌++◌, length, take, drop};
ghost use Rattle.device_record.specs.Records.{trimmed, encode_header};

use crate::fields::{Fields, flag_byte, phase_code};
use crate::format::{HEADER_SIZE, MAGIC, SMALLEST_LENGTH, VERSION};

/// How many bytes are left without the zeros at the end.
#[tactic(auto, using(crate::proofs::Trims::trimmed_step, crate::proofs::Trims::trimmed_end))]
pub fn trimmed_length(bytes: &[u8]) -> usize
    ensures trimmed { take result bytes.now ≡ trimmed bytes.now }
    ensures within { result ≤ length bytes.now }
{
    let mut count = bytes.len();
    while count > 0 && bytes[count - 1] == 0 {
        count -= 1;
    }
    count
}

fn header(fields: &Fields) -> [u8; HEADER_SIZE]
    ensures { result ≡ encode_header fields.now }
{
    let [m0, m1, m2, m3] = MAGIC;
    let [s0, s1, s2, s3] = (SMALLEST_LENGTH + u32::from(fields.count)).to_be_bytes();
    let granted = flag_byte(fields.regs.granted);
    let cancel = flag_byte(fields.regs.cancel);
    let phase = phase_code(fields.regs.phase);
    let cancelled = flag_byte(fields.cancelled);
    let [n0, n1, n2, n3, n4, n5, n6, n7] = fields.number.to_be_bytes();
    let [c0, c1] = fields.count.to_be_bytes();
    [
        m0, m1, m2, m3, VERSION, s0, s1, s2, s3, granted, cancel, phase, cancelled, n0, n1, n2, n3,
        n4, n5, n6, n7, c0, c1,
    ]
}

// Writes bytes behind the first `at` ones.
fn put_at(into: &mut [u8], at: usize, bytes: &[u8])
    requires room { at + length bytes.now ≤ length into.old }
    ensures prefix { take (at + length bytes.now) into.new ≡ take at into.old ++ bytes.now }
    ensures behind { drop (at + length bytes.now) into.new ≡ drop (at + length bytes.now) into.old }
{
    into[at..at + bytes.len()].copy_from_slice(bytes);
}

/// Writes a header and the content at the start.
pub fn put_record(fields: &Fields, content: &[u8], into: &mut [u8])
    requires room { 23 + length content.now ≤ length into.old }
    ensures text { take (23 + length content.now) into.new ≡ encode_header fields.now ++ content.now }
    ensures behind { drop (23 + length content.now) into.new ≡ drop (23 + length content.now) into.old }
{
    put_at(into, 0, &header(fields));
    put_at(into, HEADER_SIZE, content);
}
