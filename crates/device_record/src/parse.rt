//! The parser of records: a function for each part of the layout, parsed from left to right.

ghost use Rattle.std.specs.Prelude.{◌≡◌};
ghost use Rattle.vt_base.specs.Parsing.{parsed};
ghost use Rattle.device_record.specs.Layouts.{ends_in_zero, content_then, count_then, job_then, registers_then, length_then, version_then, record_layout};

use crate::fields::{Fields, flag_at, phase_at};
use crate::format::{
    BEFORE_CONTENT, CANCEL_PLACE, CANCELLED_PLACE, COUNT_PLACE, GRANTED_PLACE, LARGEST_LENGTH,
    LENGTH_PLACE, MAGIC, PHASE_PLACE, SMALLEST_LENGTH, VERSION, VERSION_PLACE,
};
use crb_regs::{Phase, Regs};
use vt_base::{
    Parsed, Why, behind_magic, byte_of, field_of, long_of, number_of, refused, short_of,
};

fn ends_in_zero(bytes: &[u8]) -> bool
    ensures { result ≡ ends_in_zero bytes.now }
{
    !bytes.is_empty() && bytes[bytes.len() - 1] == 0
}

fn content_of(fields: Fields, rest: &[u8]) -> Parsed<Fields>
    ensures { result ≡ parsed (content_then fields) rest.now }
{
    let (content, _) = field_of(rest, usize::from(fields.count))?;
    if ends_in_zero(content) {
        return refused(Why::Value, BEFORE_CONTENT + u32::from(fields.count));
    }
    Ok(Ok(fields))
}

fn count_of(size: u32, regs: Regs, cancelled: bool, number: u64, rest: &[u8]) -> Parsed<Fields>
    ensures { result ≡ parsed (count_then size regs cancelled number) rest.now }
{
    let (count, rest) = short_of(rest)?;
    if SMALLEST_LENGTH + u32::from(count) != size {
        return refused(Why::Length, COUNT_PLACE);
    }
    if regs.phase == Phase::Idle && count > 0 {
        return refused(Why::Value, COUNT_PLACE);
    }
    let fields = Fields {
        regs,
        cancelled,
        number,
        count,
    };
    content_of(fields, rest)
}

fn job_of(size: u32, regs: Regs, rest: &[u8]) -> Parsed<Fields>
    ensures { result ≡ parsed (job_then size regs) rest.now }
{
    let (cancelled, rest) = byte_of(rest)?;
    let Some(cancelled) = flag_at(cancelled) else {
        return refused(Why::Value, CANCELLED_PLACE);
    };
    if cancelled && regs.phase != Phase::Execution {
        return refused(Why::Value, CANCELLED_PLACE);
    }
    let (number, rest) = long_of(rest)?;
    count_of(size, regs, cancelled, number, rest)
}

fn registers_of(size: u32, rest: &[u8]) -> Parsed<Fields>
    ensures { result ≡ parsed (registers_then size) rest.now }
{
    let (granted, rest) = byte_of(rest)?;
    let Some(granted) = flag_at(granted) else {
        return refused(Why::Value, GRANTED_PLACE);
    };
    let (cancel, rest) = byte_of(rest)?;
    let Some(cancel) = flag_at(cancel) else {
        return refused(Why::Value, CANCEL_PLACE);
    };
    let (code, rest) = byte_of(rest)?;
    let Some(phase) = phase_at(code) else {
        return refused(Why::Value, PHASE_PLACE);
    };
    let regs = Regs {
        granted,
        cancel,
        phase,
    };
    job_of(size, regs, rest)
}

fn length_of(rest: &[u8]) -> Parsed<Fields>
    ensures { result ≡ parsed length_then rest.now }
{
    let (size, rest) = number_of(rest)?;
    if size < SMALLEST_LENGTH || size > LARGEST_LENGTH {
        return refused(Why::Length, LENGTH_PLACE);
    }
    registers_of(size, rest)
}

fn version_of(rest: &[u8]) -> Parsed<Fields>
    ensures { result ≡ parsed version_then rest.now }
{
    let (version, rest) = byte_of(rest)?;
    if version != VERSION {
        return refused(Why::Version, VERSION_PLACE);
    }
    length_of(rest)
}

/// What the bytes come to as a record: its fields, a refusal, or a field that isn't whole.
#[tactic(auto, using(crate::proofs::MagicRead::parsed_record))]
pub fn parse(bytes: &[u8]) -> Parsed<Fields>
    ensures { result ≡ parsed record_layout bytes.now }
{
    match behind_magic(bytes, MAGIC)? {
        Ok(rest) => version_of(rest),
        Err(fault) => Ok(Err(fault)),
    }
}
