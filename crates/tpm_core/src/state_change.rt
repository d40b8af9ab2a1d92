//! What each state change does to the values.

ghost use Rattle.std.specs.Prelude.{◌≡◌, ◌<◌, ◌≤◌, length};
ghost use Rattle.tpm_core.specs.declared.algorithm.Algorithm.TheVariants.{Sha256, Sha384};
ghost use Rattle.tpm_core.specs.Banks.{each_register};
ghost use Rattle.tpm_core.specs.Past.{booted, value_at_start, counter_at_start};
ghost use Rattle.tpm_core.specs.Answers.{state_at_start, change_of, extend_change, block_of};
ghost use Rattle.tpm_core.specs.Steps.{after, after_change, bank_at_start};

use crate::algorithm::{
    Algorithm, Banks, Measurement, SHA256_DIGEST_SIZE, SHA384_DIGEST_SIZE, sha256_of,
};
use crate::bank::{cleared, extend_bank, kept_values, restored};
use crate::command::{Command, Mode};
use crate::parts::{PCR_COUNT, SEED_SIZE, SavedParts, TpmParts};
use vt_base::ByteBuf;

/// How many random bytes are made at once.
pub const BLOCK_SIZE: usize = SHA256_DIGEST_SIZE;

/// How many bytes a block is hashed from: a mark, the seed, the count of boots and that of draws.
const BLOCK_SOURCE_SIZE: usize = 4 + SEED_SIZE + 8 + 8;

/// Power comes on: only the seed, the banks' number, the count of boots and the saved state outlast it.
#[tactic(auto, unfolding(crate::specs::Banks::blank_bank))]
pub fn boot(parts: &mut TpmParts)
    ensures { parts.new ≡ after parts.old booted }
{
    parts.boots = parts.boots.wrapping_add(1);
    parts.draws = 0;
    parts.started = false;
    parts.pcr = [[0; SHA256_DIGEST_SIZE]; PCR_COUNT];
    parts.pcr384 = [[0; SHA384_DIGEST_SIZE]; PCR_COUNT];
    parts.counter = 0;
}

/// What a start brings back.
fn state_at_start(mode: Mode, saved: Option<SavedParts>) -> Option<SavedParts>
    ensures { result ≡ state_at_start mode saved }
{
    match mode {
        Mode::Clear => None,
        Mode::State => saved,
    }
}

fn sha256_at_start(state: &Option<SavedParts>) -> [[u8; SHA256_DIGEST_SIZE]; PCR_COUNT]
    ensures { result ≡ each_register (value_at_start Sha256 state.now) }
{
    match state {
        None => cleared(),
        Some(saved) => restored(&saved.pcr),
    }
}

#[tactic(auto, unfolding(crate::specs::Banks::blank_bank))]
fn sha384_at_start(
    banks: Banks,
    state: &Option<SavedParts>,
) -> [[u8; SHA384_DIGEST_SIZE]; PCR_COUNT]
    ensures { result ≡ bank_at_start banks Sha384 state.now }
{
    if !Algorithm::Sha384.is_in(banks) {
        return [[0; SHA384_DIGEST_SIZE]; PCR_COUNT];
    }
    match state {
        None => cleared(),
        Some(saved) => restored(&saved.pcr384),
    }
}

fn counter_at_start(state: &Option<SavedParts>) -> u32
    ensures { result ≡ counter_at_start state.now }
{
    match state {
        None => 0,
        Some(saved) => saved.counter,
    }
}

/// Starts, with the saved values if they are wanted and there.
pub fn start(parts: &mut TpmParts, mode: Mode)
    ensures { parts.new ≡ after_change parts.old (change_of parts.old (Command.Startup mode)) }
{
    let state = state_at_start(mode, parts.saved.take());
    parts.pcr = sha256_at_start(&state);
    parts.pcr384 = sha384_at_start(parts.banks, &state);
    parts.counter = counter_at_start(&state);
    parts.started = true;
}

/// Keeps the values, or forgets those that were kept.
pub fn shut_down(parts: &mut TpmParts, mode: Mode)
    ensures { parts.new ≡ after_change parts.old (change_of parts.old (Command.Shutdown mode)) }
{
    parts.saved = match mode {
        Mode::Clear => None,
        Mode::State => Some(SavedParts {
            counter: parts.counter,
            pcr: kept_values(&parts.pcr),
            pcr384: kept_values(&parts.pcr384),
        }),
    };
}

/// The next block of random bytes.
pub fn next_block(parts: &TpmParts) -> [u8; BLOCK_SIZE]
    ensures { result ≡ block_of parts.now }
{
    let mut source = ByteBuf::<BLOCK_SOURCE_SIZE>::new();
    source.push(b"CRBR");
    source.push(&parts.seed);
    source.push(&parts.boots.to_be_bytes());
    source.push(&parts.draws.to_be_bytes());
    sha256_of(source.as_slice(), &[])
}

/// Counts a draw, unless nothing is asked for.
pub fn draw(parts: &mut TpmParts, asked: u16)
    ensures { parts.new ≡ after_change parts.old (change_of parts.old (Command.GetRandom asked)) }
{
    if asked != 0 {
        parts.draws = parts.draws.wrapping_add(1);
    }
}

/// Extends a register in each bank, unless there is no digest. Digests of all banks are counted.
pub fn extend(parts: &mut TpmParts, register: usize, measurements: &[Measurement])
    requires register { register < 24 }
    requires within_limit { length measurements.now ≤ 16 }
    ensures { parts.new ≡ after_change parts.old (extend_change register measurements.now) }
{
    if measurements.is_empty() {
        return;
    }
    extend_bank(
        parts.banks,
        Algorithm::Sha256,
        &mut parts.pcr,
        register,
        measurements,
    );
    extend_bank(
        parts.banks,
        Algorithm::Sha384,
        &mut parts.pcr384,
        register,
        measurements,
    );
    parts.counter = parts.counter.wrapping_add(measurements.len() as u32);
    // The kept state is no longer that of the registers.
    parts.saved = None;
}
