//! The generator of the lines.

ghost use Rattle.std.specs.Prelude.{◌≡◌, [], ◌∷◌, IfOk, IfSome, IfNone, OnErr, MatchOption};
ghost use Rattle.vt_base.specs.Numbers.{long};
ghost use Rattle.sha2.specs.Sha256.{sha256};
ghost use Rattle.vt_script.specs.Drive.{IsDriveLine};
ghost use Rattle.bulk_lines.specs.Generator.{state_after, drawn, moving_line, line_by, drawn_line, first_line, bulk_lines, lines_left};

use crate::commands::{DIGEST_SIZE, get_random, pcr_extend, pcr_read, startup};
use sha2::{Digest, Sha256};
use std::alloc::{AllocError, Global};
use std::marker::Model;
use vt_script::DriveLine;

/// A state is multiplied by this in a draw ..
const MULTIPLIER: u64 = 6_364_136_223_846_793_005;

/// .. and this is added.
const INCREMENT: u64 = 1_442_695_040_888_963_407;

/// How far a state is shifted to give the value of a draw.
const SHIFT: u32 = 33;

/// How many kinds of lines a value chooses from.
const KINDS: u64 = 4;

/// How many PCRs are extended.
const EXTENDED: u64 = 16;

/// How many PCRs are read.
const READ: u64 = 24;

/// How many lengths of random bytes are asked for: from 0 on.
const LENGTHS: u64 = 40;

/// Which messages of a move are lost: from 1 to this.
const LOST: u64 = 12;

/// The lines of `bulk N COUNT` that are left. They are made one at a time, and none is kept.
#[derive(Debug, Drop)]
pub struct BulkLines {
    /// The state of the generator.
    state: u64,
    /// The number of the next line.
    number: u64,
    /// How many lines are still to be drawn.
    left: u32,
}

impl Model for BulkLines {
    ghost use Rattle.std.specs.Prelude.{List, ◌+◌, ◌≤◌, ◌^◌};
    ghost use Rattle.vt_script.specs.declared.drive.DriveLine.{DriveLine};
    ghost use Rattle.bulk_lines.specs.Generator.{lines_left};

    ghost Value = { List DriveLine };

    ghost view = { λ b. lines_left b.number b.left b.state };

    ghost invariant = { λ b. b.number + b.left ≤ 2 ^ 33 };
}

impl BulkLines {
    /// Line 0, which starts the TPM, and then `count` lines drawn from this seed.
    pub fn new(seed: u64, count: u32) -> BulkLines
        ensures lines { result ≡ bulk_lines seed count }
    {
        BulkLines {
            state: seed,
            number: 0,
            left: count,
        }
    }

    /// The next line, or `None` where no line is left. An `Err` is lack of memory, which leaves the lines as they were.
    pub fn next(&mut self, alloc: Global) -> Result<Option<DriveLine>, AllocError>
        ensures line { IfOk result (λ found. MatchOption found (self.old ≡ []) (λ line. self.old ≡ line ∷ self.new)) }
        ensures end { IfOk result (λ found. IfNone found (self.new ≡ [])) }
        ensures valid { IfOk result (λ found. IfSome found IsDriveLine) }
        ensures err { OnErr result (self.new ≡ self.old) }
    {
        if self.number == 0 {
            let line = startup(alloc)?;
            self.number = 1;
            return Ok(Some(line));
        }
        if self.left == 0 {
            return Ok(None);
        }
        let state = state_after(self.state);
        let line = drawn_line(alloc, self.number, drawn(state))?;
        self.state = state;
        self.number += 1;
        self.left -= 1;
        Ok(Some(line))
    }
}

// The state after one draw.
fn state_after(state: u64) -> u64
    ensures { result ≡ state_after state }
{
    state.wrapping_mul(MULTIPLIER).wrapping_add(INCREMENT)
}

// The value that a draw gives.
fn drawn(state: u64) -> u64
    ensures { result ≡ drawn state }
{
    state >> SHIFT
}

// The line of this number, by the value drawn for it.
#[tactic(auto, unfolding(crate::specs::Generator::drawn_line))]
fn drawn_line(alloc: Global, number: u64, value: u64) -> Result<DriveLine, AllocError>
    ensures line { IfOk result (λ line. line ≡ drawn_line number value) }
    ensures valid { IfOk result IsDriveLine }
{
    line_by(alloc, number, value % KINDS, value / KINDS)
}

fn line_by(
    alloc: Global,
    number: u64,
    remainder: u64,
    quotient: u64,
) -> Result<DriveLine, AllocError>
    ensures line { IfOk result (λ line. line ≡ line_by number remainder quotient) }
    ensures valid { IfOk result IsDriveLine }
{
    match remainder {
        0 => pcr_extend(alloc, (quotient % EXTENDED) as u32, &digest_of(number)),
        1 => pcr_read(alloc, (quotient % READ) as u8),
        2 => get_random(alloc, (quotient % LENGTHS) as u16),
        _ => Ok(moving_line(quotient)),
    }
}

// The digest of a number of eight bytes.
fn digest_of(number: u64) -> [u8; DIGEST_SIZE]
    ensures { result ≡ sha256 (long number) }
{
    Sha256::digest(number.to_be_bytes())
}

fn moving_line(quotient: u64) -> DriveLine
    ensures line { result ≡ moving_line quotient }
    ensures valid { IsDriveLine result }
{
    if quotient % 2 == 0 {
        DriveLine::Move
    } else {
        DriveLine::MoveFail((1 + quotient / 2 % LOST) as u32)
    }
}
