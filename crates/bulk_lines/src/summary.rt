//! The summary of what the lines write.

ghost use Rattle.std.specs.Prelude.{◌≡◌, ℕ, ◌+◌, ◌-◌, ◌<◌, ◌^◌, List, [], ◌++◌, OnOk, OnErr};
ghost use Rattle.bulk_lines.specs.Summaries.{IsSummaryOf, lines_in, commands_of, moves_of, summary_line, summary_text};

use sha2::{Digest, Sha256};
use std::alloc::{AllocError, Global};
use vt_script::DriveLine;

/// How many lines there were of each kind, and a hash of what they wrote, which is not kept.
#[derive(Drop)]
pub struct Summary {
    commands: u64,
    moves: u64,
    hasher: Sha256,
}

impl Summary {
    /// A summary of no lines.
    pub fn new() -> Summary
        ensures none { lines_in result ≡ 0 }
        ensures empty { IsSummaryOf result 0 0 [] }
    {
        Summary {
            commands: 0,
            moves: 0,
            hasher: Sha256::new(),
        }
    }

    /// Takes in one more line, and what `drive` writes for it.
    pub fn add(&mut self, line: &DriveLine, output: &[u8])
        requires room { lines_in self.old < 2 ^ 64 - 1 }
        ensures one_more { lines_in self.new ≡ lines_in self.old + 1 }
        ensures added { (commands moves : ℕ) (before : List ℕ) → IsSummaryOf self.old commands moves before
            → IsSummaryOf self.new (commands + commands_of line.now) (moves + moves_of line.now) (before ++ output.now) }
    {
        match line {
            DriveLine::Cmd(_) => self.commands += 1,
            DriveLine::Move => self.moves += 1,
            DriveLine::MoveFail(_) => self.moves += 1,
        }
        self.hasher.update(output);
    }

    /// Appends the text of the summary: the two counts in decimal, and the digest by SHA-256 in lower-case hexadecimal, ended
    /// by LF. An `Err` is lack of memory.
    pub fn print(self, alloc: Global, into: &mut Vec<u8>) -> Result<(), AllocError>
        ensures ok { (commands moves : ℕ) (output : List ℕ) → IsSummaryOf self commands moves output
            → OnOk result (into.new.items ≡ into.old.items ++ summary_text commands moves output) }
        ensures err { OnErr result (into.new.items ≡ into.old.items) }
    {
        let commands = self.commands;
        let moves = self.moves;
        let digest = self.hasher.finalize();
        print_line(alloc, commands, moves, &digest, into)
    }
}

// Appends the text of a summary.
#[tactic(auto, unfolding(crate::specs::Summaries::summary_line))]
fn print_line(
    alloc: Global,
    commands: u64,
    moves: u64,
    digest: &[u8],
    into: &mut Vec<u8>,
) -> Result<(), AllocError>
    ensures ok { OnOk result (into.new.items ≡ into.old.items ++ summary_line commands moves digest.now) }
    ensures err { OnErr result (into.new.items ≡ into.old.items) }
{
    let digest = hex::encode(alloc, digest)?;
    let text = format!(in alloc; "commands {commands} moves {moves} sha256 {digest}\n")?;
    into.extend_from_slice(text.as_bytes())
}
