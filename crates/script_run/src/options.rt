//! The options behind a command.
ghost use Rattle.std.specs.Prelude.{◌≡◌, ℕ, List, map, Some, None, IfSome, IfNone};
ghost use Rattle.std.specs.Fmt.{decimal};
ghost use Rattle.std.specs.String.{string_bytes};
ghost use Rattle.tpm_core.specs.declared.algorithm.Banks.{Banks};
ghost use Rattle.script_run.specs.Words.{Adds, AreOptions, IsPiece, IsSeed, Splits, banks_digits, start_by};

use crate::decimal::number;
use crate::start::Start;
use ctrl_model::LARGEST_PIECE;
use hex::FromHex;
use tpm_core::{Banks, SEED_SIZE};

/// The options that words give.
#[derive(Clone, Copy, Debug, PartialEq, Eq)]
pub struct Options {
    /// The most bytes of a piece, from 1 to 4096.
    pub piece: Option<u32>,
    /// The seed of the TPM.
    pub seed: Option<[u8; SEED_SIZE]>,
    /// Which banks the TPM has.
    pub banks: Option<Banks>,
}

impl Options {
    /// The options that these words are; `None` comes where they are none, or where one is given twice.
    pub fn parse(words: &[String]) -> Option<Options>
        ensures named { IfSome result (λ given. AreOptions given (map string_bytes words.now)) }
        ensures only { (given : Options) → AreOptions given (map string_bytes words.now) → result ≡ Some given }
    {
        let mut given = Options {
            piece: None,
            seed: None,
            banks: None,
        };
        let mut rest = words;
        while !rest.is_empty() {
            let (name, value, behind) = first_option(rest)?;
            given = given.with(name, value)?;
            rest = behind;
        }
        Some(given)
    }

    /// How a run with these options begins.
    pub fn start(&self) -> Start
        ensures { result ≡ start_by self.now }
    {
        let usual = Start::without_options();
        Start {
            seed: self.seed.unwrap_or(usual.seed),
            banks: self.banks.unwrap_or(usual.banks),
            piece: self.piece.unwrap_or(usual.piece),
        }
    }

    // These options and one more; `None` comes where that is none, or is given already.
    fn with(self, name: &str, value: &str) -> Option<Options>
        ensures named { IfSome result (Adds self name.now value.now) }
        ensures only { (new : Options) → Adds self name.now value.now new → result ≡ Some new }
    {
        match name {
            "--piece" if self.piece.is_none() => Some(Options {
                piece: Some(piece_of(value)?),
                ..self
            }),
            "--seed" if self.seed.is_none() => Some(Options {
                seed: Some(seed_of(value)?),
                ..self
            }),
            "--banks" if self.banks.is_none() => Some(Options {
                banks: Some(banks_of(value)?),
                ..self
            }),
            _ => None,
        }
    }
}

// The name and the value of the option with which the words begin, and the words behind it.
fn first_option(words: &[String]) -> Option<(&str, &str, &[String])>
    ensures named { IfSome result (λ option. Splits option.0.now option.1.now (map string_bytes option.2.now) (map string_bytes words.now)) }
    ensures none { IfNone result ((name value : List ℕ) (behind : List (List ℕ)) → Splits name value behind (map string_bytes words.now) → ⊥) }
{
    let (first, rest) = words.split_first()?;
    let first = first.as_str();
    match first.split_once('=') {
        Some((name, value)) => Some((name, value, rest)),
        None => {
            let (value, behind) = rest.split_first()?;
            Some((first, value.as_str(), behind))
        }
    }
}

// How many bytes a piece has by a word.
fn piece_of(text: &str) -> Option<u32>
    ensures named { IfSome result (λ piece. (text.now ≡ decimal piece) × IsPiece piece) }
    ensures only { (piece : ℕ) → text.now ≡ decimal piece → IsPiece piece → result ≡ Some piece }
{
    match number(text, LARGEST_PIECE as u64) {
        Some(piece) if piece >= 1 => Some(piece as u32),
        _ => None,
    }
}

// The seed that a word is.
fn seed_of(text: &str) -> Option<[u8; SEED_SIZE]>
    ensures named { IfSome result (IsSeed text.now) }
    ensures only { (seed : List ℕ) → IsSeed text.now seed → result ≡ Some seed }
{
    <[u8; SEED_SIZE] as FromHex>::from_hex(text).ok()
}

// The banks that a word is.
fn banks_of(text: &str) -> Option<Banks>
    ensures named { IfSome result (λ banks. text.now ≡ banks_digits banks) }
    ensures only { (banks : Banks) → text.now ≡ banks_digits banks → result ≡ Some banks }
{
    match text {
        "1" => Some(Banks::One),
        "2" => Some(Banks::Two),
        _ => None,
    }
}
