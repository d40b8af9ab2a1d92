//! Numbers in decimal.
ghost use Rattle.std.specs.Prelude.{◌≡◌, ◌≤◌, ℕ, IfSome, IfNone};
ghost use Rattle.std.specs.Fmt.{decimal};
ghost use Rattle.script_run.specs.Reading.{begins_well};

/// The number that a word is in decimal, without a sign or a leading zero, if it is at most so large.
pub fn number(word: &str, most: u64) -> Option<u64>
    ensures named { IfSome result (λ n. (word.now ≡ decimal n) × (n ≤ most)) }
    ensures other { IfNone result ((n : ℕ) → word.now ≡ decimal n → n ≤ most → ⊥) }
{
    if !begins_well(word.as_bytes()) {
        return None;
    }
    match word.parse::<u64>() {
        Ok(number) if number <= most => Some(number),
        _ => None,
    }
}

// Whether a word has a first character, no plus sign there, and no zero there before others.
fn begins_well(digits: &[u8]) -> bool
    ensures { result ≡ begins_well digits.now }
{
    match digits {
        [] => false,
        [only] => *only != b'+',
        [first, ..] => *first != b'+' && *first != b'0',
    }
}
