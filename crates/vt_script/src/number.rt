//! Numbers in the words of a line.
ghost use Rattle.std.specs.Prelude.{◌≡◌, ◌^◌, ◌<◌, ◌≤◌, IfSome};
ghost use Rattle.vt_script.specs.Script.{digit_of, digit_in, number_of, ordinal_of, IsOrdinal};

/// The base of ordinals.
const DECIMAL: u64 = 10;

/// How many digits an ordinal has at most.
const ORDINAL_DIGITS: usize = 5;

/// The least ordinal.
const FIRST_ORDINAL: u64 = 1;

/// The greatest ordinal.
const LAST_ORDINAL: u64 = 65_535;

// The value of a hexadecimal digit of either case.
fn digit(byte: u8) -> Option<u8>
    ensures value { result ≡ digit_of byte }
    ensures below { IfSome result (λ d. d < 16) }
{
    match byte {
        b'0'..=b'9' => Some(byte - b'0'),
        b'a'..=b'f' => Some(byte - b'a' + 10),
        b'A'..=b'F' => Some(byte - b'A' + 10),
        _ => None,
    }
}

// The value of a digit of a number in this base.
fn digit_in(base: u64, byte: u8) -> Option<u64>
    ensures value { result ≡ digit_in base byte }
    ensures below { IfSome result (λ d. d < base) }
{
    let value = u64::from(digit(byte)?);
    if value < base { Some(value) } else { None }
}

/// The number that digits spell: at least one digit, and so many at most.
pub fn number(base: u64, most: usize, word: &[u8]) -> Option<u64>
    requires least { 1 ≤ base }
    requires base { base ≤ 16 }
    requires most { most ≤ 16 }
    ensures value { result ≡ number_of base most word.now }
    ensures below { IfSome result (λ n. n < base ^ most) }
{
    if word.is_empty() || word.len() > most {
        return None;
    }
    let mut number = 0u64;
    for byte in word {
        number = number * base + digit_in(base, *byte)?;
    }
    Some(number)
}

/// Which call or which message a word names, counted from 1: in decimal, without a leading zero.
pub fn ordinal(word: &[u8]) -> Option<u32>
    ensures value { result ≡ ordinal_of word.now }
    ensures range { IfSome result IsOrdinal }
{
    let number = number(DECIMAL, ORDINAL_DIGITS, word)?;
    if word[0] == b'0' || !(FIRST_ORDINAL..=LAST_ORDINAL).contains(&number) {
        return None;
    }
    Some(number as u32)
}
