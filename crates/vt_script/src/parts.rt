//! The parts of a text between separators.
ghost use Rattle.std.specs.Prelude.{◌≡◌, ◌∷◌, [], ◌<◌, ◌==◌, length, MatchOption};
ghost use Rattle.std.specs.List.{position};
ghost use Rattle.vt_script.specs.Script.{parts_of};

/// Stands between two words of a line.
pub const SPACE: u8 = b' ';

/// Ends a line.
pub const LINE_FEED: u8 = b'\n';

// The place of the first separator.
pub fn place_of(separator: u8, bytes: &[u8]) -> Option<usize>
    ensures { result ≡ position (λ b. b == separator) bytes.now }
{
    bytes.iter().position(|b| *b == separator)
}

/// The part before the first separator, and what stands after that separator, where there is one. Parts may be empty.
pub fn first_part(separator: u8, bytes: &[u8]) -> (&[u8], Option<&[u8]>)
    ensures parts { MatchOption result.1
        (parts_of separator bytes.now ≡ result.0.now ∷ [])
        (λ rest. parts_of separator bytes.now ≡ result.0.now ∷ parts_of separator rest.now) }
    ensures shorter { MatchOption result.1 (result.0.now ≡ bytes.now) (λ rest. length rest.now < length bytes.now) }
{
    match place_of(separator, bytes) {
        Some(at) => {
            let (part, rest) = bytes.split_at(at);
            let (_, rest) = rest.split_at(1);
            (part, Some(rest))
        }
        None => (bytes, None),
    }
}
