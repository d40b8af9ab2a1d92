// Formats of messages that are parsed from left to right.
ghost use Rattle.std.specs.Prelude.{◌≡◌, ℕ};
ghost use Rattle.vt_base.specs.Layout.{Layout, IsWithin};
ghost use Rattle.vt_base.specs.Parsing.{parsed};

/// How many bytes are missing at the end of a field that isn't whole.
#[derive(Clone, Copy, Debug, PartialEq, Eq)]
pub struct Missing(pub usize);

/// A format whose messages are parsed from left to right, field by field.
pub trait Grammar {
    /// How a message ends: as a value, or as a refusal.
    type End;

    /// The fields of a message, each deciding what follows it.
    ghost layout: { Self → Layout Self.End };

    /// The most bytes that a message has.
    ghost room: { Self → ℕ };

    /// How the message that these bytes begin ends, or how many bytes its next field lacks. A reader calls it once a field
    /// with all the bytes so far, so it should pass over the fields without looking at each of their bytes.
    fn parse(&self, bytes: &[u8]) -> Result<Self::End, Missing>
        ensures parsed { result ≡ parsed (layout self.now) bytes.now };

    /// No message has more bytes than `room`.
    ghost within: { (g : Self) → IsWithin (layout g) (room g) };
}
