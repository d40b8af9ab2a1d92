// The numbers of the format, each named once.

/// What every message begins with: `CRBM`.
pub(crate) const MAGIC: [u8; 4] = *b"CRBM";

/// The one version that there is.
pub(crate) const VERSION: u8 = 1;

/// Where the version stands, in bytes from the start of the message.
pub(crate) const VERSION_PLACE: u32 = 4;

/// Where the length stands, that of all bytes behind it.
pub(crate) const LENGTH_PLACE: u32 = 5;

/// Where the kind stands.
pub(crate) const KIND_PLACE: u32 = 9;

/// Where the receiver stands.
pub(crate) const RECEIVER_PLACE: u32 = 10;

/// Where the body begins, and with it a part or a reason.
pub(crate) const BODY_PLACE: u32 = 19;

/// Where a piece has the number of its bytes.
pub(crate) const COUNT_PLACE: u32 = 24;

/// Where the bytes of a piece begin.
pub(crate) const BYTES_PLACE: usize = 26;

/// The length of a message with no body: of kind, receiver and epoch. None is shorter.
pub(crate) const BARE_LENGTH: u32 = 10;

/// The length of an Offer.
pub(crate) const OFFER_LENGTH: u32 = 26;

/// The length of a Need, and of a Refuse.
pub(crate) const SHORT_LENGTH: u32 = 15;

/// The length of a Piece, but for its bytes.
pub(crate) const PIECE_LENGTH: u32 = 17;

/// The length of the longest message.
pub(crate) const LARGEST_LENGTH: u32 = 4113;

/// How many bytes the longest message has in all.
pub(crate) const LARGEST_MESSAGE: usize = 4122;

/// How many bytes a piece has at most. It has at least one.
pub const LARGEST_PIECE: u16 = 4096;
