//! Laws of migration messages and of streams of them. Their calls do nothing.
ghost use Rattle.std.specs.Prelude.{◌≡◌, ◌<◌, ◌^◌, ◌++◌, ◌∷◌, [], List, ℕ, Option};
ghost use Rattle.vt_base.specs.declared.types.Malformed.{Malformed};
ghost use Rattle.move_codec.specs.declared.message.Message.{Message};
ghost use Rattle.move_codec.specs.Encoding.{IsInRange, Moves};
ghost use Rattle.move_codec.specs.Refusals.{Refuses};
ghost use Rattle.move_codec.specs.Streams.{Carries, Stops};

use crate::message::{Body, Message};

/// Bytes begin with one message, or with one refusal, whatever follows. So what was written is read again.
pub fn messages_are_prefix_free()
    ensures messages { (m n : Message) (a b x y : List ℕ) → Moves m a → Moves n b
        → a ++ x ≡ b ++ y → (m ≡ n) × (a ≡ b) }
    ensures refusals { (f g : Malformed) (a b x y : List ℕ) → Refuses f a → Refuses g b
        → a ++ x ≡ b ++ y → (f ≡ g) × (a ≡ b) }
    ensures apart { (m : Message) (f : Malformed) (a b x y : List ℕ) → Moves m a → Refuses f b
        → a ++ x ≡ b ++ y → ⊥ }
{}

/// Chunking doesn't matter: a stream has one list of messages. Its rest is refused for one cause, or nothing is decided in
/// it.
pub fn streams_are_read_once()
    // What was read so far grows by each message that becomes whole.
    ensures grows { (sent : List Message) (stream rest piece prefix back : List ℕ) (m : Message) → Carries sent stream rest
        → rest ++ piece ≡ prefix ++ back → Moves m prefix → Carries (sent ++ m ∷ []) (stream ++ piece) back }
    ensures once { (sent others : List Message) (stream rest left : List ℕ) (stop end : Option Malformed)
        → Carries sent stream rest → Stops stop rest → Carries others stream left → Stops end left
        → (sent ≡ others) × (rest ≡ left) × (stop ≡ end) }
{}

/// The numbers of a message are those of their types: an Offer has four totals, each below 2³².
pub fn messages_are_in_range(m: &Message)
    ensures epoch { m.now.epoch < 2 ^ 64 }
    ensures body { IsInRange m.now.body }
{
    let _epoch = m.epoch;
    match &m.body {
        Body::Offer { totals } => {
            let [_record, _permanent, _volatile, _saved] = *totals;
        }
        Body::Need { offset, .. } | Body::Piece { offset, .. } => {
            let _offset = *offset;
        }
        Body::Refuse { value, .. } => {
            let _value = *value;
        }
        Body::Prepared | Body::Commit | Body::Abort => {}
    }
}
