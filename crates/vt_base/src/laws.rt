// Laws of every layout, for proofs above. Their calls do nothing.
ghost use Rattle.std.specs.Prelude.{◌≡◌, ◌++◌, ◌∷◌, [], List, ℕ};
ghost use Rattle.vt_base.specs.Layout.{Layout, Encodes, IsOpen};
ghost use Rattle.vt_base.specs.Stream.{Streams};

/// No encoding begins another: two encodings at the start of the same bytes are the same, and end alike.
pub fn encodings_are_prefix_free<E>()
    ensures apart { (layout : Layout E) (d e : E) (a b x y : List ℕ) →
        Encodes layout d a → Encodes layout e b → a ++ x ≡ b ++ y → (d ≡ e) × (a ≡ b) }
{}

/// However a stream is cut into pieces, it is these messages and no others, up to a rest in which
/// nothing ended.
pub fn decoding_is_unique<E>()
    // What a reader took so far grows by the messages that become whole.
    ensures grows { (layout : Layout E) (ends : List E) (stream rest : List ℕ) (end : E) (piece prefix back : List ℕ) →
        Streams layout ends stream rest → rest ++ piece ≡ prefix ++ back → Encodes layout end prefix →
        Streams layout (ends ++ end ∷ []) (stream ++ piece) back }

    // Two readings of a stream agree, whatever the pieces were.
    ensures once { (layout : Layout E) (ends others : List E) (stream rest left : List ℕ) →
        Streams layout ends stream rest → IsOpen layout rest →
        Streams layout others stream left → IsOpen layout left → (ends ≡ others) × (rest ≡ left) }
{}
