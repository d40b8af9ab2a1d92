//! Laws of control messages, for proofs above. Their calls do nothing.

ghost use Rattle.std.specs.Prelude.{◌≡◌, ◌++◌, ◌∷◌, [], List, ℕ};
ghost use Rattle.ctrl_codec.specs.Requests.{Asks, HasData, IsInRange, Refuses, encode_request};
ghost use Rattle.ctrl_codec.specs.Replies.{IsReplyToCode, Says, ReplyHasData, ReplyIsInRange, RefusesReply, encode_reply};
ghost use Rattle.ctrl_codec.specs.RequestReading.{HasNoRequest};
ghost use Rattle.ctrl_codec.specs.RequestStreams.{Asked, AreAsked};
ghost use Rattle.ctrl_codec.specs.declared.request_code.RequestCode.{RequestCode};
ghost use Rattle.ctrl_codec.specs.declared.reply.Reply.{Reply};
ghost use Rattle.ctrl_codec.specs.declared.reply.ReplyFault.{ReplyFault};
ghost use Rattle.ctrl_codec.specs.declared.request.Request.{Request};
ghost use Rattle.ctrl_codec.specs.declared.request.RequestFault.{RequestFault};

/// What is written for a request asks it, with its data.
pub fn written_requests_ask()
    ensures { (q : Request) (p : List ℕ) → IsInRange q → HasData q p → Asks q p (encode_request q (0 ∷ 0 ∷ 0 ∷ []) p) }
{}

/// What is written for a reply says it, with its data, to each command that has such a reply.
pub fn written_replies_say()
    ensures { (c : RequestCode) (r : Reply) (p : List ℕ) → IsReplyToCode c r → ReplyIsInRange r → ReplyHasData r p
        → Says c r p (encode_reply r p) }
{}

/// What the bytes of a stream ask first is one request with its data, or they are refused in one way, whatever follows:
/// no encoding begins another.
pub fn requests_are_prefix_free()
    ensures requests { (q r : Request) (p s a b x y : List ℕ) → Asks q p a → Asks r s b → a ++ x ≡ b ++ y
        → (q ≡ r) × (p ≡ s) × (a ≡ b) }
    ensures refusals { (f g : RequestFault) (a b x y : List ℕ) → Refuses f a → Refuses g b → a ++ x ≡ b ++ y
        → (f ≡ g) × (a ≡ b) }
    ensures apart { (q : Request) (f : RequestFault) (p a b x y : List ℕ) → Asks q p a → Refuses f b
        → a ++ x ≡ b ++ y → ⊥ }
{}

/// The same of the replies to one command.
pub fn replies_are_prefix_free()
    ensures replies { (c : RequestCode) (q r : Reply) (p s a b x y : List ℕ) → Says c q p a → Says c r s b
        → a ++ x ≡ b ++ y → (q ≡ r) × (p ≡ s) × (a ≡ b) }
    ensures refusals { (c : RequestCode) (f g : ReplyFault) (a b x y : List ℕ) → RefusesReply c f a → RefusesReply c g b
        → a ++ x ≡ b ++ y → (f ≡ g) × (a ≡ b) }
    ensures apart { (c : RequestCode) (r : Reply) (f : ReplyFault) (p a b x y : List ℕ) → Says c r p a
        → RefusesReply c f b → a ++ x ≡ b ++ y → ⊥ }
{}

/// However a stream is cut into pieces, its requests are these and no others, up to a rest at whose start none is
/// whole.
pub fn requests_are_read_once()
    // What was read so far grows by each request that becomes whole.
    ensures grows { (asked : List Asked) (stream rest piece prefix back : List ℕ) (next : Asked) → AreAsked asked stream rest
        → rest ++ piece ≡ prefix ++ back → Asks next.request next.payload prefix
        → AreAsked (asked ++ next ∷ []) (stream ++ piece) back }
    ensures once { (asked others : List Asked) (stream rest left : List ℕ) → AreAsked asked stream rest
        → HasNoRequest rest → AreAsked others stream left → HasNoRequest left → (asked ≡ others) × (rest ≡ left) }
{}
