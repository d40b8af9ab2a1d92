//! Laws of blobs, of pieces and of what three blobs make. Their calls do nothing.

ghost use Rattle.std.specs.Prelude.{◌≡◌, ◌≢◌, ℕ, ◌+◌, ◌<◌, ◌≤◌, List, ◌++◌, length, take, sum, is_some, if◌then◌else◌, Ok, Err};
ghost use Rattle.std.specs.List.{concat};
ghost use Rattle.vt_base.specs.Numbers.{IsBytes};
ghost use Rattle.vt_base.specs.Layout.{Encodes};
ghost use Rattle.vt_base.specs.declared.types.Kind.{Kind};
ghost use Rattle.vt_base.specs.declared.types.Kind.TheVariants.{Permanent, Volatile, Saved};
ghost use Rattle.vt_base.specs.declared.types.Why.TheVariants.{Extra};
ghost use Rattle.vt_base.specs.declared.types.Malformed.{Malformed};
ghost use Rattle.tpm_core.specs.declared.parts.TpmParts.{TpmParts};
ghost use Rattle.tpm_core.specs.Steps.{IsValid};
ghost use Rattle.state_blobs.specs.declared.types.BlobFault.{BlobFault};
ghost use Rattle.state_blobs.specs.Numbers.{volatile_length, saved_length};
ghost use Rattle.state_blobs.specs.Running.{SameRunning};
ghost use Rattle.state_blobs.specs.Encodings.{encode_blob, slices, IsBlob};
ghost use Rattle.state_blobs.specs.Blobs.{blob};
ghost use Rattle.state_blobs.specs.Refusals.{IsRefused, IsCut};
ghost use Rattle.state_blobs.specs.Assembly.{IsAssembled, IsFault};

/// Bytes are a blob, or refused for one reason, or cut; and the table of refusals is the layout of a blob parsed from
/// left to right.
#[tactic(auto, using(crate::proofs::Sizes::text_least, crate::proofs::Sizes::text_most, crate::proofs::Apart::text_is_blob, crate::proofs::Apart::prefix_is_cut, crate::proofs::Apart::blob_not_refused, crate::proofs::Apart::refused_once, crate::proofs::Apart::refused_is_decoded_if, crate::proofs::Refused::prefix_refused, crate::proofs::Bodies::blob_is_decoded, crate::proofs::Bodies::decoded_is_blob))]
pub fn blobs_are_prefix_free()
    // What is given of fit values is a blob, and each prefix of it is cut: so a gather takes its pieces, in order,
    // until it is whole.
    ensures texts { (kind : Kind) (v : TpmParts) → IsValid v → IsBlob kind (encode_blob kind v) }
    ensures least { (kind : Kind) (v : TpmParts) → 10 ≤ length (encode_blob kind v) }
    ensures most { (kind : Kind) (v : TpmParts) → IsValid v → length (encode_blob kind v) ≤ 1942 }
    ensures fronts { (kind : Kind) (bytes : List ℕ) (n : ℕ) → IsBlob kind bytes → n < length bytes → IsCut kind (take n bytes) }

    ensures not_refused { (kind : Kind) (fault : Malformed) (bytes : List ℕ) → IsBlob kind bytes → IsRefused kind fault bytes → ⊥ }
    ensures refused_once { (kind : Kind) (f g : Malformed) (bytes : List ℕ) →
        IsRefused kind f bytes → IsRefused kind g bytes → f ≡ g }

    // The layout against the definitions.
    ensures blob { (kind : Kind) (bytes : List ℕ) → IsBlob kind bytes → Encodes (blob kind) (Ok tt) bytes }
    ensures spelled { (kind : Kind) (bytes : List ℕ) → IsBytes bytes → Encodes (blob kind) (Ok tt) bytes → IsBlob kind bytes }
    ensures refused { (kind : Kind) (fault : Malformed) (bytes : List ℕ) →
        IsRefused kind fault bytes → fault.why ≢ Extra → (n : ℕ) × Encodes (blob kind) (Err fault) (take n bytes) }
    ensures exact { (kind : Kind) (fault : Malformed) (prefix more : List ℕ) →
        Encodes (blob kind) (Err fault) prefix → IsRefused kind fault (prefix ++ more) }
{}

/// How long the blobs of a TPM are.
#[tactic(auto, using(crate::proofs::Sizes::permanent_length, crate::proofs::Sizes::volatile_text_length, crate::proofs::Sizes::saved_text_length))]
pub fn blobs_have_a_length()
    ensures permanent { (v : TpmParts) → IsValid v → length (encode_blob Permanent v) ≡ 49 }
    ensures volatile { (v : TpmParts) → IsValid v → length (encode_blob Volatile v) ≡ (if v.started then 9 + volatile_length v.banks else 10) }
    ensures saved { (v : TpmParts) → IsValid v → length (encode_blob Saved v) ≡ (if is_some v.saved then 9 + saved_length v.banks else 10) }
{}

/// The encoding of values as a blob is injective.
#[tactic(auto, using(crate::proofs::Once::banks_once, crate::proofs::Once::seed_once, crate::proofs::Once::boots_once, crate::proofs::Once::running_text_once, crate::proofs::Once::saved_text_once))]
pub fn blob_encodings_are_injective()
    ensures banks { (kind : Kind) (v w : TpmParts) → encode_blob kind v ≡ encode_blob kind w → v.banks ≡ w.banks }
    ensures seed { (v w : TpmParts) → IsValid v → IsValid w → encode_blob Permanent v ≡ encode_blob Permanent w → v.seed ≡ w.seed }
    ensures boots { (v w : TpmParts) → IsValid v → IsValid w → encode_blob Permanent v ≡ encode_blob Permanent w → v.boots ≡ w.boots }
    ensures running { (v w : TpmParts) → IsValid v → IsValid w → encode_blob Volatile v ≡ encode_blob Volatile w → SameRunning v w }
    ensures saved { (v w : TpmParts) → IsValid v → IsValid w → encode_blob Saved v ≡ encode_blob Saved w → v.saved ≡ w.saved }
{}

/// Slices that follow one another from the start are a prefix of the list, and all of it where they reach its end.
#[tactic(auto, using(crate::proofs::Once::slices_are_prefix, crate::proofs::Once::slices_are_all))]
pub fn slices_join()
    ensures prefix { (list counts : List ℕ) → concat (slices list 0 counts) ≡ take (sum counts) list }
    ensures all { (list counts : List ℕ) → length list ≤ sum counts → concat (slices list 0 counts) ≡ list }
{}

/// Three lists of bytes make one TPM or have one fault.
#[tactic(auto, using(crate::proofs::Once::texts_assemble, crate::proofs::Apart::not_both, crate::proofs::Apart::one_fault))]
pub fn tpms_are_assembled_once()
    ensures once { (p v z : List ℕ) (a b : TpmParts) → IsAssembled p v z a → IsAssembled p v z b → a ≡ b }
    ensures blobs { (v : TpmParts) → IsValid v → IsAssembled (encode_blob Permanent v) (encode_blob Volatile v) (encode_blob Saved v) v }
    ensures not_both { (p v z : List ℕ) (a : TpmParts) (f : BlobFault) → IsAssembled p v z a → IsFault p v z f → ⊥ }
    ensures one_fault { (p v z : List ℕ) (f g : BlobFault) → IsFault p v z f → IsFault p v z g → f ≡ g }
{}
