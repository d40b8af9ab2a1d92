//! Laws of streams, for proofs above. Their calls do nothing.

ghost use Rattle.std.specs.Prelude.{◌≡◌, ◌≢◌, ◌⊎◌, ℕ, ◌+◌, ◌<◌, ◌≤◌, List, [], ◌++◌, length, take};
ghost use Rattle.vt_base.specs.Numbers.{IsBytes};
ghost use Rattle.vt_base.specs.Refusing.{malformed};
ghost use Rattle.vt_base.specs.declared.types.Malformed.{Malformed};
ghost use Rattle.vt_base.specs.declared.types.Why.TheVariants.{Cut, Extra};
ghost use Rattle.crb_history.specs.Snapshot.{Snapshot, IsValidSnapshot};
ghost use Rattle.saved_stream.specs.Streams.{with_head, encode_parts, IsStream};
ghost use Rattle.saved_stream.specs.Refusals.{IsStreamRefused};
ghost use Rattle.saved_stream.specs.Headers.{wanted_after, EndsNoStream};

/// Bytes are the stream of one device and one TPM, or they are refused for one reason at one place.
pub fn decoding_is_unique()
    // What is written of the parts of fit values is their stream.
    ensures streams { (b : Snapshot) → IsValidSnapshot b → IsStream (with_head (encode_parts b)) b }

    ensures once { (bytes : List ℕ) (b c : Snapshot) → IsStream bytes b → IsStream bytes c → b ≡ c }
    ensures not_refused { (bytes : List ℕ) (b : Snapshot) (fault : Malformed) → IsStream bytes b → IsStreamRefused fault bytes → ⊥ }
    ensures refused_once { (bytes : List ℕ) (f g : Malformed) → IsStreamRefused f bytes → IsStreamRefused g bytes → f ≡ g }

    // Bytes that are refused for what stands behind a stream begin with one.
    ensures behind { (bytes : List ℕ) (place : ℕ) → IsStreamRefused (malformed Extra place) bytes
        → (place < length bytes) × (b : Snapshot) × IsStream (take place bytes) b }

    // Each prefix of a stream is cut.
    ensures fronts { (bytes : List ℕ) (b : Snapshot) (n : ℕ) → IsStream bytes b → n < length bytes → IsStreamRefused (malformed Cut n) (take n bytes) }

    // A reader that asks for as many bytes as are wanted gets the stream, and no byte past it.
    ensures asks { (bytes : List ℕ) (b : Snapshot) (n : ℕ) → IsStream bytes b → n < length bytes → 0 < wanted_after (take n bytes) }
    ensures within { (bytes : List ℕ) (b : Snapshot) (n : ℕ) → IsStream bytes b → n < length bytes → n + wanted_after (take n bytes) ≤ length bytes }
    ensures cut_wants { (bytes : List ℕ) (place : ℕ) → IsBytes bytes → IsStreamRefused (malformed Cut place) bytes → 0 < wanted_after bytes }
    ensures stops { (bytes : List ℕ) (b : Snapshot) → IsStream bytes b → wanted_after bytes ≡ 0 }

    // What else is refused stays so, whatever follows.
    ensures stays { (bytes more : List ℕ) (fault : Malformed) → IsStreamRefused fault bytes → fault.why ≢ Cut → fault.why ≢ Extra
        → IsStreamRefused fault (bytes ++ more) }
{
    device_record::laws::records_are_prefix_free();
    device_record::laws::record_encoding_is_injective();
    state_blobs::laws::blobs_are_prefix_free();
    state_blobs::laws::tpms_are_assembled_once();
}

/// How many bytes a stream has: the least are those of a host after a reset, the most those of a device with a full buffer
/// over a started TPM with two banks and a saved state.
pub fn streams_have_a_length()
    ensures least { (bytes : List ℕ) (b : Snapshot) → IsStream bytes b → 101 ≤ length bytes }
    ensures most { (bytes : List ℕ) (b : Snapshot) → IsStream bytes b → length bytes ≤ 7285 }
{
    device_record::laws::records_have_a_length();
    state_blobs::laws::blobs_have_a_length();
}

/// Read as many bytes as `wanted` says, until it says 0 or the input ends. Those bytes decide whether the input begins with
/// a stream.
pub fn wanted_bytes_are_enough()
    ensures start { EndsNoStream [] }
    ensures more { (bytes more : List ℕ) → EndsNoStream bytes → length more ≤ wanted_after bytes → EndsNoStream (bytes ++ more) }

    // It takes at most so many bytes.
    ensures few { (bytes : List ℕ) → 0 < wanted_after bytes → length bytes + wanted_after bytes ≤ 15973 }

    // What is refused of the bytes is refused of the whole input.
    ensures refused { (bytes rest : List ℕ) (fault : Malformed) → IsBytes bytes → EndsNoStream bytes → (wanted_after bytes ≡ 0) ⊎ (rest ≡ [])
        → IsStreamRefused fault bytes → IsStreamRefused fault (bytes ++ rest) × (fault.why ≢ Extra) }
{
    decoding_is_unique();
}
