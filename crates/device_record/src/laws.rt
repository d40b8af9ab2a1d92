//! Laws of records, for proofs above. Their calls do nothing.

ghost use Rattle.std.specs.Prelude.{◌≡◌, ◌≢◌, ℕ, ◌<◌, ◌≤◌, ◌⊎◌, List, ◌++◌, length, take, drop, Some, Ok};
ghost use Rattle.vt_base.specs.Numbers.{IsBytes};
ghost use Rattle.vt_base.specs.Layout.{Encodes};
ghost use Rattle.vt_base.specs.Refusing.{malformed};
ghost use Rattle.vt_base.specs.declared.types.Why.TheVariants.{Cut, Extra};
ghost use Rattle.vt_base.specs.declared.types.Malformed.{Malformed};
ghost use Rattle.crb_machine.specs.Values.{DeviceValues, AreValid};
ghost use Rattle.device_record.specs.declared.fields.Fields.{Fields};
ghost use Rattle.device_record.specs.Records.{fields_of, values_of, encode_record, IsRecord};
ghost use Rattle.device_record.specs.Layouts.{record_layout, HasRefusedField, AreCut, GoOn, IsRefused};
ghost use Rattle.device_record.specs.Rows.{first_refused};

/// Bytes are the record of some values, or refused for one reason at one place.
#[tactic(auto, using(crate::proofs::Apart::text_is_record, crate::proofs::Apart::text_not_refused, crate::proofs::Apart::text_prefix_is_cut, crate::proofs::Apart::refused_once, crate::proofs::Apart::refused_stays, crate::proofs::Decided::decided, crate::proofs::Reasons::cut_is_cut, crate::proofs::Reasons::extra_goes_on, crate::proofs::Values::text_is_decoded, crate::proofs::Values::decoded_is_of_values))]
pub fn records_are_prefix_free()
    // The record of values that a held device can have is accepted, and each prefix of it is cut and nothing else.
    ensures accepted { (v : DeviceValues) → AreValid v → IsRecord (encode_record v) v }
    ensures not_refused { (v : DeviceValues) (fault : Malformed) → AreValid v → IsRefused fault (encode_record v) → ⊥ }
    ensures fronts { (v : DeviceValues) (n : ℕ) → AreValid v → n < length (encode_record v) →
        IsRefused (malformed Cut n) (take n (encode_record v)) }

    ensures decided { (bytes : List ℕ) → IsBytes bytes →
        ((v : DeviceValues) × IsRecord bytes v) ⊎ ((fault : Malformed) × IsRefused fault bytes) }
    ensures refused_once { (f g : Malformed) (bytes : List ℕ) → IsRefused f bytes → IsRefused g bytes → f ≡ g }

    // `Cut` comes exactly if the bytes end before a record does; `Extra` exactly if a record ends before they do.
    ensures cut { (fault : Malformed) (bytes : List ℕ) → IsRefused fault bytes → fault.why ≡ Cut → AreCut fault bytes }
    ensures extra { (fault : Malformed) (bytes : List ℕ) → IsRefused fault bytes → fault.why ≡ Extra → GoOn fault bytes }

    // Unless the bytes are cut, more of them change nothing.
    ensures stays { (fault : Malformed) (bytes more : List ℕ) → IsRefused fault bytes → fault.why ≢ Cut →
        IsRefused fault (bytes ++ more) }

    // The layout against the definition of a record.
    ensures exact { (v : DeviceValues) → AreValid v → Encodes record_layout (Ok (fields_of v)) (encode_record v) }
    ensures spelled { (f : Fields) (bytes : List ℕ) → IsBytes bytes → Encodes record_layout (Ok f) bytes →
        IsRecord bytes (values_of f (drop 23 bytes)) }
{}

/// The encoding of values as a record is injective.
#[tactic(auto, using(crate::proofs::Values::values_once))]
pub fn record_encoding_is_injective()
    ensures once { (v w : DeviceValues) → AreValid v → AreValid w → encode_record v ≡ encode_record w → v ≡ w }
{}

/// A field of bytes is refused exactly where a row holds, and the first that does says why and where.
#[tactic(auto, using(crate::proofs::Rows::refused_by_rows, crate::proofs::Rows::rows_refuse))]
pub fn records_are_refused_by_rows()
    ensures by_rows { (fault : Malformed) (bytes : List ℕ) → HasRefusedField fault bytes → first_refused bytes ≡ Some fault }
    ensures rows { (fault : Malformed) (bytes : List ℕ) → first_refused bytes ≡ Some fault → HasRefusedField fault bytes }
{}

/// A record has 23 to 3991 bytes.
#[tactic(auto, using(crate::proofs::Lengths::record_least, crate::proofs::Lengths::record_most))]
pub fn records_have_a_length()
    ensures least { (v : DeviceValues) → 23 ≤ length (encode_record v) }
    ensures most { (v : DeviceValues) → AreValid v → length (encode_record v) ≤ 3991 }
{}
