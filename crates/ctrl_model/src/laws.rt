//! The law of the profile's numbers. Its call does nothing.
ghost use Rattle.std.specs.Prelude.{◌≡◌};
ghost use Rattle.ctrl_model.specs.Numbers.{success, bad_parameter, bad_ordinal, capabilities, delete_volatile, permanent_blob, volatile_blob, saved_blob, least_buffer, greatest_buffer, flags_place, total_place, length_place};

use crate::profile::{
    BAD_ORDINAL, BAD_PARAMETER, CAPABILITIES, DELETE_VOLATILE, FLAGS_PLACE, GREATEST_BUFFER,
    LEAST_BUFFER, LENGTH_PLACE, PERMANENT_BLOB, SAVED_BLOB, SUCCESS, TOTAL_PLACE, VOLATILE_BLOB,
};

/// The constants of this crate are the numbers of the profile.
pub fn constants_are_the_profile()
    ensures success { SUCCESS ≡ success }
    ensures parameter { BAD_PARAMETER ≡ bad_parameter }
    ensures ordinal { BAD_ORDINAL ≡ bad_ordinal }
    ensures capabilities { CAPABILITIES ≡ capabilities }
    ensures delete { DELETE_VOLATILE ≡ delete_volatile }
    ensures permanent { PERMANENT_BLOB ≡ permanent_blob }
    ensures volatile { VOLATILE_BLOB ≡ volatile_blob }
    ensures saved { SAVED_BLOB ≡ saved_blob }
    ensures least { LEAST_BUFFER ≡ least_buffer }
    ensures greatest { GREATEST_BUFFER ≡ greatest_buffer }
    ensures flags { FLAGS_PLACE ≡ flags_place }
    ensures total { TOTAL_PLACE ≡ total_place }
    ensures length { LENGTH_PLACE ≡ length_place }
{}
