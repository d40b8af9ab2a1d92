//! Laws of frames and of streams of them.

ghost use Rattle.std.specs.Prelude.{◌≡◌, ◌++◌, ◌∷◌, [], List, ℕ};
ghost use Rattle.tpm_frame.specs.Numbers.{st_no_sessions, st_sessions, st_rsp_command, cc_startup, cc_shutdown, cc_get_random, cc_pcr_read, cc_pcr_extend, rc_success, rc_bad_tag, rc_failure, rc_command_size, rc_command_code, rc_canceled, header_size, largest_frame};
ghost use Rattle.tpm_frame.specs.Frames.{IsFrame, IsPartOfFrame, AreCut};
ghost use Rattle.tpm_frame.specs.Sizes.{IsWellSized};

use crate::{
    BAD_TAG, CANCELED, COMMAND_CODE, COMMAND_SIZE, FAILURE, GET_RANDOM, HEADER_SIZE, LARGEST_FRAME,
    NO_SESSIONS, PCR_EXTEND, PCR_READ, RSP_COMMAND, SESSIONS, SHUTDOWN, STARTUP, SUCCESS,
};
use vt_base::encodings_are_prefix_free;

/// The constants of this crate are the numbers of the standard.
pub fn constants_are_the_standards()
    ensures no_sessions { NO_SESSIONS ≡ st_no_sessions }
    ensures sessions { SESSIONS ≡ st_sessions }
    ensures rsp_command { RSP_COMMAND ≡ st_rsp_command }
    ensures startup { STARTUP ≡ cc_startup }
    ensures shutdown { SHUTDOWN ≡ cc_shutdown }
    ensures get_random { GET_RANDOM ≡ cc_get_random }
    ensures pcr_read { PCR_READ ≡ cc_pcr_read }
    ensures pcr_extend { PCR_EXTEND ≡ cc_pcr_extend }
    ensures success { SUCCESS ≡ rc_success }
    ensures bad_tag { BAD_TAG ≡ rc_bad_tag }
    ensures failure { FAILURE ≡ rc_failure }
    ensures command_size { COMMAND_SIZE ≡ rc_command_size }
    ensures command_code { COMMAND_CODE ≡ rc_command_code }
    ensures canceled { CANCELED ≡ rc_canceled }
    ensures header { HEADER_SIZE ≡ header_size }
    ensures largest { LARGEST_FRAME ≡ largest_frame }
{}

/// Bytes whose size field is their length are a frame, where a frame may have so many.
pub fn sized_bytes_are_frames()
    ensures { (bytes : List ℕ) → IsWellSized bytes → IsFrame bytes }
{}

/// However a stream is cut into pieces, its frames are these and no others, up to a rest in which none is whole.
pub fn streams_are_cut_once()
    // What was cut so far grows by each frame that becomes whole.
    ensures grows { (cut : List (List ℕ)) (stream rest piece frame back : List ℕ) → AreCut cut stream rest
        → rest ++ piece ≡ frame ++ back → IsFrame frame → AreCut (cut ++ frame ∷ []) (stream ++ piece) back }
    ensures once { (cut others : List (List ℕ)) (stream rest left : List ℕ) → AreCut cut stream rest → IsPartOfFrame rest
        → AreCut others stream left → IsPartOfFrame left → (cut ≡ others) × (rest ≡ left) }
{
    encodings_are_prefix_free::<()>();
}
