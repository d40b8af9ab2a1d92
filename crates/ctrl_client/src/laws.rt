//! Laws of the emulator that requests go to. Their calls do nothing.
ghost use Rattle.std.specs.Prelude.{◌≡◌, ◌≢◌, ◌≤◌, ◌-◌, ℕ, List, length, min, Some, Ok};
ghost use Rattle.vt_base.specs.declared.types.Kind.{Kind};
ghost use Rattle.tpm_core.specs.declared.parts.TpmParts.{TpmParts};
ghost use Rattle.state_blobs.specs.Encodings.{encode_blob};
ghost use Rattle.ctrl_codec.specs.declared.request.Request.{Request};
ghost use Rattle.ctrl_model.specs.Emulator.{EmulatorState, RequestOutcome, HandlesRequest};
ghost use Rattle.ctrl_client.specs.Pieces.{piece_given};

/// An emulator with a TPM gives a piece from each place of its blob: as many bytes as one reply has at most, or all that
/// are left, where the caller has room for them.
#[tactic(auto, using(crate::proofs::Keeping::piece_is_given))]
pub fn a_piece_is_given()
    ensures { (kind : Kind) (offset room : ℕ) (d : EmulatorState) (t : TpmParts) → d.tpm ≡ Some t → offset ≤ length (encode_blob kind t)
        → 1 ≤ d.piece → min d.piece (length (encode_blob kind t) - offset) ≤ room
        → piece_given kind offset room d ≡ Ok (record { total = length (encode_blob kind t); length = min d.piece (length (encode_blob kind t) - offset) }) }
{}

/// No request but SHUTDOWN closes the control channel, and none changes how many bytes of a blob one reply has at most.
#[tactic(auto, using(crate::proofs::Keeping::piece_is_kept, crate::proofs::Keeping::channel_stays_open))]
pub fn requests_keep_the_channel()
    ensures piece { (q : Request) (bytes : List ℕ) (d : EmulatorState) (request_outcome : RequestOutcome) → q ≢ Request.Shutdown → HandlesRequest q bytes d request_outcome → request_outcome.emulator.piece ≡ d.piece }
    ensures open_as_before { (q : Request) (bytes : List ℕ) (d : EmulatorState) (request_outcome : RequestOutcome) → q ≢ Request.Shutdown → HandlesRequest q bytes d request_outcome → request_outcome.emulator.closed ≡ d.closed }
{}
