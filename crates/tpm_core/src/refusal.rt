//! Why a command is refused.

ghost use Rattle.std.specs.Prelude.{◌≡◌};

use crate::codes::{
    AUTH_CONTEXT, AUTH_MISSING, AUTHSIZE, BAD_AUTH, HANDLE_1, HASH, INITIALIZE, INSUFFICIENT,
    LOCALITY, PARAMETER_1, PARAMETER_2, PARAMETER_3, SESSION_1, SIZE, VALUE,
};
use tpm_frame::{BAD_TAG, COMMAND_CODE, COMMAND_SIZE};

/// Why a command is refused: the first of the checks that fails.
#[derive(Clone, Copy, Debug, PartialEq, Eq)]
pub enum Refusal {
    /// The tag isn't that of a command.
    BadTag,
    /// The size field isn't the length, or the header is cut.
    CommandSize,
    /// The command isn't known.
    CommandCode,
    /// The TPM is started and gets another start, or isn't started and gets anything else.
    Initialize,
    /// The command needs an authorisation.
    AuthMissing,
    /// The command takes no authorisation.
    AuthContext,
    /// The handle is cut.
    HandleCut,
    /// The handle names nothing that can be extended.
    HandleValue,
    /// The authorisation has the wrong size, or it has a nonce.
    AuthSize,
    /// The session isn't that of passwords.
    SessionValue,
    /// The password isn't empty.
    BadAuth,
    /// The first parameter is cut, or one of a command that doesn't tell its parameters apart.
    ParameterCut,
    /// It has a value that isn't known, or a state that isn't there is to be brought back.
    ParameterValue,
    /// It is a list or a message that is too long, or bytes are left over.
    ParameterSize,
    /// The TPM has no bank of its algorithm.
    ParameterHash,
    /// The second parameter is cut.
    Parameter2Cut,
    /// The second parameter has a value that isn't known.
    Parameter2Value,
    /// The TPM has no bank of the algorithm that the second parameter names.
    Parameter2Hash,
    /// The third parameter is cut.
    Parameter3Cut,
    /// The third parameter has a value that isn't known.
    Parameter3Value,
    /// Bytes are left over behind the third parameter.
    Parameter3Size,
    /// The register is closed to this locality.
    Locality,
}

impl Refusal {
    ghost use Rattle.tpm_core.specs.Refusals.{code_of};

    /// The response code.
    pub fn code(self) -> u32
        ensures { result ≡ code_of self }
    {
        match self {
            Refusal::BadTag => BAD_TAG,
            Refusal::CommandSize => COMMAND_SIZE,
            Refusal::CommandCode => COMMAND_CODE,
            Refusal::Initialize => INITIALIZE,
            Refusal::AuthMissing => AUTH_MISSING,
            Refusal::AuthContext => AUTH_CONTEXT,
            Refusal::HandleCut => INSUFFICIENT + HANDLE_1,
            Refusal::HandleValue => VALUE + HANDLE_1,
            Refusal::AuthSize => AUTHSIZE,
            Refusal::SessionValue => VALUE + SESSION_1,
            Refusal::BadAuth => BAD_AUTH + SESSION_1,
            Refusal::ParameterCut => INSUFFICIENT + PARAMETER_1,
            Refusal::ParameterValue => VALUE + PARAMETER_1,
            Refusal::ParameterSize => SIZE + PARAMETER_1,
            Refusal::ParameterHash => HASH + PARAMETER_1,
            Refusal::Parameter2Cut => INSUFFICIENT + PARAMETER_2,
            Refusal::Parameter2Value => VALUE + PARAMETER_2,
            Refusal::Parameter2Hash => HASH + PARAMETER_2,
            Refusal::Parameter3Cut => INSUFFICIENT + PARAMETER_3,
            Refusal::Parameter3Value => VALUE + PARAMETER_3,
            Refusal::Parameter3Size => SIZE + PARAMETER_3,
            Refusal::Locality => LOCALITY,
        }
    }
}
