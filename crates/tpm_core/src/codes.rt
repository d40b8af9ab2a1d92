//! The numbers of the TPM 2.0 Library that commands and responses of this crate use, beside those of headers.
//! Each has its name there, but for the start that gives its kind.

/// TPM_ALG_SHA256.
pub const ALG_SHA256: u16 = 0x000B;

/// TPM_ALG_SHA384.
pub const ALG_SHA384: u16 = 0x000C;

/// TPM_SU_CLEAR: values begin anew.
pub const SU_CLEAR: u16 = 0;

/// TPM_SU_STATE: values are kept, or brought back.
pub const SU_STATE: u16 = 1;

/// TPM_RS_PW: the session whose authorisation is a password.
pub const RS_PW: u32 = 0x4000_0009;

/// TPM_RH_NULL: the handle that names nothing.
pub const RH_NULL: u32 = 0x4000_0007;

/// TPM_RC_INITIALIZE.
pub const INITIALIZE: u32 = 0x100;

/// TPM_RC_AUTH_MISSING.
pub const AUTH_MISSING: u32 = 0x125;

/// TPM_RC_AUTHSIZE.
pub const AUTHSIZE: u32 = 0x144;

/// TPM_RC_AUTH_CONTEXT.
pub const AUTH_CONTEXT: u32 = 0x145;

/// TPM_RC_LOCALITY.
pub const LOCALITY: u32 = 0x907;

/// TPM_RC_HASH, of a handle, session or parameter.
pub const HASH: u32 = 0x83;

/// TPM_RC_VALUE, of a handle, session or parameter.
pub const VALUE: u32 = 0x84;

/// TPM_RC_SIZE, of a handle, session or parameter.
pub const SIZE: u32 = 0x95;

/// TPM_RC_INSUFFICIENT, of a handle, session or parameter.
pub const INSUFFICIENT: u32 = 0x9A;

/// TPM_RC_BAD_AUTH, of a handle, session or parameter.
pub const BAD_AUTH: u32 = 0xA2;

/// What is added for the first handle: TPM_RC_H and TPM_RC_1.
pub const HANDLE_1: u32 = 0x100;

/// What is added for the first parameter: TPM_RC_P and TPM_RC_1.
pub const PARAMETER_1: u32 = 0x140;

/// What is added for the second parameter.
pub const PARAMETER_2: u32 = 0x240;

/// What is added for the third parameter.
pub const PARAMETER_3: u32 = 0x340;

/// What is added for the first session: TPM_RC_S and TPM_RC_1.
pub const SESSION_1: u32 = 0x900;
