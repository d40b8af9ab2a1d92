//! The numbers of the TPM 2.0 Library that the four commands use, beside those of `tpm_frame`.

/// TPM_CC_SelfTest.
pub const SELF_TEST: u32 = 0x143;

/// TPM_CC_GetCapability.
pub const GET_CAPABILITY: u32 = 0x17A;

/// TPM_CC_GetTestResult.
pub const GET_TEST_RESULT: u32 = 0x17C;

/// TPM_CC_Hash.
pub const HASH: u32 = 0x17D;

/// TPM_ST_HASHCHECK: the tag of a ticket for a hash.
pub const HASH_CHECK: u16 = 0x8024;

/// TPM_CAP_ALGS: the algorithms.
pub const ALGORITHMS: u32 = 0;

/// TPM_CAP_COMMANDS: the commands.
pub const COMMANDS: u32 = 2;

/// TPM_CAP_PCRS: the banks of registers.
pub const PCRS: u32 = 5;

/// TPM_CAP_TPM_PROPERTIES: the properties.
pub const TPM_PROPERTIES: u32 = 6;

/// TPM_PT_FAMILY_INDICATOR.
pub const FAMILY_INDICATOR: u32 = 0x100;

/// TPM_PT_MANUFACTURER.
pub const MANUFACTURER: u32 = 0x105;

/// TPM_PT_PCR_COUNT.
pub const PCR_COUNT: u32 = 0x112;

/// TPM_PT_MAX_COMMAND_SIZE.
pub const MAX_COMMAND_SIZE: u32 = 0x11E;

/// TPM_PT_MAX_RESPONSE_SIZE.
pub const MAX_RESPONSE_SIZE: u32 = 0x11F;

/// TPM_PT_TOTAL_COMMANDS.
pub const TOTAL_COMMANDS: u32 = 0x129;

/// TPMA_CC: the command has one handle.
pub const ONE_HANDLE: u32 = 1 << 25;

/// TPMA_ALGORITHM: a hash.
pub const IS_HASH: u32 = 1 << 2;
