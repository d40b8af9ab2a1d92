//! The registers and what they read.
ghost use Rattle.std.specs.Prelude.{◌≡◌, ◌/◌, ◌%◌, ◌^◌, ◌<◌, ◌≤◌, false};
ghost use Rattle.crb_regs.specs.Registers.{register, register_byte, reset_regs};
ghost use Rattle.crb_regs.specs.LittleEndian.{byte_of, little_endian_at};

use crate::phase::Phase;

/// How many bytes a register has, and how many a write to one has at most.
pub const REGISTER_SIZE: u8 = 4;

/// Tells the TPM's state to any locality: whether it is valid, established, and assigned.
pub const LOC_STATE: u32 = 0x00;

/// Takes requests for access and gives access back.
pub const LOC_CTRL: u32 = 0x08;

/// Tells whether access is granted to locality 0.
pub const LOC_STS: u32 = 0x0C;

/// The interface's kind and version.
const INTF_ID_LOW: u32 = 0x30;

/// The vendor's part of the interface's identifier.
const INTF_ID_HIGH: u32 = 0x34;

/// Takes requests to become ready or idle.
pub const CTRL_REQ: u32 = 0x40;

/// Tells whether the TPM was lost and whether the interface is idle.
pub const CTRL_STS: u32 = 0x44;

/// Cancels the command that is executed.
pub const CTRL_CANCEL: u32 = 0x48;

/// Starts the command in the buffer; 1 until it ends.
pub const CTRL_START: u32 = 0x4C;

/// How many bytes a command may have.
const CMD_SIZE: u32 = 0x58;

/// Where commands are written, the low half.
const CMD_LADDR: u32 = 0x5C;

/// How many bytes a response may have.
const RSP_SIZE: u32 = 0x64;

/// Where responses are read, the low half.
const RSP_ADDR_LOW: u32 = 0x68;

/// The first byte of the buffer for commands and responses.
pub const DATA_BUFFER: u32 = 0x80;

/// LOC_STATE: the register's content is valid (bit 7), and the TPM is established (bit 0).
const REGISTERS_VALID: u32 = 0x81;

/// LOC_STATE: a locality has access.
const LOCALITY_ASSIGNED: u32 = 0x02;

/// LOC_STS: this locality has access.
pub const GRANTED: u32 = 0x01;

/// CTRL_STS: the TPM can't be used.
pub const TPM_STS: u32 = 0x01;

/// CTRL_STS: the interface is idle.
pub const TPM_IDLE: u32 = 0x02;

/// LOC_CTRL: asks for access.
pub const REQUEST_ACCESS: u32 = 0x01;

/// LOC_CTRL: gives access back.
pub const RELINQUISH: u32 = 0x02;

/// CTRL_REQ: makes the interface ready for a command.
pub const CMD_READY: u32 = 0x01;

/// CTRL_REQ: makes the interface idle.
pub const GO_IDLE: u32 = 0x02;

/// CTRL_CANCEL: the command is to be cancelled.
pub const CANCEL: u32 = 0x01;

/// CTRL_CANCEL: the command is not to be cancelled.
pub const NO_CANCEL: u32 = 0x00;

/// CTRL_START: starts the command; reads 0 once it has ended.
pub const START: u32 = 0x01;

/// INTF_ID, low half: a CRB interface of version 1, locality 0 alone. Our own choice, after QEMU.
const INTERFACE: u32 = 0x0002_5811;

/// INTF_ID, high half: our own choice, after QEMU.
const VENDOR: u32 = 0x0000_1014;

/// How many bytes the buffer has.
const BUFFER_SIZE: u32 = 0xF80;

/// Where the buffer stands in the guest's memory.
const BUFFER_ADDRESS: u32 = 0xFED4_0080;

/// What the registers show: whether access is granted, whether CANCEL is set, and the phase.
#[derive(Clone, Copy, Debug, PartialEq, Eq)]
pub struct Regs {
    pub granted: bool,
    pub cancel: bool,
    pub phase: Phase,
}

impl Regs {
    /// The registers after a reset: no access, CANCEL clear, idle.
    pub fn reset() -> Regs
        ensures { result ≡ reset_regs }
    {
        Regs {
            granted: false,
            cancel: false,
            phase: Phase::Idle,
        }
    }

    fn state(&self) -> u32
        ensures { result ≡ register self.now LOC_STATE }
    {
        if self.granted {
            REGISTERS_VALID + LOCALITY_ASSIGNED
        } else {
            REGISTERS_VALID
        }
    }

    fn status(&self) -> u32
        ensures { result ≡ register self.now CTRL_STS }
    {
        match self.phase {
            Phase::Lost => TPM_STS,
            Phase::Idle => TPM_IDLE,
            _ => 0,
        }
    }

    fn start(&self) -> u32
        ensures { result ≡ register self.now CTRL_START }
    {
        match self.phase {
            Phase::Execution => START,
            _ => 0,
        }
    }

    /// The register of four bytes that begins at an offset; 0 where none begins.
    pub fn word(&self, offset: u32) -> u32
        ensures value { result ≡ register self.now offset }
        ensures bytes { offset % 4 ≡ 0 → result ≡ little_endian_at (register_byte self.now) offset 4 }
    {
        match offset {
            LOC_STATE => self.state(),
            LOC_STS => { if self.granted { GRANTED } else { 0 } }
            INTF_ID_LOW => INTERFACE,
            INTF_ID_HIGH => VENDOR,
            CTRL_STS => self.status(),
            CTRL_CANCEL => { if self.cancel { CANCEL } else { NO_CANCEL } }
            CTRL_START => self.start(),
            CMD_SIZE | RSP_SIZE => BUFFER_SIZE,
            CMD_LADDR | RSP_ADDR_LOW => BUFFER_ADDRESS,
            _ => 0,
        }
    }

    /// The byte of the page at an offset below the buffer. Offsets and bits are those of the PC Client Platform TPM
    /// Profile; a byte of no register reads 0.
    pub fn byte(&self, offset: u32) -> u8
        requires { offset < DATA_BUFFER }
        ensures { result ≡ register_byte self.now offset }
    {
        let word = self.word(offset / 4 * 4);
        byte_at(u64::from(word), offset % 4)
    }
}

/// Byte `k` of a number, the lowest first.
pub fn byte_at(number: u64, k: u32) -> u8
    requires { k < 8 }
    ensures { result ≡ byte_of number k }
{
    ((number >> (8 * k)) % 0x100) as u8
}
