use crb_regs::*;

// The registers of four bytes from offset 0 to the buffer, by those that aren't the same always.
fn page([state, locality, status, cancel, start]: [u32; 5]) -> [u32; 32] {
    [
        state,
        0,
        0,
        locality, // 0x00
        0,
        0,
        0,
        0, // 0x10
        0,
        0,
        0,
        0, // 0x20
        0x0002_5811,
        0x0000_1014,
        0,
        0, // 0x30
        0,
        status,
        cancel,
        start, // 0x40
        0,
        0,
        0xF80,
        0xFED4_0080, // 0x50
        0,
        0xF80,
        0xFED4_0080,
        0, // 0x60
        0,
        0,
        0,
        0, // 0x70
    ]
}

// What a device knows: access, CANCEL and the phase; and LOC_STATE, LOC_STS, CTRL_STS, CANCEL and START.
const SHOWN: [(bool, bool, Phase, [u32; 5]); 7] = [
    (false, false, Phase::Idle, [0x81, 0, 2, 0, 0]),
    (true, false, Phase::Idle, [0x83, 1, 2, 0, 0]),
    (false, true, Phase::Ready, [0x81, 0, 0, 1, 0]),
    (true, false, Phase::Reception, [0x83, 1, 0, 0, 0]),
    (true, true, Phase::Execution, [0x83, 1, 0, 1, 1]),
    (false, false, Phase::Completion, [0x81, 0, 0, 0, 0]),
    (true, true, Phase::Lost, [0x83, 1, 1, 1, 0]),
];

// The first register that doesn't show these words, byte by byte.
fn first_mismatch(regs: &Regs, words: [u32; 32]) -> Option<u32> {
    for offset in 0..DATA_BUFFER {
        let wanted = words[offset as usize / 4].to_le_bytes()[offset as usize % 4];
        if regs.byte(offset) != wanted {
            return Some(offset);
        }
    }
    None
}

// The first row, and its first register, that shows other words.
fn wrong_row() -> Option<(usize, u32)> {
    for (row, (granted, cancel, phase, shown)) in SHOWN.iter().enumerate() {
        let regs = Regs {
            granted: *granted,
            cancel: *cancel,
            phase: *phase,
        };
        if let Some(offset) = first_mismatch(&regs, page(*shown)) {
            return Some((row, offset));
        }
    }
    None
}

#[test]
fn each_byte_of_the_page_is_the_tables(rt: HostRuntime) {
    assert_eq!(rt; wrong_row(), None);
    assert_eq!(rt;
        first_mismatch(&Regs::reset(), page([0x81, 0, 2, 0, 0])),
        None
    );
}

// Its eight bytes.
fn bytes_of(n: u64) -> [u8; 8] {
    [
        byte_at(n, 0),
        byte_at(n, 1),
        byte_at(n, 2),
        byte_at(n, 3),
        byte_at(n, 4),
        byte_at(n, 5),
        byte_at(n, 6),
        byte_at(n, 7),
    ]
}

#[test]
fn bytes_of_a_number_are_little_endian(rt: HostRuntime) {
    assert_eq!(rt;
        bytes_of(0x0123_4567_89AB_CDEF),
        [0xEF, 0xCD, 0xAB, 0x89, 0x67, 0x45, 0x23, 0x01]
    );
}

// Offset, size, what is written, and whether that is an access.
const ACCESSES: [(u32, u8, Option<u64>, bool); 28] = [
    (0, 1, None, true),
    (0, 2, None, true),
    (0, 4, None, true),
    (0, 8, None, true),
    (0, 0, None, false),
    (0, 3, None, false),
    (0, 5, None, false),
    (0, 7, None, false),
    (0, 9, None, false),
    (0, 255, None, false),
    (0x7E, 4, None, true),
    (0xFFF, 1, None, true),
    (0xFFF, 2, None, false),
    (0xFFC, 4, None, true),
    (0xFFD, 4, None, false),
    (0xFF8, 8, None, true),
    (0xFF9, 8, None, false),
    (0x1000, 1, None, false),
    (u32::MAX, 1, None, false),
    (u32::MAX - 7, 8, None, false),
    (0, 1, Some(0xFF), true),
    (0, 1, Some(0x100), false),
    (0, 2, Some(0xFFFF), true),
    (0, 2, Some(0x1_0000), false),
    (0, 4, Some(0xFFFF_FFFF), true),
    (0, 4, Some(0x1_0000_0000), false),
    (0, 8, Some(u64::MAX), true),
    (0, 3, Some(0), false),
];

// Whether these are an access, with these values, exactly where they are to be.
fn is_access(offset: u32, size: u8, write: Option<u64>, wanted: bool) -> bool {
    match Access::new(offset, size, write) {
        Some(access) => {
            wanted && access.offset() == offset && access.size() == size && access.write() == write
        }
        None => !wanted,
    }
}

#[test]
fn accesses_outside_the_page_are_refused(rt: HostRuntime) {
    for (offset, size, write, wanted) in ACCESSES {
        assert!(rt;
            is_access(offset, size, write, wanted),
            "{size} at {offset}"
        );
    }
}

// Offset, size and value of a write, and what it does.
const EFFECTS: [(u32, u8, u64, Effect); 37] = [
    (0x08, 1, 1, Effect::Request),
    (0x08, 2, 1, Effect::Request),
    (0x08, 4, 1, Effect::Request),
    (0x08, 4, 2, Effect::Relinquish),
    (0x08, 4, 3, Effect::Nothing),
    (0x08, 4, 0, Effect::Nothing),
    (0x08, 8, 1, Effect::Nothing),
    (0x09, 1, 1, Effect::Nothing),
    (0x07, 2, 0x100, Effect::Nothing),
    (0x40, 1, 1, Effect::CmdReady),
    (0x40, 4, 1, Effect::CmdReady),
    (0x40, 2, 2, Effect::GoIdle),
    (0x40, 4, 3, Effect::Nothing),
    (0x40, 8, 2, Effect::Nothing),
    (0x41, 1, 1, Effect::Nothing),
    (0x48, 4, 0, Effect::Cancel(false)),
    (0x48, 1, 1, Effect::Cancel(true)),
    (0x48, 4, 2, Effect::Nothing),
    (0x48, 8, 0, Effect::Nothing),
    (0x4C, 1, 1, Effect::Start),
    (0x4C, 4, 1, Effect::Start),
    (0x4C, 4, 0, Effect::Nothing),
    (0x4C, 4, 3, Effect::Nothing),
    (0x4C, 8, 1, Effect::Nothing),
    (0x4E, 2, 1, Effect::Nothing),
    (0x00, 4, 1, Effect::Nothing),
    (0x0C, 4, 1, Effect::Nothing),
    (0x44, 4, 1, Effect::Nothing),
    (0x50, 4, 1, Effect::Nothing),
    (0x7C, 8, 1, Effect::Nothing),
    (0x7F, 1, 1, Effect::Nothing),
    (0x7F, 2, 1, Effect::Nothing),
    (0x80, 1, 0, Effect::Buffer),
    (0x80, 8, 1, Effect::Buffer),
    (0x81, 2, 3, Effect::Buffer),
    (0xFF8, 8, 1, Effect::Buffer),
    (0xFFF, 1, 0xFF, Effect::Buffer),
];

// Whether a write has this effect.
fn has_effect(offset: u32, size: u8, value: u64, wanted: Effect) -> bool {
    match Access::new(offset, size, Some(value)) {
        Some(access) => decode(&access) == wanted,
        None => false,
    }
}

#[test]
fn each_write_has_the_effect_of_the_table(rt: HostRuntime) {
    for (offset, size, value, wanted) in EFFECTS {
        assert!(rt;
            has_effect(offset, size, value, wanted),
            "{value} at {offset}"
        );
    }
}
