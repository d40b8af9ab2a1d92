//! Frames as bytes, and how they are cut.

use std::test::*;
use tpm_frame::*;
use vt_base::Buf;

const START: [u8; 12] = [0x80, 1, 0, 0, 0, 12, 0, 0, 1, 0x44, 0, 0];

/// All but its last bytes.
const CUT: [u8; 9] = [0x80, 1, 0, 0, 0, 12, 0, 0, 1];

/// Commands, and whether they have sessions and their code, or the code of the refusal.
const HEADERS: [(&[u8], Result<(bool, u32), u32>); 7] = [
    (&[0x80, 2, 0, 0, 0, 10, 0, 0, 1, 0x82], Ok((true, 0x182))),
    (&START, Ok((false, 0x144))),
    (&CUT, Err(0x142)),
    (&[0x80, 3, 0, 0, 0, 11, 0, 0, 1, 0x44], Err(0x1E)),
    (&[0x80, 1, 0, 0, 0, 11, 0, 0, 1, 0x46], Err(0x142)),
    (&[0x80, 1, 1, 0, 0, 10, 0, 0, 1, 0x44], Err(0x142)),
    (&[0x80, 1, 0, 0, 0, 10, 0, 0, 1, 0x46], Err(0x143)),
];

#[test]
fn headers_are_refused_in_the_order_of_the_checks(rt: HostRuntime) {
    for (bytes, wanted) in HEADERS {
        let head = parse(bytes).map(|head| (head.sessions, head.code));
        assert!(rt; head == wanted, "{bytes:?}");
    }
}

/// Codes, and the responses that have nothing else.
const SHORT: [(u32, [u8; 10]); 3] = [
    (0x101, [0x80, 1, 0, 0, 0, 10, 0, 0, 1, 1]),
    (0x1E, [0, 0xC4, 0, 0, 0, 10, 0, 0, 0, 0x1E]),
    (0x909, [0x80, 1, 0, 0, 0, 10, 0, 0, 9, 9]),
];

/// Whether a code has this response.
fn is_short(into: &mut Buf, code: u32, wanted: &[u8]) -> bool {
    write_short(code, into) == 10 && into.bytes().get(..10) == Some(wanted)
}

#[test]
fn short_responses(rt: HostRuntime) -> Result<(), Fail> {
    let mut into = Buf::new(rt.alloc())?;
    for (code, wanted) in SHORT {
        assert!(rt; is_short(&mut into, code, &wanted), "{code}");
    }
    Ok(())
}

#[test]
fn a_frame_has_10_to_3968_bytes(rt: HostRuntime) {
    let a_frame_has_10_to_3968_bytes = [
        frame_length(&[0x80, 1, 0, 0, 0, 12]),
        frame_length(&[0, 0, 0, 0, 0, 0]),
        frame_length(&[0x80, 1, 0, 0, 0, 9]),
        frame_length(&[0x80, 1, 0, 0, 0x0F, 0x80]),
        frame_length(&[0x80, 1, 0, 0, 0x0F, 0x81]),
        frame_length(&[0x80, 1, 0xFF, 0xFF, 0xFF, 0xFF]),
    ];
    assert_eq!(rt;
        a_frame_has_10_to_3968_bytes,
        [12, 10, 10, 3968, 3968, 3968]
    );
}

/// Bytes, and how many of them are the first frame: where a second stands behind, where the size field is below ten,
/// and where there are fewer bytes than it says.
const FRAMES: [(&[u8], usize); 4] = [
    (&START, 12),
    (&[0x80, 1, 0, 0, 0, 10, 0, 0, 1, 0x45, 0x80, 1], 10),
    (&[0x80, 1, 0, 0, 0, 2, 0, 0, 1, 0x45, 7], 10),
    (&CUT, 9),
];

#[test]
fn first_frames(rt: HostRuntime) {
    for (bytes, count) in FRAMES {
        assert!(rt; Some(first_frame(bytes)) == bytes.get(..count), "{bytes:?}");
    }
    assert!(rt; first_frame(&[0xFF; 4000]).len() == 3968);
}

/// Whether so much of a piece is taken, and a frame is whole then or isn't.
fn is_fed(cutter: &mut Cutter, piece: &[u8], used: usize, whole: bool) -> bool {
    cutter.feed(piece) == Took { used, whole }
}

/// A frame, and a second one.
const SECOND: [u8; 10] = [0x80, 1, 0, 0, 0, 10, 0, 0, 1, 0x45];

const TWO: [u8; 22] = [
    0x80, 1, 0, 0, 0, 12, 0, 0, 1, 0x44, 0, 0, 0x80, 1, 0, 0, 0, 10, 0, 0, 1, 0x45,
];

/// Whether a frame is held once it came whole, also with a second behind it, which waits for the first to be dropped.
fn cuts_whole(cutter: &mut Cutter) -> bool {
    let first = is_fed(cutter, &TWO, 12, true)
        && is_fed(cutter, &SECOND, 0, true)
        && cutter.held() == START.as_slice();
    cutter.drop_held();
    let second = is_fed(cutter, &SECOND, 10, true) && cutter.held() == SECOND.as_slice();
    cutter.drop_held();
    first && second
}

/// Whether a frame is held once it came byte by byte, with empty pieces between.
fn cuts_singly(cutter: &mut Cutter) -> bool {
    for i in 0..12 {
        let fed = is_fed(cutter, &[], 0, false) && is_fed(cutter, &START[i..i + 1], 1, i == 11);
        if !fed {
            return false;
        }
    }
    let held = cutter.held() == START.as_slice();
    cutter.drop_held();
    held
}

/// Whether a size field below ten is taken for ten, and one above the buffer for the buffer.
fn cuts_ill_sized(cutter: &mut Cutter) -> bool {
    let small = is_fed(cutter, &[0; 32], 10, true);
    cutter.drop_held();
    small && is_fed(cutter, &[0xFF; 4000], 3968, true) && cutter.held().len() == 3968
}

#[test]
fn a_stream_is_cut_the_same_in_any_chunks(rt: HostRuntime) -> Result<(), Fail> {
    let mut cutter = Cutter::new(rt.alloc())?;
    assert!(rt; cuts_whole(&mut cutter));
    assert!(rt; cuts_singly(&mut cutter));
    assert!(rt; cuts_ill_sized(&mut cutter));
    Ok(())
}

/// Bytes that aren't well sized: the size field is a byte off, or the bytes are a byte off it; and well named ones of
/// no length of a frame.
const ILL_SIZED: [&[u8]; 5] = [
    &[0x80, 1, 0, 0, 0, 11, 0, 0, 1, 0x44, 0, 0],
    &[0x80, 1, 0, 0, 0, 13, 0, 0, 1, 0x44, 0, 0],
    &[0x80, 1, 0, 0, 0, 12, 0, 0, 1, 0x44, 0],
    &[0x80, 1, 0, 0, 0, 9, 0, 0, 1],
    &[],
];

#[test]
fn sizes(rt: HostRuntime) {
    let a_frame_has_10_to_3968_bytes = [
        is_length(9),
        is_length(10),
        is_length(3968),
        is_length(3969),
    ];
    assert_eq!(rt; a_frame_has_10_to_3968_bytes, [false, true, true, false]);
    assert!(rt; is_well_sized(&START));
    for bytes in ILL_SIZED {
        assert!(rt; !is_well_sized(bytes), "{bytes:?}");
    }
}
