use bulk_lines::{BulkLines, Summary};
use std::alloc::{AllocError, Global};
use std::test::Fail;
use vt_base::Bytes;
use vt_script::DriveLine;

fn text_of(alloc: Global, line: &DriveLine) -> Result<String, AllocError> {
    match line {
        DriveLine::Cmd(command) => {
            let digits = hex::encode(alloc, command.as_slice())?;
            format!(in alloc; "cmd {digits}")
        }
        DriveLine::Move => format!(in alloc; "move"),
        DriveLine::MoveFail(message) => format!(in alloc; "movefail {message}"),
    }
}

// Whether these are all lines from a seed.
fn are_lines(alloc: Global, seed: u64, count: u32, wanted: &[&str]) -> Result<bool, AllocError> {
    let mut lines = BulkLines::new(seed, count);
    for text in wanted {
        let Some(line) = lines.next(alloc)? else {
            return Ok(false);
        };
        if text_of(alloc, &line)?.as_str() != *text {
            return Ok(false);
        }
    }
    Ok(lines.next(alloc)?.is_none() && lines.next(alloc)?.is_none())
}

// Made by another program, from the description of the generator.
const OF_SEVEN: [&str; 13] = [
    "cmd 80010000000c000001440000",
    "cmd 80010000000c0000017b0027",
    "movefail 12",
    "cmd 8001000000140000017e00000001000b03000010",
    "cmd 8001000000140000017e00000001000b03100000",
    "cmd 8001000000140000017e00000001000b03000004",
    "move",
    "cmd 800200000041000001820000000a0000000940000009000001000000000001000ba3eb8db89fc5123ccfd49585059f292bc40a1c0d550b860f24f84efb4760fbf2",
    "cmd 80020000004100000182000000050000000940000009000001000000000001000b4c0e071832d527694adea57b50dd7b2164c2a47c02940dcf26fa07c44d6d222a",
    "move",
    "cmd 80010000000c0000017b0015",
    "move",
    "move",
];

// The same, from the greatest seed.
const OF_THE_GREATEST: [&str; 3] = [
    "cmd 80010000000c000001440000",
    "cmd 800200000041000001820000000a0000000940000009000001000000000001000bcd2662154e6d76b2b2b92e70c0cac3ccf534f9b74eb5b89819ec509083d00a50",
    "movefail 3",
];

#[test]
fn lines_of_seeds(rt: HostRuntime) -> Result<(), Fail> {
    let alloc = rt.alloc();
    let zero = "cmd 80010000000c000001440000";
    assert!(rt; are_lines(alloc, 1, 0, &[zero])?);
    assert!(rt; are_lines(alloc, 1, 1, &[zero, "cmd 80010000000c0000017b000d"])?);
    assert!(rt; are_lines(alloc, 7, 12, &OF_SEVEN)?);
    assert!(rt; are_lines(alloc, u64::MAX, 2, &OF_THE_GREATEST)?);
    Ok(())
}

// The summary of Startup and two moves.
fn summary_of_three(alloc: Global, printed: &mut Vec<u8>) -> Result<(), AllocError> {
    let command = Bytes::from_slice(alloc, b"\x80\x01\x00\x00\x00\x0c\x00\x00\x01\x44\x00\x00")?;
    let mut summary = Summary::new();
    summary.add(&DriveLine::Cmd(command), b"80010000000a00000000\n");
    summary.add(&DriveLine::Move, b"");
    summary.add(&DriveLine::MoveFail(1), b"");
    summary.print(alloc, printed)
}

#[test]
fn summaries(rt: HostRuntime) -> Result<(), Fail> {
    let mut printed = Vec::new(rt.alloc());
    summary_of_three(rt.alloc(), &mut printed)?;
    let wanted =
        b"commands 1 moves 2 sha256 df1a3de629b8f5a5d00ad4ac3116b3459a10c952b74405dd6e77630c43379838\n";
    assert!(rt; printed.as_slice() == wanted.as_slice());
    Ok(())
}
