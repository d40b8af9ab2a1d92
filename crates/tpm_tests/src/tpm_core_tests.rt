//! Values from outside: the tables were made by a program apart, from the table of commands alone.

use std::alloc::{AllocError, Global};
use std::test::*;
use tpm_core::*;
use tpm_more::execute_more;
use vt_base::Buf;

/// A start, an extend of register 0 by 32 zeros, and a read of it.
const FIRST_EXTEND: [(&str, &str); 3] = [
    ("80010000000c000001440000", "80010000000a00000000"),
    (
        "80020000004100000182000000000000000940000009000001000000000001000b\
         0000000000000000000000000000000000000000000000000000000000000000",
        "80020000001300000000000000000000010000",
    ),
    (
        "8001000000140000017e00000001000b03010000",
        "80010000003e000000000000000100000001000b030100000000000100\
         20f5a5fd42d16a20302798ef6ed309979b43003d2320d9f0e8ea9831a92759fb4b",
    ),
];

/// The same extend refused: of register 17, without an authorisation, and of register 24.
const REFUSED_EXTENDS: [(&str, &str); 4] = [
    ("80010000000c000001440000", "80010000000a00000000"),
    (
        "80020000004100000182000000110000000940000009000001000000000001000b\
         0000000000000000000000000000000000000000000000000000000000000000",
        "80010000000a00000907",
    ),
    (
        "80010000004100000182000000000000000940000009000001000000000001000b\
         0000000000000000000000000000000000000000000000000000000000000000",
        "80010000000a00000125",
    ),
    (
        "80020000004100000182000000180000000940000009000001000000000001000b\
         0000000000000000000000000000000000000000000000000000000000000000",
        "80010000000a00000184",
    ),
];

/// No random bytes draw none: the next are the first block of the first boot.
const FIRST_BLOCK: [(&str, &str); 3] = [
    ("80010000000c000001440000", "80010000000a00000000"),
    ("80010000000c0000017b0000", "80010000000c000000000000"),
    (
        "80010000000c0000017b0040",
        "80010000002c00000000002044b4c8f8aeb491cea32bd1abbe83ecd26657070d0140c80d7ea9183250b571fd",
    ),
];

/// A session with the seed 0, 1, .. 31, after power came on once.
const SESSION: [(&str, &str); 12] = [
    // digests are hashed on in their order
    ("80010000000c000001440000", "80010000000a00000000"),
    (
        "80020000008500000182000000030000000940000009000001000000000003000bca978112ca1bbd\
         cafac231b39a23dc4da786eff8147c4e72b9807785afee48bb000b3e23e8160039594a33894f6564\
         e1b1348bbd7a0088d42c4acb73eeaed59c009d000b2e7d2c03a9507ae265ecf5b5356885a53393a2\
         029d241394997265a1a25aefc6",
        "80020000001300000000000000000000010000",
    ),
    (
        "80020000006300000182000000170000000940000009000001000000000002000b2e7d2c03a9507a\
         e265ecf5b5356885a53393a2029d241394997265a1a25aefc6000bca978112ca1bbdcafac231b39a\
         23dc4da786eff8147c4e72b9807785afee48bb",
        "80020000001300000000000000000000010000",
    ),
    (
        "80020000004100000182400000070000000940000009000001000000000001000bca978112ca1bbd\
         cafac231b39a23dc4da786eff8147c4e72b9807785afee48bb",
        "80020000001300000000000000000000010000",
    ),
    (
        "80020000001f00000182000000050000000940000009000001000000000000",
        "80020000001300000000000000000000010000",
    ),
    // a register may stand in two selections
    (
        "80010000001a0000017e00000002000b03280080000b03080000",
        "8001000000aa000000000000000500000002000b03280080000b03080000000000040020202baab0\
         d9ef5820d6d9c8d82fb5c7a18bb9fa436d42bc0961ed55c3f3f36b17002000000000000000000000\
         000000000000000000000000000000000000000000000020ab830fbc47e99f50095609311685b4ad\
         4fbef3a45705df57f5e8d7a2e9bd75710020202baab0d9ef5820d6d9c8d82fb5c7a18bb9fa436d42\
         bc0961ed55c3f3f36b17",
    ),
    // the bits of registers past the eighth are cleared
    (
        "8001000000260000017e00000004000b03090702000b03000000000b030000e1000b03080000",
        "80010000013e000000000000000500000004000b03090702000b03000000000b03000021000b0300\
         00000000000800200000000000000000000000000000000000000000000000000000000000000000\
         0020202baab0d9ef5820d6d9c8d82fb5c7a18bb9fa436d42bc0961ed55c3f3f36b17002000000000\
         00000000000000000000000000000000000000000000000000000000002000000000000000000000\
         00000000000000000000000000000000000000000000002000000000000000000000000000000000\
         000000000000000000000000000000000020ffffffffffffffffffffffffffffffffffffffffffff\
         ffffffffffffffffffff002000000000000000000000000000000000000000000000000000000000\
         000000000020ffffffffffffffffffffffffffffffffffffffffffffffffffffffffffffffff",
    ),
    // blocks of another seed, whole and in part
    (
        "80010000000c0000017b0020",
        "80010000002c000000000020b9fcfd4c89b400aa21a75f9fbaa968a4a531fbb1886c5e259f04cac1\
         b19c120c",
    ),
    (
        "80010000000c0000017b0005",
        "80010000001100000000000510493de41a",
    ),
    ("80010000000c0000017b0000", "80010000000c000000000000"),
    (
        "80010000000c0000017b0064",
        "80010000002c000000000020f4502bf63602445c91518f6d4da3b577b11a4548daa8975cfdb1973c\
         000a8774",
    ),
    // no digest, no count
    (
        "80010000000e0000017e00000000",
        "80010000001600000000000000050000000000000000",
    ),
];

/// What is refused before a start, in the order of the checks.
const REFUSED_BEFORE_START: [(&str, &str); 14] = [
    // the header is cut
    ("80010000000a000001", "80010000000a00000142"),
    // the tag isn't that of a command, whatever the size field says
    ("80030000000b00000144", "00c40000000a0000001e"),
    // the size field isn't the length, whatever the code is
    ("80010000000b000001460000", "80010000000a00000142"),
    ("80010000000d000001440000", "80010000000a00000142"),
    // the command isn't known, and the TPM isn't started
    ("80010000000a00000146", "80010000000a00000143"),
    // the TPM isn't started, whatever the tag is
    ("80020000000c0000017b0000", "80010000000a00000100"),
    ("80010000000c000001450001", "80010000000a00000100"),
    (
        "80020000004100000182000000000000000940000009000001000000000001000bca978112ca1bbd\
         cafac231b39a23dc4da786eff8147c4e72b9807785afee48bb",
        "80010000000a00000100",
    ),
    (
        "8001000000140000017e00000001000b03010000",
        "80010000000a00000100",
    ),
    // no state was saved
    ("80010000000c000001440001", "80010000000a000001c4"),
    ("80010000000c000001440002", "80010000000a000001c4"),
    // the type of start is cut
    ("80010000000b0000014400", "80010000000a000001da"),
    // bytes are left over
    ("80010000000d00000144000000", "80010000000a000001d5"),
    // a start has no authorisation
    ("80020000000c000001440000", "80010000000a00000145"),
];

/// What is refused after a start, in the order of the checks.
const REFUSED_AFTER_START: [(&str, &str); 36] = [
    // a second start, whatever its tag is
    ("80020000000c000001440000", "80010000000a00000100"),
    // an extend without an authorisation, whatever its handle is
    ("80010000000d00000182000000", "80010000000a00000125"),
    // an authorisation that isn't wanted, whatever stands in it
    ("80020000000a0000017b", "80010000000a00000145"),
    ("80020000000a0000017e", "80010000000a00000145"),
    ("80020000000c000001450001", "80010000000a00000145"),
    // the handle is cut
    ("80020000000d00000182000000", "80010000000a0000019a"),
    // the handle names no register, and the authorisation is cut
    ("80020000000e0000018200000018", "80010000000a00000184"),
    ("80020000000e0000018240000008", "80010000000a00000184"),
    // the authorisation: its size is cut, below nine, above what is left
    ("8002000000110000018200000000000000", "80010000000a00000144"),
    (
        "80020000001b000001820000000000000008400000080000010000",
        "80010000000a00000144",
    ),
    (
        "80020000001b00000182000000000000000a400000080000010000",
        "80010000000a00000144",
    ),
    // another session, and a nonce
    (
        "80020000001b000001820000000000000009400000080001010000",
        "80010000000a00000984",
    ),
    // a nonce, and a password
    (
        "80020000001c00000182000000000000000a40000009000101000100",
        "80010000000a00000144",
    ),
    // the password's size doesn't fit
    (
        "80020000001c00000182000000000000000a40000009000001000000",
        "80010000000a00000144",
    ),
    // a password, and too many digests
    (
        "80020000002000000182000000000000000a4000000900000100010000000011",
        "80010000000a000009a2",
    ),
    // any attributes will do: the next check fails
    (
        "80020000001e0000018200000000000000094000000900009d0000000000",
        "80010000000a000001da",
    ),
    // the count is above sixteen, and no digest is there
    (
        "80020000001f00000182000000000000000940000009000001000000000011",
        "80010000000a000001d5",
    ),
    // the algorithm is cut, unknown, without its digest
    (
        "8002000000200000018200000000000000094000000900000100000000000100",
        "80010000000a000001da",
    ),
    (
        "80020000002400000182000000110000000940000009000001000000000001000cca9781",
        "80010000000a000001c3",
    ),
    (
        "80020000004000000182000000000000000940000009000001000000000001000bca978112ca1bbd\
         cafac231b39a23dc4da786eff8147c4e72b9807785afee48",
        "80010000000a000001da",
    ),
    // bytes are left over, and the register is closed
    (
        "80020000004200000182000000110000000940000009000001000000000001000bca978112ca1bbd\
         cafac231b39a23dc4da786eff8147c4e72b9807785afee48bb00",
        "80010000000a000001d5",
    ),
    // the register is closed
    (
        "80020000004100000182000000110000000940000009000001000000000001000bca978112ca1bbd\
         cafac231b39a23dc4da786eff8147c4e72b9807785afee48bb",
        "80010000000a00000907",
    ),
    (
        "80020000001f00000182000000160000000940000009000001000000000000",
        "80010000000a00000907",
    ),
    // a read: its count is cut, above sixteen
    ("80010000000d0000017e000000", "80010000000a000001da"),
    ("80010000000e0000017e00000011", "80010000000a000001d5"),
    // the algorithm is cut, unknown
    ("80010000000f0000017e0000000100", "80010000000a000001da"),
    ("8001000000110000017e00000001000c04", "80010000000a000001c3"),
    // the map's length is cut, wrong; the map is cut
    ("8001000000100000017e00000001000b", "80010000000a000001da"),
    ("8001000000110000017e00000001000b04", "80010000000a000001c4"),
    (
        "8001000000130000017e00000001000b030100",
        "80010000000a000001da",
    ),
    // bytes are left over
    (
        "8001000000150000017e00000001000b0301000000",
        "80010000000a000001d5",
    ),
    // random bytes: the size is cut, bytes are left over
    ("80010000000b0000017b00", "80010000000a000001da"),
    ("80010000000d0000017b000100", "80010000000a000001d5"),
    // a shutdown of no known type
    ("80010000000c000001450002", "80010000000a000001c4"),
    // nothing of this was done
    (
        "8001000000140000017e00000001000b03010002",
        "800100000060000000000000000000000001000b0301000200000002002000000000000000000000\
         000000000000000000000000000000000000000000000020ffffffffffffffffffffffffffffffff\
         ffffffffffffffffffffffffffffffff",
    ),
    ("80010000000c0000017b0001", "80010000000d00000000000144"),
];

/// Registers are extended, and a shutdown keeps the first sixteen.
const KEPT: [(&str, &str); 7] = [
    ("80010000000c000001440000", "80010000000a00000000"),
    (
        "80020000004100000182000000000000000940000009000001000000000001000bca978112ca1bbd\
         cafac231b39a23dc4da786eff8147c4e72b9807785afee48bb",
        "80020000001300000000000000000000010000",
    ),
    (
        "800200000041000001820000000f0000000940000009000001000000000001000b3e23e816003959\
         4a33894f6564e1b1348bbd7a0088d42c4acb73eeaed59c009d",
        "80020000001300000000000000000000010000",
    ),
    (
        "80020000004100000182000000100000000940000009000001000000000001000b2e7d2c03a9507a\
         e265ecf5b5356885a53393a2029d241394997265a1a25aefc6",
        "80020000001300000000000000000000010000",
    ),
    (
        "80020000006300000182000000170000000940000009000001000000000002000bca978112ca1bbd\
         cafac231b39a23dc4da786eff8147c4e72b9807785afee48bb000b3e23e8160039594a33894f6564\
         e1b1348bbd7a0088d42c4acb73eeaed59c009d",
        "80020000001300000000000000000000010000",
    ),
    ("80010000000c0000017b0001", "80010000000d00000000000144"),
    ("80010000000c000001450001", "80010000000a00000000"),
];

/// After power came on again.
const RESTORED: [(&str, &str); 6] = [
    // 0 and 15 are brought back, 16 and 23 are zeros, 17 to 22 have each bit set; draws begin anew
    ("80010000000c000001440001", "80010000000a00000000"),
    (
        "8001000000140000017e00000001000b030180c3",
        "8001000000e8000000000000000500000001000b030180c30000000600208c374a53782642f7514d\
         087d26a3e733f1b806009a03e04a43b288ef2fa9f9c000201b36018e878c666b4b6cfb4528e2c1a8\
         a6d84980446aad049ad5f02c464fe995002000000000000000000000000000000000000000000000\
         000000000000000000000020ffffffffffffffffffffffffffffffffffffffffffffffffffffffff\
         ffffffff0020ffffffffffffffffffffffffffffffffffffffffffffffffffffffffffffffff0020\
         0000000000000000000000000000000000000000000000000000000000000000",
    ),
    (
        "80010000000c0000017b0004",
        "8001000000100000000000044e90b73f",
    ),
    // the state was brought back once
    ("80010000000c000001450001", "80010000000a00000000"),
    (
        "80020000004100000182000000100000000940000009000001000000000001000bca978112ca1bbd\
         cafac231b39a23dc4da786eff8147c4e72b9807785afee48bb",
        "80020000001300000000000000000000010000",
    ),
    // an extend makes what was kept stale
    (
        "8001000000140000017e00000001000b03000001",
        "80010000003e000000000000000600000001000b030000010000000100208c374a53782642f7514d\
         087d26a3e733f1b806009a03e04a43b288ef2fa9f9c0",
    ),
];

/// Power again: nothing is there to be brought back.
const STALE: [(&str, &str); 4] = [
    ("80010000000c000001440001", "80010000000a000001c4"),
    ("80010000000c000001440000", "80010000000a00000000"),
    ("80010000000c000001450001", "80010000000a00000000"),
    // a shutdown that clears forgets what was kept
    ("80010000000c000001450000", "80010000000a00000000"),
];

/// Power again.
const FORGOTTEN: [(&str, &str); 3] = [
    ("80010000000c000001440001", "80010000000a000001c4"),
    ("80010000000c000001440000", "80010000000a00000000"),
    ("80010000000c000001450001", "80010000000a00000000"),
];

/// Power again.
const CLEARED: [(&str, &str); 1] = [
    // a start that clears forgets what was kept
    ("80010000000c000001440000", "80010000000a00000000"),
];

/// Power again.
const GONE: [(&str, &str); 1] = [("80010000000c000001440001", "80010000000a000001c4")];

/// A TPM with two banks: an extend of register 0 by 48 zeros, and a read of it.
const FIRST_OF_TWO: [(&str, &str); 3] = [
    ("80010000000c000001440000", "80010000000a00000000"),
    (
        "80020000005100000182000000000000000940000009000001000000000001000c00000000000000\
         00000000000000000000000000000000000000000000000000000000000000000000000000000000\
         00",
        "80020000001300000000000000000000010000",
    ),
    (
        "8001000000140000017e00000001000c03010000",
        "80010000004e000000000000000100000001000c03010000000000010030f57bb7ed82c6ae4a29e6\
         c9879338c592c7d42a39135583e8ccbe3940f2344b0eb6eb8503db0ffd6a39ddd00cd07d8317",
    ),
];

/// The same to a TPM with one bank: the algorithm is unknown.
const FIRST_OF_ONE: [(&str, &str); 3] = [
    ("80010000000c000001440000", "80010000000a00000000"),
    (
        "80020000005100000182000000000000000940000009000001000000000001000c00000000000000\
         00000000000000000000000000000000000000000000000000000000000000000000000000000000\
         00",
        "80010000000a000001c3",
    ),
    (
        "8001000000140000017e00000001000c03010000",
        "80010000000a000001c3",
    ),
];

/// Both banks are extended, read and kept.
const BOTH: [(&str, &str); 6] = [
    ("80010000000c000001440000", "80010000000a00000000"),
    // each digest goes into the bank of its algorithm, and each is counted
    (
        "8002000000a500000182000000030000000940000009000001000000000003000bca978112ca1bbd\
         cafac231b39a23dc4da786eff8147c4e72b9807785afee48bb000c54a59b9f22b0b80880d8427e54\
         8b7c23abd873486e1f035dce9cd697e85175033caa88e6d57bc35efae0b5afd3145f31000c98a906\
         182cdcfb1eb4eb47117600f68958e2ddd140248b47984f4bde6587b89c8215c3da895a336e94ad1a\
         ca39015c40",
        "80020000001300000000000000000000010000",
    ),
    (
        "80010000001a0000017e00000002000c03080000000b03080000",
        "800100000076000000000000000300000002000c03080000000b03080000000000020030941baacd\
         1efc683b7bb6335428caa38156c9ebaf035df192fe8c89056f247fba20f0576d54c94ef52bdfd156\
         ccbd67a300208c374a53782642f7514d087d26a3e733f1b806009a03e04a43b288ef2fa9f9c0",
    ),
    // eight digests are read of both banks together
    (
        "80010000001a0000017e00000002000c03ff0000000b03080000",
        "8001000001b2000000000000000300000002000c03ff0000000b0300000000000008003000000000\
         00000000000000000000000000000000000000000000000000000000000000000000000000000000\
         00000000003000000000000000000000000000000000000000000000000000000000000000000000\
         00000000000000000000000000000030000000000000000000000000000000000000000000000000\
         0000000000000000000000000000000000000000000000000030941baacd1efc683b7bb6335428ca\
         a38156c9ebaf035df192fe8c89056f247fba20f0576d54c94ef52bdfd156ccbd67a3003000000000\
         00000000000000000000000000000000000000000000000000000000000000000000000000000000\
         00000000003000000000000000000000000000000000000000000000000000000000000000000000\
         00000000000000000000000000000030000000000000000000000000000000000000000000000000\
         00000000000000000000000000000000000000000000000000300000000000000000000000000000\
         00000000000000000000000000000000000000000000000000000000000000000000",
    ),
    // 17 to 22 have each bit set
    (
        "80010000001a0000017e00000002000b03000602000c0300007f",
        "800100000182000000000000000300000002000b03000602000c0300001f00000008002000000000\
         00000000000000000000000000000000000000000000000000000000002000000000000000000000\
         000000000000000000000000000000000000000000000020ffffffffffffffffffffffffffffffff\
         ffffffffffffffffffffffffffffffff003000000000000000000000000000000000000000000000\
         00000000000000000000000000000000000000000000000000000030ffffffffffffffffffffffff\
         ffffffffffffffffffffffffffffffffffffffffffffffffffffffffffffffffffffffff0030ffff\
         ffffffffffffffffffffffffffffffffffffffffffffffffffffffffffffffffffffffffffffffff\
         ffffffffffff0030ffffffffffffffffffffffffffffffffffffffffffffffffffffffffffffffff\
         ffffffffffffffffffffffffffffffff0030ffffffffffffffffffffffffffffffffffffffffffff\
         ffffffffffffffffffffffffffffffffffffffffffffffffffff",
    ),
    ("80010000000c000001450001", "80010000000a00000000"),
];

/// After power came on again.
const BOTH_RESTORED: [(&str, &str); 5] = [
    ("80010000000c000001440001", "80010000000a00000000"),
    (
        "80010000001a0000017e00000002000b03080000000c03080001",
        "8001000000a8000000000000000300000002000b03080000000c030800010000000300208c374a53\
         782642f7514d087d26a3e733f1b806009a03e04a43b288ef2fa9f9c00030941baacd1efc683b7bb6\
         335428caa38156c9ebaf035df192fe8c89056f247fba20f0576d54c94ef52bdfd156ccbd67a30030\
         00000000000000000000000000000000000000000000000000000000000000000000000000000000\
         0000000000000000",
    ),
    (
        "8001000000140000017e00000001000c03000040",
        "80010000004e000000000000000300000001000c03000040000000010030ffffffffffffffffffff\
         ffffffffffffffffffffffffffffffffffffffffffffffffffffffffffffffffffffffffffff",
    ),
    ("80010000000c000001450001", "80010000000a00000000"),
    // an extend of one bank alone makes what was kept stale
    (
        "80020000005100000182000000100000000940000009000001000000000001000c54a59b9f22b0b8\
         0880d8427e548b7c23abd873486e1f035dce9cd697e85175033caa88e6d57bc35efae0b5afd3145f\
         31",
        "80020000001300000000000000000000010000",
    ),
];

/// Power again: nothing is there to be brought back.
const BOTH_STALE: [(&str, &str); 1] = [("80010000000c000001440001", "80010000000a000001c4")];

/// A TPM with a seed of zeros that power came to once.
pub(crate) fn powered(banks: Banks) -> Tpm {
    let mut tpm = Tpm::manufacture([0; 32], banks);
    tpm.power_on();
    tpm
}

/// Whether the TPM answers a command so.
fn answers(alloc: Global, tpm: &mut Tpm, into: &mut Buf, command: &str, response: &str) -> bool {
    let Ok(command) = hex::decode(alloc, command) else {
        return false;
    };
    let Ok(response) = hex::decode(alloc, response) else {
        return false;
    };
    let size = execute_more(tpm, &command, into);
    into.bytes().get(..size) == Some(response.as_slice())
}

/// The first command of a table that the TPM answers otherwise.
pub(crate) fn wrong<'a>(
    alloc: Global,
    tpm: &mut Tpm,
    table: &[(&'a str, &'a str)],
) -> Result<Option<&'a str>, AllocError> {
    let mut into = Buf::new(alloc)?;
    for (command, response) in table {
        if !answers(alloc, tpm, &mut into, command, response) {
            return Ok(Some(*command));
        }
    }
    Ok(None)
}

/// The first command of tables, one after another, that the TPM answers otherwise.
fn wrong_in_turn<'a>(
    alloc: Global,
    tpm: &mut Tpm,
    tables: &[&[(&'a str, &'a str)]],
) -> Result<Option<&'a str>, AllocError> {
    for table in tables {
        let wrong = wrong(alloc, tpm, table)?;
        if wrong.is_some() {
            return Ok(wrong);
        }
    }
    Ok(None)
}

/// What TPMs that power came to once answer.
const FIRST: [&[(&str, &str)]; 3] = [&FIRST_EXTEND, &REFUSED_EXTENDS, &FIRST_BLOCK];

#[test]
fn first_commands(rt: HostRuntime) -> Result<(), Fail> {
    for table in FIRST {
        for banks in [Banks::One, Banks::Two] {
            let mut tpm = powered(banks);
            assert_eq!(rt; wrong(rt.alloc(), &mut tpm, table)?, None);
        }
    }
    Ok(())
}

#[test]
fn a_session_of_commands_has_the_expected_responses(rt: HostRuntime) -> Result<(), Fail> {
    let mut seed = [0; 32];
    for i in 0..32 {
        seed[i] = i as u8;
    }
    let mut tpm = Tpm::manufacture(seed, Banks::Two);
    tpm.power_on();
    assert_eq!(rt; wrong(rt.alloc(), &mut tpm, &SESSION)?, None);
    Ok(())
}

#[test]
fn each_malformed_command_has_its_response_code(rt: HostRuntime) -> Result<(), Fail> {
    let mut tpm = powered(Banks::One);
    let tables: [&[(&str, &str)]; 3] = [
        &REFUSED_BEFORE_START,
        &FIRST_BLOCK[..1],
        &REFUSED_AFTER_START,
    ];
    assert_eq!(rt; wrong_in_turn(rt.alloc(), &mut tpm, &tables)?, None);
    Ok(())
}

/// A TPM made of the values of another.
fn made_of(tpm: &Tpm) -> Tpm {
    let parts = tpm.parts();
    Tpm::of_parts(TpmParts {
        seed: parts.seed,
        banks: parts.banks,
        boots: parts.boots,
        draws: parts.draws,
        started: parts.started,
        pcr: parts.pcr,
        pcr384: parts.pcr384,
        counter: parts.counter,
        saved: parts.saved,
    })
}

/// What a TPM answers each time that power comes again.
const TIMES: [&[(&str, &str)]; 5] = [&RESTORED, &STALE, &FORGOTTEN, &CLEARED, &GONE];

#[test]
fn a_saved_state_is_restored_by_startup_state(rt: HostRuntime) -> Result<(), Fail> {
    let mut tpm = powered(Banks::Two);
    assert_eq!(rt; wrong(rt.alloc(), &mut tpm, &KEPT)?, None);
    let mut tpm = made_of(&tpm);
    for table in TIMES {
        tpm.power_on();
        assert_eq!(rt; wrong(rt.alloc(), &mut tpm, table)?, None);
    }
    Ok(())
}

#[test]
fn a_second_bank_is_there_where_it_was_made(rt: HostRuntime) -> Result<(), Fail> {
    let mut tpm = powered(Banks::One);
    assert_eq!(rt; wrong(rt.alloc(), &mut tpm, &FIRST_OF_ONE)?, None);
    let mut tpm = powered(Banks::Two);
    assert_eq!(rt; wrong(rt.alloc(), &mut tpm, &FIRST_OF_TWO)?, None);
    Ok(())
}

#[test]
fn both_banks_are_extended_read_and_kept(rt: HostRuntime) -> Result<(), Fail> {
    let mut tpm = powered(Banks::Two);
    assert_eq!(rt; wrong(rt.alloc(), &mut tpm, &BOTH)?, None);
    let mut tpm = made_of(&tpm);
    tpm.power_on();
    assert_eq!(rt; wrong(rt.alloc(), &mut tpm, &BOTH_RESTORED)?, None);
    tpm.power_on();
    assert_eq!(rt; wrong(rt.alloc(), &mut tpm, &BOTH_STALE)?, None);
    Ok(())
}

#[test]
fn a_seed_is_not_shown(rt: HostRuntime) -> Result<(), Fail> {
    let tpm = Tpm::manufacture([7; SEED_SIZE], Banks::Two);
    let parts = tpm.parts();
    let text = "TpmParts { boots: 0, draws: 0, started: false, counter: 0, saved: false, .. }";
    assert_eq!(rt; format!(in rt.alloc(); "{parts:?}")?.as_str(), text);
    Ok(())
}
