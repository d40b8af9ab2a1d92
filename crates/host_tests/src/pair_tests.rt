//! Two hosts with their wires, and a driver on the guest that runs at one of them.
use crb_driver::Driver;
use crb_port::PlainPort;
use move_core::Side;
use std::alloc::{AllocError, Global};
use std::process::Abort;
use std::test::*;
use tpm_core::{Banks, SEED_SIZE};
use vt_base::{BUFFER_LENGTH, HostName};
use vt_world::*;

// TPM2_Startup with TPM_SU_CLEAR, and its response.
const STARTUP: [u8; 12] = [0x80, 1, 0, 0, 0, 12, 0, 0, 1, 0x44, 0, 0];

const DONE: [u8; 10] = [0x80, 1, 0, 0, 0, 10, 0, 0, 0, 0];

fn is_as_made(rt: &impl Abort, pair: &Pair<PlainPort>) {
    assert_eq!(rt; pair.running(), Some(HostName::A));
    assert_eq!(rt; pair.host(HostName::A).side(), Side::Running);
    assert_eq!(rt; pair.host(HostName::B).side(), Side::Empty);
    assert_eq!(rt; pair.host(HostName::B).top(), 0);
    assert!(rt; pair.emulator(HostName::A).tpm().is_some());
    assert!(rt; pair.emulator(HostName::B).tpm().is_none());
}

#[test]
fn a_pair_lends_its_hosts_and_is_taken_apart(rt: HostRuntime) -> Result<(), Fail> {
    let pair = Pair::fresh(rt.alloc(), [0; SEED_SIZE], Banks::Two, 4096)?;
    is_as_made(&rt, &pair);
    let (a, b, wires_a, wires_b) = pair.into_parts();
    let again = Pair::new(a, b, wires_a, wires_b);
    is_as_made(&rt, &again);
    drop(again);
    Ok(())
}

#[test]
fn a_driver_does_a_command_on_a_pair(rt: HostRuntime) -> Result<(), Fail> {
    let mut pair = Pair::fresh(rt.alloc(), [0; SEED_SIZE], Banks::Two, 4096)?;
    let mut response = [0; BUFFER_LENGTH];
    let mut driver = Driver::new();
    let done = driver.call(&mut pair, &STARTUP, &mut response, 8);
    drop(pair);
    let Ok(count) = done else {
        return Err(Fail::from("the driver failed"));
    };
    assert!(rt; response[..count.min(BUFFER_LENGTH)] == DONE[..]);
    Ok(())
}
