ghost use Rattle.std.specs.Prelude.{◌≡◌, false};

use crb_machine::Device;
use crb_port::{Answer, Outcome, WorkPort};
use crb_regs::Access;
use crb_shared::{GuestEnd, SharedPort};
use std::alloc::{AllocError, Global};
use std::test::Fail;

const LOC_CTRL: u32 = 0x08;

const CTRL_REQ: u32 = 0x40;

const CTRL_START: u32 = 0x4c;

const BUFFER: u32 = 0x80;

fn write(device: &mut Device<GuestEnd>, offset: u32, value: u64)
    requires runs { device.old.held ≡ false }
    ensures runs { device.new.held ≡ false }
{
    if let Some(access) = Access::new(offset, 4, Some(value)) {
        device.write(&access);
    }
}

fn start_is(device: &mut Device<GuestEnd>) -> Option<u64>
    requires runs { device.old.held ≡ false }
    ensures runs { device.new.held ≡ false }
{
    match Access::new(CTRL_START, 4, None) {
        Some(access) => Some(device.read(&access)),
        None => None,
    }
}

// CTRL_START while a command waits, once it is claimed, and once it is answered.
fn starts(alloc: Global) -> Result<[Option<u64>; 3], AllocError> {
    let (guest, mut worker) = SharedPort::new(alloc)?.ends();
    let mut device = Device::new(alloc, guest)?;
    write(&mut device, LOC_CTRL, 1);
    write(&mut device, CTRL_REQ, 1);
    write(&mut device, BUFFER, 0x180);
    write(&mut device, CTRL_START, 1);
    let waiting = start_is(&mut device);
    let job = worker.claim();
    let claimed = start_is(&mut device);
    if let Some(job) = job {
        worker.post(Answer {
            number: job.number,
            outcome: Outcome::Done,
            buf: job.buf,
        });
    }
    Ok([waiting, claimed, start_is(&mut device)])
}

#[test]
fn a_device_shows_when_its_command_ends(rt: HostRuntime) -> Result<(), Fail> {
    assert_eq!(rt; starts(rt.alloc())?, [Some(1), Some(1), Some(0)]);
    Ok(())
}
