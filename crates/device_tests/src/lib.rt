//! Tests of the guest's side: the ground, the registers, the port, the device, its record and the driver; and of the
//! ledger.
//!
//! They compare with values from outside, and make each public call once. What a clause says isn't tried again here.
#![tactic(auto)]

#[cfg(test)]
mod crb_driver_tests;
#[cfg(test)]
mod crb_machine_tests;
#[cfg(test)]
mod crb_port_tests;
#[cfg(test)]
mod crb_regs_tests;
#[cfg(test)]
mod device_record_tests;
#[cfg(test)]
mod own_store_tests;
#[cfg(test)]
mod vt_base_tests;
