//! Tests of the port between two threads: each call at each stage on one thread, a device over one end, and jobs between
//! two threads.
#![tactic(auto)]

#[cfg(test)]
mod device_over_end_tests;
#[cfg(test)]
mod one_thread_tests;
#[cfg(test)]
mod two_threads_tests;
