//! Runs of scripts over sources and sinks in memory, with calls and moves that fail. What a clause of `run` says isn't tried again
//! here: the expected bytes come from outside.
#![tactic(auto)]

#[cfg(test)]
mod moves;
#[cfg(test)]
mod script_run_tests;
