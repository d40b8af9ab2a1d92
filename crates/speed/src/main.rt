//! Times single layers, for `bench/run`: `extends N` and `hashes N` the TPM alone, with and without it; `whole N`, `bytes N`
//! and `copies N` the reader of control requests, with and without it.
#![tactic(auto)]

mod extends;
mod requests;

use extends::{extended, hashed};
use requests::{Carried, copy, read_bytes, read_whole};
use std::alloc::Global;
use std::process::ExitCode;

// What a job of so many turns prints; `None` comes where no job has this word.
fn report(alloc: Global, job: &str, count: u32) -> std::io::Result<Option<String>> {
    Ok(Some(match job {
        "extends" => hex::encode(alloc, &extended(alloc, count)?)?,
        "hashes" => hex::encode(alloc, &hashed(count))?,
        "whole" => carried(alloc, read_whole(alloc, count)?)?,
        "bytes" => carried(alloc, read_bytes(alloc, count)?)?,
        "copies" => carried(alloc, copy(count))?,
        _ => return Ok(None),
    }))
}

fn carried(alloc: Global, what: Carried) -> std::io::Result<String> {
    let Carried { messages, sum } = what;
    Ok(format!(in alloc; "{messages} {sum}")?)
}

fn main(rt: HostRuntime) -> std::io::Result<ExitCode> {
    let alloc = rt.alloc();
    let mut words = Vec::new(alloc);
    for word in std::env::args(&rt)?.skip(1) {
        words.push(word)?;
    }
    let [job, count] = words.as_slice() else {
        return Ok(ExitCode::from(2));
    };
    let Ok(count) = count.parse::<u32>() else {
        return Ok(ExitCode::from(2));
    };
    match report(alloc, job.as_str(), count)? {
        Some(text) => {
            println!(rt; "{text}")?;
            Ok(ExitCode::from(0))
        }
        None => Ok(ExitCode::from(2)),
    }
}
