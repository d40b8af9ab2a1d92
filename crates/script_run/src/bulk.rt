//! The command `bulk`: lines that are made one at a time are done, and a summary of them is written.
ghost use Rattle.std.specs.Prelude.{◌≡◌, ◌≤◌, ◌++◌, [], length, OnOk};
ghost use Rattle.bulk_lines.specs.Summaries.{IsSummaryOf, command_count, move_count};
ghost use Rattle.script_run.specs.Bulk.{bulk_summary, summary_of};
ghost use Rattle.script_run.specs.Driven.{driven};
ghost use Rattle.script_run.specs.Ends.{BulkEnd};
ghost use Rattle.script_run.specs.Calls.{HasDriven};
ghost use Rattle.script_run.specs.Output.{seen, FinishesAlone};
ghost use Rattle.script_run.specs.Run.{latest_first};
ghost use Rattle.script_run.specs.Start.{base_of, default_start};

use crate::drive::respond;
use crate::ran::{End, Ran};
use crate::start::Start;
use bulk_lines::{BulkLines, Summary};
use crb_port::PlainPort;
use line_loop::write_and_end;
use std::alloc::{AllocError, Global};
use vt_base::{Sink, Status};
use vt_world::Pair;

/// Does the lines that are drawn from a seed as `drive` does them on two new hosts, and writes their summary.
pub fn bulk<K: Sink>(alloc: Global, seed: u64, count: u32, sink: &mut K) -> Ran
    requires { count ≤ 100000 }
    ensures writes { FinishesAlone Status.Ok (bulk_summary seed count) result.status (seen (K.written sink.old) (K.room sink.old) (K.faults sink.old))
        (seen (K.written sink.new) (K.room sink.new) (K.faults sink.new)) }
    ensures hands_out { BulkEnd seed count result.status result.end }
{
    let Ok(mut pair) = Start::without_options().pair(alloc) else {
        return Ran {
            status: Status::Memory,
            end: End::Nothing,
        };
    };
    let mut text = Vec::new(alloc);
    let summed = sum_up(alloc, BulkLines::new(seed, count), &mut pair, &mut text);
    let Ok(()) = summed else {
        return Ran::on_hosts(Status::Memory, End::Pair(pair));
    };
    let status = write_and_end(sink, &[], &text, Status::Ok);
    Ran::on_hosts(status, End::Pair(pair))
}

// Does the lines, and appends the text of their summary.
fn sum_up(
    alloc: Global,
    lines: BulkLines,
    pair: &mut Pair<PlainPort>,
    into: &mut Vec<u8>,
) -> Result<(), AllocError>
    requires within_limit { length lines ≤ 100001 }
    requires first { HasDriven default_start [] pair.old }
    ensures text { OnOk result (into.new.items ≡ into.old.items ++ summary_of (latest_first lines)) }
    ensures driven { OnOk result (HasDriven default_start (latest_first lines) pair.new) }
{
    let mut summary = Summary::new();
    do_lines(alloc, lines, pair, &mut summary)?;
    summary.print(alloc, into)
}

// Does the lines, and takes each into the summary with its output.
fn do_lines(
    alloc: Global,
    mut lines: BulkLines,
    pair: &mut Pair<PlainPort>,
    summary: &mut Summary,
) -> Result<(), AllocError>
    requires within_limit { length lines ≤ 100001 }
    requires first { HasDriven default_start [] pair.old }
    requires empty { IsSummaryOf summary.old 0 0 [] }
    ensures summed { OnOk result (IsSummaryOf summary.new (command_count (latest_first lines)) (move_count (latest_first lines)) (driven (base_of default_start).tpm (latest_first lines))) }
    ensures driven { OnOk result (HasDriven default_start (latest_first lines) pair.new) }
{
    while let Some(line) = lines.next(alloc)? {
        let mut output = Vec::new(alloc);
        respond(alloc, pair, &line, &mut output)?;
        summary.add(&line, &output);
    }
    Ok(())
}
