//! The lines of the report.

ghost use Rattle.std.specs.Prelude.{◌≡◌, ◌≤◌, IfOk};
ghost use Rattle.std.specs.List.{flat_map};
ghost use Rattle.number_pools.specs.Lawful.{IsLawfulPools};
ghost use Rattle.pool_report.specs.Report.{IsLine, IsReport, kind_word as word_of_kind, report_line, run_text as text_of_run};
ghost use Rattle.span_set.specs.Runs.{AreApart};

use crate::free::free_set;
use number_pools::{NumberRange, PoolKind};
use pool_rows::PoolRows;
use span_set::{Run, count_between};
use std::alloc::{AllocError, Global};

/// What a line begins with.
fn kind_word(kind: PoolKind) -> &'static str
    ensures { result.now ≡ word_of_kind kind }
{
    match kind {
        PoolKind::Asn => "asn-range ",
        PoolKind::Vlan => "vlan-group ",
    }
}

/// A run after a space.
fn run_text(alloc: Global, run: &Run) -> Result<Vec<u8>, AllocError>
    ensures { IfOk result (λ v. v.items ≡ text_of_run run.now) }
{
    let mut text = Vec::new(alloc);
    text.push(b' ')?;
    text.extend_from_slice(run.first.to_string(alloc)?.as_bytes())?;
    if run.first == run.last {
        return Ok(text);
    }
    text.push(b'-')?;
    text.extend_from_slice(run.last.to_string(alloc)?.as_bytes())?;
    Ok(text)
}

/// Some runs, each after a space.
fn runs_text(alloc: Global, runs: &[Run]) -> Result<Vec<u8>, AllocError>
    ensures { IfOk result (λ v. v.items ≡ flat_map text_of_run runs.now) }
{
    let mut text = Vec::new(alloc);
    for run in runs {
        let own = run_text(alloc, run)?;
        text.extend_from_slice(&own)?;
    }
    Ok(text)
}

/// The line of a range whose free numbers have these runs.
fn line_with(alloc: Global, range: &NumberRange, runs: &[Run]) -> Result<Vec<u8>, AllocError>
    requires order { range.now.first ≤ range.now.last }
    requires apart { AreApart 0 runs.now }
    ensures { IfOk result (λ v. v.items ≡ report_line range.now runs.now) }
{
    let first = u128::from(range.first);
    let last = u128::from(range.last);
    let free = count_between(runs, first, last);
    let taken = last + 1 - first - free;
    let mut text = Vec::new(alloc);
    text.extend_from_slice(kind_word(range.kind).as_bytes())?;
    text.extend_from_slice(range.name.as_str().as_bytes())?;
    text.push(b' ')?;
    text.extend_from_slice(range.first.to_string(alloc)?.as_bytes())?;
    text.push(b'-')?;
    text.extend_from_slice(range.last.to_string(alloc)?.as_bytes())?;
    text.extend_from_slice(b": ")?;
    text.extend_from_slice(taken.to_string(alloc)?.as_bytes())?;
    text.extend_from_slice(b" taken, ")?;
    text.extend_from_slice(free.to_string(alloc)?.as_bytes())?;
    text.extend_from_slice(b" free:")?;
    text.extend_from_slice(&runs_text(alloc, runs)?)?;
    text.push(b'\n')?;
    Ok(text)
}

/// The line of a range.
fn line_of(alloc: Global, rows: &PoolRows, range: &NumberRange) -> Result<Vec<u8>, AllocError>
    requires order { range.now.first ≤ range.now.last }
    ensures { IfOk result (λ v. IsLine rows.now.pools range.now v.items) }
{
    let set = free_set(alloc, rows, range)?;
    line_with(alloc, range, set.runs())
}

/// The report of pools: a line for each range, with its bounds, how many of its numbers are taken and free, and the runs of the free ones. `Err`
/// means out of memory.
pub fn report_text(alloc: Global, rows: &PoolRows) -> Result<Vec<u8>, AllocError>
    requires { IsLawfulPools rows.now.pools }
    ensures { IfOk result (λ v. IsReport rows.now.pools v.items) }
{
    let mut text = Vec::new(alloc);
    'line: for range in rows.ranges() {
        let own = line_of(alloc, rows, range)?;
        text.extend_from_slice(&own)?;
    }
    Ok(text)
}
