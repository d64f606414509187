//! The command `report`.

ghost use Rattle.std.specs.Prelude.{◌≡◌, ◌≤◌, Some, IfOk, IfErr};
ghost use Rattle.ipam_report.specs.Reports.{tree_text as tree_lines, table_text as table_lines, free_text as free_lines};
ghost use Rattle.command_streams.specs.Streams.{Told, streams, told};
ghost use Rattle.command_store.specs.Outside.{outside, stores};
ghost use Rattle.command_files.specs.Report.{IsReport, IsReportStop, IsReportStopSaid, report_text as text_of};

use crate::calls::{ReportStop, first_free, survey_lines};
use crate::files::say_refusal;
use command_store::{open_store, say_fault};
use command_streams::{DONE, MEMORY, REFUSED, end_with};
use command_words::{Report, Store};
use ipam_data::replies::Blocks;
use ipam_data::survey::PrefixLines;
use ipam_edge::Sink;
use ipam_keeper::keeper::{Keeper, KeeperOpener};
use ipam_report::{free, table, tree};
use register_core::Register;
use std::alloc::{AllocError, Global};

/// The tree of prefixes.
fn tree_text(alloc: Global, lines: &PrefixLines) -> Result<Vec<u8>, AllocError>
    ensures { IfOk result (λ v. v.items ≡ tree_lines lines.now) }
{
    let mut text = Vec::new(alloc);
    tree(alloc, lines.as_slice(), &mut text)?;
    Ok(text)
}

/// The table of prefixes' utilisation.
fn table_text(alloc: Global, lines: &PrefixLines) -> Result<Vec<u8>, AllocError>
    ensures { IfOk result (λ v. v.items ≡ table_lines lines.now) }
{
    let mut text = Vec::new(alloc);
    table(alloc, lines.as_slice(), &mut text)?;
    Ok(text)
}

/// Blocks with the numbers of their addresses.
fn free_text(alloc: Global, blocks: &Blocks) -> Result<Vec<u8>, AllocError>
    ensures { IfOk result (λ v. v.items ≡ free_lines blocks.now) }
{
    let mut text = Vec::new(alloc);
    free(alloc, blocks.as_slice(), &mut text)?;
    Ok(text)
}

/// The text of a report.
fn report_text<K: Keeper>(
    alloc: Global,
    register: &mut Register<K>,
    report: Report,
) -> Result<Vec<u8>, ReportStop>
    ensures ok { IfOk result (λ v. text_of register.old.state report ≡ Some v.items) }
    ensures stop { IfErr result (IsReportStop register.old.state report) }
    ensures told { K.told register.new.keeper ≡ K.told register.old.keeper }
    ensures still { K.faults register.new.keeper ≡ K.faults register.old.keeper }
{
    match report {
        Report::Tree => {
            let lines = survey_lines(register)?;
            Ok(tree_text(alloc, &lines)?)
        }
        Report::Utilization => {
            let lines = survey_lines(register)?;
            Ok(table_text(alloc, &lines)?)
        }
        Report::Free(id) => {
            let blocks = first_free(register, id)?;
            Ok(free_text(alloc, &blocks)?)
        }
    }
}

/// Says why a report has no text, and gives the status of that.
fn say_stop<Se: Sink>(alloc: Global, stop: &ReportStop, errors: &mut Se) -> u8
    ensures said { IsReportStopSaid stop.now (told Se.written Se.faults errors.old) (told Se.written Se.faults errors.new) result }
    ensures later { Se.faults errors.old ≤ Se.faults errors.new }
{
    match stop {
        ReportStop::Absent(refusal) => say_refusal(alloc, refusal, REFUSED, errors),
        ReportStop::Memory => MEMORY,
    }
}

/// Runs `report`: a text about the prefixes of the register of the store, which stays as it is.
pub fn run_report<Si: Sink, Se: Sink, O: KeeperOpener>(
    alloc: Global,
    report: Report,
    store: &Store,
    output: &mut Si,
    errors: &mut Se,
    opener: &mut O,
) -> u8
    ensures { (input : Told) → IsReport report store.now
        (outside (streams input (told Si.written Si.faults output.old) (told Se.written Se.faults errors.old)) (stores O.stored O.faults opener.old))
        (outside (streams input (told Si.written Si.faults output.new) (told Se.written Se.faults errors.new)) (stores O.stored O.faults opener.new)) result }
{
    match open_store(alloc, store, opener) {
        Ok(register) => {
            let mut register = register;
            let text = report_text(alloc, &mut register, report);
            opener.done(register.into_keeper());
            match text {
                Ok(text) => end_with(output, text.as_slice(), DONE),
                Err(stop) => say_stop(alloc, &stop, errors),
            }
        }
        Err(fault) => say_fault(alloc, &fault, errors),
    }
}
