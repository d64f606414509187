//! The commands that print a text of pools: `export` and `report`.

ghost use Rattle.std.specs.Prelude.{◌≡◌, ◌≤◌, ◌⊎◌, ℕ, List, IfOk};
ghost use Rattle.command_streams.specs.Streams.{EndsWith, Told, streams, told};
ghost use Rattle.machine_command.specs.Outside.{outside, stores};
ghost use Rattle.number_pools.specs.Lawful.{IsLawfulPools};
ghost use Rattle.pool_texts.specs.Print.{IsListing, IsPrint, sheet_text as text_of_sheet};

use crate::loading::load_pools;
use command_streams::{DONE, MEMORY, end_with};
use ipam_edge::Sink;
use number_pools::PoolKind;
use pool_csv::{members_text, ranges_text};
use pool_keeper::keeper::PoolOpener;
use pool_report::report_text;
use pool_rows::PoolRows;
use pool_store::say_fault;
use pool_words::{Listing, Sheet};
use std::alloc::{AllocError, Global};
use stored_tables::tables::Text;

/// The text of a file of these pools. `Err` means out of memory.
fn sheet_text(alloc: Global, sheet: Sheet, rows: &PoolRows) -> Result<Vec<u8>, AllocError>
    ensures { IfOk result (λ v. v.items ≡ text_of_sheet sheet rows.now.pools) }
{
    match sheet {
        Sheet::AsnRanges => ranges_text(alloc, PoolKind::Asn, rows.ranges()),
        Sheet::VlanGroups => ranges_text(alloc, PoolKind::Vlan, rows.ranges()),
        Sheet::Asns => members_text(alloc, PoolKind::Asn, rows),
        Sheet::Vlans => members_text(alloc, PoolKind::Vlan, rows),
    }
}

/// The text that is asked for of these pools. `Err` means out of memory.
fn listing_text(alloc: Global, listing: Listing, rows: &PoolRows) -> Result<Vec<u8>, AllocError>
    requires { IsLawfulPools rows.now.pools }
    ensures { IfOk result (λ v. IsListing listing rows.now.pools v.items) }
{
    match listing {
        Listing::Rows(sheet) => sheet_text(alloc, sheet, rows),
        Listing::Report => report_text(alloc, rows),
    }
}

/// Prints the text that is asked for of these pools, and gives the status: 0, 3 if the output failed, or 5 if memory ran out before.
fn print_listing<Si: Sink>(alloc: Global, listing: Listing, rows: PoolRows, output: &mut Si) -> u8
    requires { IsLawfulPools rows.pools }
    ensures put { ((text : List ℕ) × IsListing listing rows.pools text × EndsWith (told Si.written Si.faults output.old) (told Si.written Si.faults output.new) text 0 result)
        ⊎ ((result ≡ 5) × (told Si.written Si.faults output.new ≡ told Si.written Si.faults output.old)) }
    ensures later { Si.faults output.old ≤ Si.faults output.new }
{
    let text = listing_text(alloc, listing, &rows);
    drop(rows);
    match text {
        Ok(text) => end_with(output, text.as_slice(), DONE),
        Err(_) => MEMORY,
    }
}

/// Runs `export` or `report`: a text of the pools of the store under this path, which stays as it is; without a path of empty pools.
pub fn run_print<Si: Sink, Se: Sink, O: PoolOpener>(
    alloc: Global,
    listing: Listing,
    path: &Option<Text>,
    output: &mut Si,
    errors: &mut Se,
    opener: &mut O,
) -> u8
    ensures { (input : Told) → IsPrint listing path.now
        (outside (streams input (told Si.written Si.faults output.old) (told Se.written Se.faults errors.old)) (stores O.stored O.faults opener.old))
        (outside (streams input (told Si.written Si.faults output.new) (told Se.written Se.faults errors.new)) (stores O.stored O.faults opener.new)) result }
{
    match load_pools(alloc, path, opener) {
        Ok(rows) => print_listing(alloc, listing, rows, output),
        Err(fault) => say_fault(fault, errors),
    }
}
