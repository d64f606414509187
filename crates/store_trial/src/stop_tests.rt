//! Every crash of both files while the tables are made and ten rows are imported, while a file of version 1 is migrated, and while a
//! group of VLANs is made and ten of them are claimed; and ten stops of an import of many rows.

use crate::files::{Found, Side, Stop};
use crate::migrating::Migration;
use crate::stops::{Ending, ending_of};
use crate::store_kinds::{Import, Pools, Register, StoreKind};
use std::alloc::{AllocError, Global};
use std::test::Fail;

/// How many changes of a register are stored: the import.
const STORED: u32 = 1;

/// How many changes of pools are stored: the group and the claim.
const STORED_POOLS: u32 = 2;

/// More calls of a file than there are.
const MOST: u64 = 1_000;

/// Fewer stops than there are of both files together, in all ways that they are found: some of each, or nothing was tried.
const LEAST: u64 = 60;

/// How many stops of a file leave whole tables, as the files are found so, before all changes are stored. One that breaks the tables is noted.
fn stops_of<K: StoreKind>(
    alloc: Global,
    changes: u32,
    side: Side,
    found: Found,
    wrong: &mut String,
) -> Result<u64, AllocError> {
    for calls in 0..MOST {
        match ending_of::<K>(alloc, changes, Stop { side, calls, found })? {
            Ending::Whole => {}
            Ending::Broken => {
                wrong.push_str(format!(in alloc; "{side:?} {found:?} {calls} ")?.as_str())?;
                return Ok(calls);
            }
            Ending::Beyond => return Ok(calls),
        }
    }
    wrong.push_str("without end ")?;
    Ok(MOST)
}

/// The same of both files, in each way that they are found.
fn all_stops<K: StoreKind>(
    alloc: Global,
    changes: u32,
    wrong: &mut String,
) -> Result<u64, AllocError> {
    let mut stops = 0u64;
    for side in [Side::Log, Side::Database] {
        for found in [Found::Written, Found::Lost, Found::Torn] {
            stops = stops.saturating_add(stops_of::<K>(alloc, changes, side, found, wrong)?);
        }
    }
    Ok(stops)
}

#[test]
fn no_stop_breaks_the_tables(rt: HostRuntime) -> Result<(), Fail> {
    let mut wrong = String::new(rt.alloc());
    let stops = all_stops::<Register>(rt.alloc(), STORED, &mut wrong)?;
    assert!(rt; wrong.is_empty(), "{wrong}");
    assert!(rt; stops >= LEAST, "{stops} stops");
    Ok(())
}

#[test]
fn no_stop_breaks_the_pools(rt: HostRuntime) -> Result<(), Fail> {
    let mut wrong = String::new(rt.alloc());
    let stops = all_stops::<Pools>(rt.alloc(), STORED_POOLS, &mut wrong)?;
    assert!(rt; wrong.is_empty(), "{wrong}");
    assert!(rt; stops >= LEAST, "{stops} stops");
    Ok(())
}

#[test]
fn no_stop_breaks_the_tables_of_a_migration(rt: HostRuntime) -> Result<(), Fail> {
    let mut wrong = String::new(rt.alloc());
    let stops = all_stops::<Migration>(rt.alloc(), 1, &mut wrong)?;
    assert!(rt; wrong.is_empty(), "{wrong}");
    assert!(rt; stops >= LEAST, "{stops} stops");
    Ok(())
}

/// By how many calls of the log a crash is moved, one after another: so ten crashes get ever nearer to the last call before the import is stored.
const STEPS: [u64; 10] = [512, 256, 128, 64, 32, 16, 8, 4, 2, 1];

/// The number of calls before the last one of the log, by ten stops. One that breaks the tables is noted.
fn last_stop<K: StoreKind>(
    alloc: Global,
    found: Found,
    wrong: &mut String,
) -> Result<u64, AllocError> {
    let mut last = 0u64;
    for step in STEPS {
        let calls = last.saturating_add(step);
        let stop = Stop {
            side: Side::Log,
            calls,
            found,
        };
        match ending_of::<K>(alloc, 1, stop)? {
            Ending::Whole => last = calls,
            Ending::Broken => wrong.push_str(format!(in alloc; "{found:?} {calls} ")?.as_str())?,
            Ending::Beyond => {}
        }
    }
    Ok(last)
}

#[test]
fn no_stop_breaks_an_import_of_many_rows(rt: HostRuntime) -> Result<(), Fail> {
    let mut wrong = String::new(rt.alloc());
    let last = last_stop::<Import>(rt.alloc(), Found::Lost, &mut wrong)?;
    assert!(rt; wrong.is_empty(), "{wrong}");
    assert!(rt; last > 10 && last < 1_023, "{last}");
    Ok(())
}
