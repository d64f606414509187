//! What a database keeps of a register at the edges: great ids, odd texts, many rows, a change after a fault, and a migration over
//! other rows.

use crate::changing::wrong_over;
use crate::database::{Trial, over_file};
use crate::first_file::FILE as FIRST_FILE;
use crate::going_on::answers;
use crate::lines::change_of;
use crate::told::loaded;
use ipam_keeper::empty::empty_tables;
use ipam_keeper::keeper::Keeper;
use ipam_keeper::memory::MemoryKeeper;
use sqlite::{Alter, Connection};
use sqlite_keeper::SqliteKeeper;
use std::alloc::{AllocError, Global};
use std::test::Fail;
use stored_tables::migration::{FIRST_VERSION, migrate};
use stored_tables::tables::Tables;

/// Rows of every kind under great ids, of which some are removed again and some put anew.
const SPARSE: &str = "\
done|sparse||vrfs,4294967295;ip-addresses,4294967295
done|vrfs,65537,other,65000:1,true,text;ip-ranges,4294967293,a,b,c,d,e,f,g,h|prefixes,65536;ip-addresses,4294967294;roles,65537|rirs,65537
";

/// Rows of every kind with odd texts, each twice.
const ODD: &str = "\
done|odd||vrfs,8
done|odd||vrfs,9
";

/// Many ranges, of which two go again.
const RANGES: &str = "\
done|ranges||ip-ranges,5002
done||ip-ranges,5001;ip-ranges,1|
";

/// Faults, each with a change after it.
const FAULTS: &str = "\
Failed|vrfs,3,green,65000:3|vrfs,1|vrfs,9
done|vrfs,4,green,65000:4,true,lab||vrfs,5
Failed|vrfs,6,white|vrfs,4|vrfs,9
Failed|rirs,6,white|vrfs,4|vrfs,9
done|roles,1,MAN,man,11,rings|vrfs,7|roles,2
";

#[test]
fn great_ids_are_kept(rt: HostRuntime) -> Result<(), Fail> {
    let wrong = wrong_over(rt.alloc(), "", "0", SPARSE)?;
    assert!(rt; wrong.is_empty(), "{wrong}");
    Ok(())
}

#[test]
fn odd_texts_are_kept(rt: HostRuntime) -> Result<(), Fail> {
    let wrong = wrong_over(rt.alloc(), "", "0", ODD)?;
    assert!(rt; wrong.is_empty(), "{wrong}");
    Ok(())
}

#[test]
fn many_ranges_are_kept(rt: HostRuntime) -> Result<(), Fail> {
    let wrong = wrong_over(rt.alloc(), "", "0", RANGES)?;
    assert!(rt; wrong.is_empty(), "{wrong}");
    Ok(())
}

/// Changes one after another by one keeper.
struct GoingOn;

impl Trial for GoingOn {
    fn over<S: Alter + Drop>(
        alloc: Global,
        conn: Connection<S>,
        words: &str,
    ) -> Result<String, AllocError> {
        let mut keeper = SqliteKeeper::adopt(alloc, conn);
        answers(alloc, &mut keeper, words)
    }
}

/// What the keeper is to answer, if it loads nothing that a fault left.
const GONE_ON: &str = "\
2:1,1,1,1,1,1,1,:
Failed
done
Failed
Failed
done
2:5,1,2,1,1,1,1,:Vrfs 4 green 65000:4 true lab;Roles 1 MAN man 11 rings;";

#[test]
fn a_change_behind_a_fault_is_kept(rt: HostRuntime) -> Result<(), Fail> {
    let told = over_file::<GoingOn>(rt.alloc(), "", FAULTS)?;
    assert!(rt; told.as_str() == GONE_ON, "{told}");
    Ok(())
}

/// A keeper in memory of tables of version 1 with other rows.
fn other_rows(alloc: Global) -> Result<MemoryKeeper, AllocError> {
    let mut memory = MemoryKeeper::new(empty_tables(alloc)?, Vec::new(alloc));
    let change = change_of(
        alloc,
        "done|vrfs,1,other,65000:9,true,other;ip-ranges,5,a,b,c,d,e,f,g;ip-addresses,9,a,b,c,d,e,f||vrfs,70;ip-ranges,80",
    )?;
    if memory.apply(&change).is_err() {
        return Err(AllocError);
    }
    let tables = memory.into_tables();
    let tables = Tables {
        version: FIRST_VERSION,
        next: tables.next,
        rows: tables.rows,
    };
    Ok(MemoryKeeper::new(tables, Vec::new(alloc)))
}

/// Whether a keeper's tables get what the other one's become if they are migrated.
fn is_put<K: Keeper, M: Keeper>(keeper: &mut K, other: &mut M) -> bool {
    match other.load() {
        Ok(tables) => match migrate(&tables, true) {
            Ok(anew) => keeper.upgrade(&anew).is_ok(),
            Err(_) => false,
        },
        Err(_) => false,
    }
}

/// What a keeper loads before and after an upgrade to the tables of other rows.
fn upgraded<K: Keeper>(alloc: Global, keeper: &mut K) -> Result<String, AllocError> {
    let mut told = loaded(alloc, keeper)?;
    told.push('\n')?;
    let mut other = other_rows(alloc)?;
    if !is_put(keeper, &mut other) {
        return Err(AllocError);
    }
    told.push_str(loaded(alloc, keeper)?.as_str())?;
    Ok(told)
}

/// Such an upgrade.
struct Upgrading;

impl Trial for Upgrading {
    fn over<S: Alter + Drop>(
        alloc: Global,
        conn: Connection<S>,
        words: &str,
    ) -> Result<String, AllocError> {
        let _ = words;
        let mut keeper = SqliteKeeper::adopt(alloc, conn);
        upgraded(alloc, &mut keeper)
    }
}

/// A text in front of its rows of ranges, and after them.
fn around(text: &str) -> Option<(&str, &str)> {
    let (front, rest) = text.split_once("Ranges ")?;
    let (_, back) = rest.split_once("Addresses ")?;
    Some((front, back))
}

/// Whether these are tables of version 1 and, on the next line, of version 2, with the one new range, and all else the same.
fn is_upgraded(told: &str) -> bool {
    let Some((before, after)) = told.split_once('\n') else {
        return false;
    };
    let (Some(before), Some(after)) = (before.strip_prefix("1:"), after.strip_prefix("2:")) else {
        return false;
    };
    after.contains("rooms;Ranges 5 a b c d e f true g;Addresses 1 ")
        && around(before) == around(after)
}

#[test]
fn an_upgrade_changes_ranges_and_the_version_alone(rt: HostRuntime) -> Result<(), Fail> {
    let told = over_file::<Upgrading>(rt.alloc(), FIRST_FILE, "")?;
    assert!(rt; is_upgraded(told.as_str()), "{told}");
    Ok(())
}
