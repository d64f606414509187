//! A database of version 1 that the program `sqlite3` made of model/tables_first.sql is migrated, and loaded again.

use crate::changing::followed;
use crate::database::{Trial, over_file};
use crate::first_file::FILE;
use crate::migrating::is_migrated;
use crate::told::loaded;
use ipam_keeper::keeper::Keeper;
use sqlite::{Alter, Connection};
use sqlite_keeper::SqliteKeeper;
use std::alloc::{AllocError, Global};
use std::test::Fail;
use stored_tables::migration::migrate;

/// What is loaded of it, up to the ranges.
const FRONT: &str = "3,4,5,6,7,8,9,:\
Vrfs 1 red 65000:1 false office;Vrfs 2 blue 65000:2 true guests;Rirs 1 ARIN arin true north;Rirs 2 RIPE NCC ripe false east;\
Roles 1 LAN lan 10 cables;Roles 2 WAN wan 32767 links;Aggregates 1 10.0.0.0/8 2 own;Aggregates 2 2001:db8::/32 1 six;\
Prefixes 1 10.0.0.0/16 1 container 2 true false halls;Prefixes 2 2001:db8::/48 2 reserved 1 false true rooms;";

/// The ranges, each in front of its mark and after it.
const RANGES: &str = "\
Ranges 1 10.0.0.10/24 10.0.0.19/24 1 reserved 2 true| printers;
Ranges 2 2001:db8::a/64 2001:db8::f/64 2 deprecated 1 false| phones;
Ranges 7 10.0.0.1/24 10.0.0.9/24  active  false| ;
";

/// What is loaded after them.
const BACK: &str = "\
Addresses 1 10.0.0.1/24 1 dhcp vip gw.example.org gateway;Addresses 2 2001:db8::5/64 2 slaac carp b.example.org host;";

/// What is loaded if the ranges have this mark, which may be none.
fn wanted(alloc: Global, version: u32, mark: &str) -> Result<String, AllocError> {
    let mut text = format!(in alloc; "{version}:")?;
    text.push_str(FRONT)?;
    for line in RANGES.lines() {
        let (front, back) = line.split_once('|').unwrap_or(("", ""));
        text.push_str(front)?;
        text.push_str(mark)?;
        text.push_str(back)?;
    }
    text.push_str(BACK)?;
    Ok(text)
}

/// Why what a keeper has is not migrated, or that it could be.
fn refused<K: Keeper>(alloc: Global, keeper: &mut K) -> Result<String, AllocError> {
    match keeper.load() {
        Ok(tables) => match migrate(&tables, true) {
            Ok(_) => String::from_str(alloc, "migrated"),
            Err(fault) => format!(in alloc; "{fault:?}"),
        },
        Err(fault) => format!(in alloc; "{fault:?}"),
    }
}

/// What a keeper loads, which is then migrated.
fn told_before<K: Keeper>(
    alloc: Global,
    keeper: &mut K,
    populated: bool,
) -> Result<String, AllocError> {
    let text = loaded(alloc, keeper)?;
    if is_migrated(keeper, populated) {
        Ok(text)
    } else {
        String::from_str(alloc, "not migrated")
    }
}

/// What a keeper loads, and why it is not migrated, each on a line after this text.
fn told_after<K: Keeper>(
    alloc: Global,
    before: Result<String, AllocError>,
    keeper: &mut K,
) -> Result<String, AllocError> {
    let before = before?;
    let after = loaded(alloc, keeper)?;
    let why = refused(alloc, keeper)?;
    format!(in alloc; "{before}\n{after}\n{why}")
}

/// A migration whose ranges are populated if the words are `yes`: what a keeper loads before it, what one over the same database
/// loads after it, and why that one is not migrated again.
struct Migrating;

impl Trial for Migrating {
    fn over<S: Alter + Drop>(
        alloc: Global,
        conn: Connection<S>,
        words: &str,
    ) -> Result<String, AllocError> {
        let mut keeper = SqliteKeeper::adopt(alloc, conn);
        let before = told_before(alloc, &mut keeper, words == "yes");
        let mut keeper = followed(alloc, keeper);
        told_after(alloc, before, &mut keeper)
    }
}

/// What that should be, if the ranges have this mark after it.
fn wanted_around(alloc: Global, mark: &str) -> Result<String, AllocError> {
    let mut text = wanted(alloc, 1, "")?;
    text.push('\n')?;
    text.push_str(wanted(alloc, 2, mark)?.as_str())?;
    text.push_str("\nVersion(2)")?;
    Ok(text)
}

#[test]
fn a_database_of_version_1_is_migrated(rt: HostRuntime) -> Result<(), Fail> {
    let told = over_file::<Migrating>(rt.alloc(), FILE, "yes")?;
    let wanted = wanted_around(rt.alloc(), " true")?;
    assert!(rt; told.as_str() == wanted.as_str(), "{told}");
    Ok(())
}

#[test]
fn a_database_of_version_1_is_migrated_without_the_mark(rt: HostRuntime) -> Result<(), Fail> {
    let told = over_file::<Migrating>(rt.alloc(), FILE, "no")?;
    let wanted = wanted_around(rt.alloc(), " false")?;
    assert!(rt; told.as_str() == wanted.as_str(), "{told}");
    Ok(())
}
