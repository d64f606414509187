//! A keeper in memory whose calls fail by their numbers, and an opener that keeps tables under paths.

use ipam_data::kinds::Kind;
use ipam_data::update::Ids;
use ipam_keeper::empty::empty_tables;
use ipam_keeper::keeper::{KeepFault, Keeper, KeeperOpener};
use ipam_keeper::memory::MemoryKeeper;
use ipam_keeper::opener::MemoryOpener;
use std::alloc::{AllocError, Global};
use std::test::Fail;
use stored_tables::tables::{Change, Row, Rows, Text, Texts};

/// A call a line, numbered from 0: what is asked, whether it is done, and how many calls have failed then.
const CALLS: &str = "\
load done 0
apply failed 1
apply done 1
load done 1
apply failed 2
apply done 2
";

/// The path of a keeper a line, a hyphen for none, and how many rows it begins with; one row is put before it is given back.
const STARTS: &str = "\
- 0
a 0
b 0
a 1
- 0
b 1
";

fn text_of(alloc: Global, text: &str) -> Result<Text, AllocError> {
    Ok(Text::of(String::from_str(alloc, text)?))
}

/// A VRF of id 2 is put, and the next id is 3.
fn change(alloc: Global) -> Result<Change, AllocError> {
    let mut fields = Vec::new(alloc);
    fields.push(text_of(alloc, "red")?)?;
    let mut puts = Vec::new(alloc);
    puts.push(Row {
        kind: Kind::Vrfs,
        id: 2,
        fields: Texts::of(fields),
    })?;
    let mut next = Vec::new(alloc);
    next.push((Kind::Vrfs, 3))?;
    Ok(Change {
        puts: Rows::of(puts),
        cuts: Ids::of(Vec::new(alloc)),
        next: Ids::of(next),
    })
}

fn word<T: Drop>(answer: Result<T, KeepFault>) -> &'static str {
    match answer {
        Ok(_) => "done",
        Err(KeepFault::Failed) => "failed",
        Err(KeepFault::Memory) => "memory",
    }
}

fn asked(keeper: &mut MemoryKeeper, change: &Change, call: &str) -> &'static str {
    if call == "load" {
        return word(keeper.load());
    }
    word(keeper.apply(change))
}

#[test]
fn calls_fail_by_their_numbers(rt: HostRuntime) -> Result<(), Fail> {
    let change = change(rt.alloc())?;
    let mut fails = Vec::new(rt.alloc());
    fails.push(4)?;
    fails.push(1)?;
    let mut keeper = MemoryKeeper::new(empty_tables(rt.alloc())?, fails);
    for line in CALLS.lines() {
        let mut words = line.split(' ');
        let done = asked(&mut keeper, &change, words.next().unwrap_or(""));
        assert!(rt; done == words.next().unwrap_or(""), "{line}");
        let faults = words.next().unwrap_or("").parse::<u64>().unwrap_or(9);
        assert!(rt; keeper.faults() == faults, "{line}");
    }
    assert!(rt;
        keeper.into_tables().rows.as_slice().len() == 1,
        "the row came once"
    );
    Ok(())
}

/// How many rows the tables of a path have; then one row is put.
fn started<O: KeeperOpener>(
    opener: &mut O,
    change: &Change,
    path: Option<&Text>,
) -> Result<usize, KeepFault> {
    let mut kept = opener.start(path)?;
    let count = kept.load()?.rows.as_slice().len();
    kept.apply(change)?;
    opener.done(kept);
    Ok(count)
}

fn started_at(
    alloc: Global,
    opener: &mut MemoryOpener,
    change: &Change,
    path: &str,
) -> Result<usize, KeepFault> {
    if path == "-" {
        return started(opener, change, None);
    }
    let path = text_of(alloc, path)?;
    started(opener, change, Some(&path))
}

#[test]
fn tables_stay_under_their_paths(rt: HostRuntime) -> Result<(), Fail> {
    let change = change(rt.alloc())?;
    let mut opener = MemoryOpener::new(Vec::new(rt.alloc()), Vec::new(rt.alloc()));
    for line in STARTS.lines() {
        let mut words = line.split(' ');
        let path = words.next().unwrap_or("");
        let count = started_at(rt.alloc(), &mut opener, &change, path).unwrap_or(9);
        let want = words.next().unwrap_or("").parse::<usize>().unwrap_or(8);
        assert!(rt; count == want, "{line}");
    }
    Ok(())
}
