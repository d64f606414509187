//! A file of the other program is refused, and its own program loads it as before.

use crate::database::{Trial, over_file};
use crate::store_kinds::{Pools, Register};
use crate::told::{loaded, pools_loaded};
use crate::words::word_of;
use crate::{first_file, pool_file, register_file};
use ipam_keeper::keeper::Keeper;
use pool_keeper::keeper::PoolKeeper;
use sqlite::{Alter, Connection};
use sqlite_keeper::SqliteKeeper;
use sqlite_pools::SqlitePools;
use std::alloc::{AllocError, Global};
use std::test::Fail;

/// A keeper failed at its first call, and counts that.
const REFUSED: &str = "Failed 1: ";

/// What a keeper of a register answers if it loads.
fn answered<K: Keeper>(keeper: &mut K) -> &'static str {
    match keeper.load() {
        Ok(_) => word_of(Ok(())),
        Err(fault) => word_of(Err(fault)),
    }
}

/// What a keeper of pools answers if it loads.
fn pools_answered<K: PoolKeeper>(keeper: &mut K) -> &'static str {
    match keeper.load() {
        Ok(_) => word_of(Ok(())),
        Err(fault) => word_of(Err(fault)),
    }
}

/// What a keeper answered, how often it failed, and what is loaded after it.
fn told_behind(
    alloc: Global,
    word: &str,
    faults: u64,
    text: Result<String, AllocError>,
) -> Result<String, AllocError> {
    let text = text?;
    format!(in alloc; "{word} {faults}: {text}")
}

/// What a keeper of pools answers, and what one of a register loads after it.
struct ByPoolsFirst;

impl Trial for ByPoolsFirst {
    fn over<S: Alter + Drop>(
        alloc: Global,
        conn: Connection<S>,
        words: &str,
    ) -> Result<String, AllocError> {
        let _ = words;
        let mut keeper = SqlitePools::adopt(alloc, conn);
        let word = pools_answered(&mut keeper);
        let faults = keeper.faults();
        let mut keeper = SqliteKeeper::adopt(alloc, keeper.into_connection());
        told_behind(alloc, word, faults, loaded(alloc, &mut keeper))
    }
}

/// What a keeper of a register answers, and what one of pools loads after it.
struct ByRegisterFirst;

impl Trial for ByRegisterFirst {
    fn over<S: Alter + Drop>(
        alloc: Global,
        conn: Connection<S>,
        words: &str,
    ) -> Result<String, AllocError> {
        let _ = words;
        let mut keeper = SqliteKeeper::adopt(alloc, conn);
        let word = answered(&mut keeper);
        let faults = keeper.faults();
        let mut keeper = SqlitePools::adopt(alloc, keeper.into_connection());
        told_behind(alloc, word, faults, pools_loaded(alloc, &mut keeper))
    }
}

/// Whether the first keeper of a trial over this file fails, and the second one loads what one alone loads.
fn is_left<T: Trial, U: Trial>(alloc: Global, digits: &str) -> Result<bool, AllocError> {
    let told = over_file::<T>(alloc, digits, "")?;
    let mut wanted = String::from_str(alloc, REFUSED)?;
    wanted.push_str(over_file::<U>(alloc, digits, "")?.as_str())?;
    Ok(told.as_str() == wanted.as_str())
}

#[test]
fn a_file_of_pools_is_refused_by_the_register(rt: HostRuntime) -> Result<(), Fail> {
    let is_left = is_left::<ByRegisterFirst, Pools>(rt.alloc(), pool_file::FILE)?;
    assert!(rt; is_left);
    Ok(())
}

#[test]
fn a_file_of_the_register_is_refused_by_pools(rt: HostRuntime) -> Result<(), Fail> {
    let is_left = is_left::<ByPoolsFirst, Register>(rt.alloc(), register_file::FILE)?;
    assert!(rt; is_left);
    Ok(())
}

#[test]
fn a_file_of_version_1_is_refused_by_pools(rt: HostRuntime) -> Result<(), Fail> {
    let is_left = is_left::<ByPoolsFirst, Register>(rt.alloc(), first_file::FILE)?;
    assert!(rt; is_left);
    Ok(())
}
