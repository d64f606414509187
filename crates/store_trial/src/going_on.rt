//! Changes one after another by one keeper, which goes on after faults.

use crate::told::{loaded, pools_loaded};
use crate::words::word_of;
use crate::{lines, pool_lines};
use ipam_keeper::keeper::Keeper;
use pool_keeper::keeper::PoolKeeper;
use std::alloc::{AllocError, Global};

/// What a keeper loads, what it answers to each of these lines, and what it loads after the last one.
pub(crate) fn answers<K: Keeper>(
    alloc: Global,
    keeper: &mut K,
    text: &str,
) -> Result<String, AllocError> {
    let mut told = loaded(alloc, keeper)?;
    told.push('\n')?;
    for line in text.lines() {
        let change = lines::change_of(alloc, line)?;
        told.push_str(word_of(keeper.apply(&change)))?;
        told.push('\n')?;
    }
    told.push_str(loaded(alloc, keeper)?.as_str())?;
    Ok(told)
}

/// The same of pools.
pub(crate) fn pool_answers<K: PoolKeeper>(
    alloc: Global,
    keeper: &mut K,
    text: &str,
) -> Result<String, AllocError> {
    let mut told = pools_loaded(alloc, keeper)?;
    told.push('\n')?;
    for line in text.lines() {
        let change = pool_lines::change_of(alloc, line)?;
        told.push_str(word_of(keeper.apply(&change)))?;
        told.push('\n')?;
    }
    told.push_str(pools_loaded(alloc, keeper)?.as_str())?;
    Ok(told)
}
