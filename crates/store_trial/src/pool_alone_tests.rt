//! Files of the host, by the opener of `poold`: what a file alone has, without its log, after changes.

use crate::going_on::pool_answers;
use crate::told::pools_loaded;
use crate::words::text_of;
use pool_files::HostPoolFiles;
use pool_keeper::keeper::PoolOpener;
use sqlite_pools::SqlitePoolOpener;
use std::alloc::{AllocError, Global};
use std::fs;
use std::test::Fail;

/// Changes with faults among them, many ranges and a claim of many members.
const LINES: &str = "\
done|1,vlan,floor,100,199||||2,1
Failed|1,vlan,again,200,299||||3,1
done||1,1,100,room 1|||2,2
done|many||||4000000000,2
done||claim|||4000000001,4294967295
";

/// What a keeper over the file of a path answers to these lines, and what it loads.
fn answers_at<O: PoolOpener>(
    alloc: Global,
    opener: &mut O,
    path: &str,
    lines: &str,
) -> Result<String, AllocError> {
    let path = text_of(alloc, path)?;
    let Ok(mut keeper) = opener.start(Some(&path)) else {
        return Err(AllocError);
    };
    let told = pool_answers(alloc, &mut keeper, lines);
    opener.done(keeper);
    told
}

/// What the file of a path has.
fn held_at<O: PoolOpener>(alloc: Global, opener: &mut O, path: &str) -> Result<String, AllocError> {
    let path = text_of(alloc, path)?;
    let Ok(mut keeper) = opener.start(Some(&path)) else {
        return Err(AllocError);
    };
    let told = pools_loaded(alloc, &mut keeper);
    opener.done(keeper);
    told
}

/// Whether what a keeper answered begins with its answers to the lines, and ends with as many rows as they put.
fn are_put(told: &str, had: &str) -> bool {
    told.starts_with("1,1:\ndone\nFailed\ndone\ndone\ndone\n4000000001,4294967295:")
        && had.split(';').count() == 2_003
}

/// Whether a file has after changes, without its log, what its keeper had, and another one has none of it.
fn is_held_alone<O: PoolOpener>(rt: &HostRuntime, opener: &mut O) -> Result<bool, AllocError> {
    let alloc = rt.alloc();
    let told = answers_at(alloc, opener, "poold_alone_test/a.db", LINES)?;
    if fs::copy(rt, "poold_alone_test/a.db", "poold_alone_test/b.db").is_err() {
        return Err(AllocError);
    }
    let held = held_at(alloc, opener, "poold_alone_test/b.db")?;
    let other = held_at(alloc, opener, "poold_alone_test/c.db")?;
    let had = told.as_str().lines().last().unwrap_or("");
    Ok(are_put(told.as_str(), had) && held.as_str() == had && other.as_str() == "1,1:")
}

/// The same by the opener of `poold`.
fn is_put_alone(rt: &HostRuntime) -> Result<bool, AllocError> {
    let mut opener = SqlitePoolOpener::new(rt.alloc(), HostPoolFiles::of(rt));
    is_held_alone(rt, &mut opener)
}

#[test]
fn a_file_of_pools_alone_has_what_was_put(rt: HostRuntime) -> Result<(), Fail> {
    let _ = fs::remove_dir_all(&rt, "poold_alone_test");
    fs::create_dir(&rt, "poold_alone_test")?;
    let is_held = is_put_alone(&rt);
    fs::remove_dir_all(&rt, "poold_alone_test")?;
    assert!(rt; is_held?);
    Ok(())
}
