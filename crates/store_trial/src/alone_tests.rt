//! Files of the host, by the opener of `ipamd`: what a file alone has, without its log, after changes and after a migration.

use crate::database::is_run;
use crate::files::stopping_files;
use crate::going_on::answers;
use crate::many::MANY_RANGES;
use crate::migrating::{FIRST, NEVER, is_migrated, whole_files};
use crate::store_kinds::Stores;
use crate::told::loaded;
use crate::words::text_of;
use host_files::HostFiles;
use ipam_keeper::keeper::KeeperOpener;
use sqlite::{Alter, Connection};
use sqlite_keeper::SqliteOpener;
use std::alloc::{AllocError, Global};
use std::fs;
use std::test::Fail;

/// Changes with faults among them, with great ids, odd texts and many rows.
const LINES: &str = "\
done|vrfs,1,red,65000:1,false,office||vrfs,2
Failed|vrfs,3,green,65000:3||vrfs,9
done|sparse||vrfs,4294967295
done|odd||rirs,8
done|ranges||ip-ranges,5002
done||vrfs,1|
";

/// What a keeper over the file of a path answers to these lines, and what it loads.
fn answers_at<O: KeeperOpener>(
    alloc: Global,
    opener: &mut O,
    path: &str,
    lines: &str,
) -> Result<String, AllocError> {
    let path = text_of(alloc, path)?;
    let Ok(mut keeper) = opener.start(Some(&path)) else {
        return Err(AllocError);
    };
    let told = answers(alloc, &mut keeper, lines);
    opener.done(keeper);
    told
}

/// What the file of a path has.
fn held_at<O: KeeperOpener>(
    alloc: Global,
    opener: &mut O,
    path: &str,
) -> Result<String, AllocError> {
    let path = text_of(alloc, path)?;
    let Ok(mut keeper) = opener.start(Some(&path)) else {
        return Err(AllocError);
    };
    let told = loaded(alloc, &mut keeper);
    opener.done(keeper);
    told
}

/// Whether what a keeper answered begins with its answers to the lines, and ends with as many rows as they put.
fn are_put(told: &str, had: &str) -> bool {
    told.starts_with("2:1,1,1,1,1,1,1,:\ndone\nFailed\ndone\ndone\ndone\ndone\n2:")
        && had.split(';').count() == 5_137
}

/// Whether a file has after changes, without its log, what its keeper had, and another one has none of it.
fn is_held_alone<O: KeeperOpener>(rt: &HostRuntime, opener: &mut O) -> Result<bool, AllocError> {
    let alloc = rt.alloc();
    let told = answers_at(alloc, opener, "ipamd_alone_test/a.db", LINES)?;
    if fs::copy(rt, "ipamd_alone_test/a.db", "ipamd_alone_test/b.db").is_err() {
        return Err(AllocError);
    }
    let held = held_at(alloc, opener, "ipamd_alone_test/b.db")?;
    let other = held_at(alloc, opener, "ipamd_alone_test/c.db")?;
    let had = told.as_str().lines().last().unwrap_or("");
    let is_other_empty = other.as_str() == "2:1,1,1,1,1,1,1,:";
    Ok(are_put(told.as_str(), had) && held.as_str() == had && is_other_empty)
}

/// The same by the opener of `ipamd`.
fn is_put_alone(rt: &HostRuntime) -> Result<bool, AllocError> {
    let mut opener = SqliteOpener::new(rt.alloc(), HostFiles::of(rt));
    is_held_alone(rt, &mut opener)
}

#[test]
fn a_file_alone_has_what_was_put(rt: HostRuntime) -> Result<(), Fail> {
    let _ = fs::remove_dir_all(&rt, "ipamd_alone_test");
    fs::create_dir(&rt, "ipamd_alone_test")?;
    let is_held = is_put_alone(&rt);
    fs::remove_dir_all(&rt, "ipamd_alone_test")?;
    assert!(rt; is_held?);
    Ok(())
}

/// What makes tables of version 1 with many ranges, a hundred by each statement.
fn first_words(alloc: Global) -> Result<String, AllocError> {
    let mut words = String::from_str(alloc, FIRST)?;
    words.push_str("; BEGIN; DELETE FROM ip_ranges")?;
    for id in 1..MANY_RANGES + 1 {
        let front = if id % 100 == 1 {
            "; INSERT INTO ip_ranges VALUES "
        } else {
            ", "
        };
        words.push_str(front)?;
        let row = format!(in alloc; "({id}, 'a', 'b', '', 'c', '', 'false', 'd{id}')")?;
        words.push_str(row.as_str())?;
    }
    words.push_str("; COMMIT")?;
    Ok(words)
}

/// What they become, with this mark.
fn migrated_text(alloc: Global, mark: &str) -> Result<String, AllocError> {
    let mut text = String::from_str(
        alloc,
        "2:1,1,1,1,2,4,1,:Prefixes 1 10.0.0.0/24  active  false false ;",
    )?;
    for id in 1..MANY_RANGES + 1 {
        text.push_str(format!(in alloc; "Ranges {id} a b  c  false {mark} d{id};")?.as_str())?;
    }
    Ok(text)
}

/// Whether the file of a path is migrated with this mark.
fn is_migrated_at<O: KeeperOpener>(
    alloc: Global,
    opener: &mut O,
    path: &str,
    populated: bool,
) -> Result<bool, AllocError> {
    let path = text_of(alloc, path)?;
    let Ok(mut keeper) = opener.start(Some(&path)) else {
        return Err(AllocError);
    };
    let done = is_migrated(&mut keeper, populated);
    opener.done(keeper);
    Ok(done)
}

/// Makes such tables, and says that they are made.
fn made_first<S: Alter>(alloc: Global, conn: &mut Connection<S>) -> Result<u32, AllocError> {
    let words = first_words(alloc)?;
    if is_run(conn, words.as_str()) {
        Ok(1)
    } else {
        Err(AllocError)
    }
}

/// What makes them.
struct ManyFirst;

impl Stores for ManyFirst {
    fn store<S: Alter + Drop>(
        alloc: Global,
        mut conn: Connection<S>,
        changes: u32,
    ) -> (Result<u32, AllocError>, S) {
        let _ = changes;
        let made = made_first(alloc, &mut conn);
        (made, conn.into_store())
    }
}

/// Writes a file of these bytes.
fn write_file(rt: &HostRuntime, path: &str, bytes: &[u8]) -> Result<(), AllocError> {
    match fs::write(rt, path, bytes) {
        Ok(()) => Ok(()),
        Err(_) => Err(AllocError),
    }
}

/// Writes a database of them: its file, and its log, which has what is not yet in the file.
fn write_first(rt: &HostRuntime) -> Result<(), AllocError> {
    let alloc = rt.alloc();
    let files = whole_files::<ManyFirst>(alloc, stopping_files(alloc, NEVER))?;
    write_file(rt, "ipamd_first_test/a.db-wal", files.log.bytes())?;
    write_file(rt, "ipamd_first_test/a.db", files.db.bytes())
}

/// Whether a file of version 1 has after a migration, without its log, what it should.
fn is_migrated_alone<O: KeeperOpener>(
    rt: &HostRuntime,
    opener: &mut O,
    populated: bool,
) -> Result<bool, AllocError> {
    let alloc = rt.alloc();
    write_first(rt)?;
    let done = is_migrated_at(alloc, opener, "ipamd_first_test/a.db", populated)?;
    if fs::copy(rt, "ipamd_first_test/a.db", "ipamd_first_test/b.db").is_err() {
        return Err(AllocError);
    }
    let held = held_at(alloc, opener, "ipamd_first_test/b.db")?;
    let wanted = migrated_text(alloc, if populated { "true" } else { "false" })?;
    Ok(done && held.as_str() == wanted.as_str())
}

/// The same by the opener of `ipamd`.
fn is_migrated_with(rt: &HostRuntime, populated: bool) -> Result<bool, AllocError> {
    let mut opener = SqliteOpener::new(rt.alloc(), HostFiles::of(rt));
    is_migrated_alone(rt, &mut opener, populated)
}

#[test]
fn a_file_alone_has_what_was_migrated(rt: HostRuntime) -> Result<(), Fail> {
    let _ = fs::remove_dir_all(&rt, "ipamd_first_test");
    fs::create_dir(&rt, "ipamd_first_test")?;
    let marked = is_migrated_with(&rt, true);
    let unmarked = is_migrated_with(&rt, false);
    fs::remove_dir_all(&rt, "ipamd_first_test")?;
    assert!(rt; marked?, "with the mark");
    assert!(rt; unmarked?, "without the mark");
    Ok(())
}
