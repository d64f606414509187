//! A file of the host, by the opener of `ipamd`: what was put into it is found when it is opened again, and nobody else opens it meanwhile.

use crate::lines::change_of;
use crate::told::loaded;
use crate::words::text_of;
use host_files::HostFiles;
use ipam_keeper::keeper::{KeepFault, Keeper, KeeperOpener};
use sqlite_keeper::SqliteOpener;
use std::alloc::{AllocError, Global};
use std::fs;
use std::test::Fail;
use stored_tables::tables::{Change, Text};

const FOLDER: &str = "ipamd_files_test";

const NO_STORES: &str = "ipamd_no_stores_test";

/// More bytes than the first page of a database has.
const TEXT: &str = "no store";

/// The change that makes the role 7.
const ONE_ROLE: &str = "done|roles,7,LAN,lan,10,cables||roles,8";

/// What a file holds when it is opened, after which a change is made.
fn held_before<O: KeeperOpener>(
    alloc: Global,
    opener: &mut O,
    path: &Text,
    change: &Change,
) -> Result<String, KeepFault> {
    let mut keeper = opener.start(Some(path))?;
    let told = loaded(alloc, &mut keeper);
    let applied = keeper.apply(change);
    opener.done(keeper);
    applied?;
    Ok(told?)
}

/// Whether a second opener is refused the file that a first one has open.
fn is_refused<O: KeeperOpener, P: KeeperOpener>(
    first: &mut O,
    second: &mut P,
    path: &Text,
) -> Result<bool, KeepFault> {
    let keeper = first.start(Some(path))?;
    let is_refused = matches!(second.start(Some(path)), Err(KeepFault::Failed));
    first.done(keeper);
    Ok(is_refused)
}

/// Whether a change over what is at a path is answered that the store failed.
fn is_a_fault<O: KeeperOpener>(
    alloc: Global,
    opener: &mut O,
    path: &str,
) -> Result<bool, AllocError> {
    let path = text_of(alloc, path)?;
    let change = change_of(alloc, ONE_ROLE)?;
    let held = held_before(alloc, opener, &path, &change);
    Ok(matches!(held, Err(KeepFault::Failed)))
}

/// The same by the opener of `ipamd`.
fn is_no_store(rt: &HostRuntime, path: &str) -> Result<bool, AllocError> {
    let mut opener = SqliteOpener::new(rt.alloc(), HostFiles::of(rt));
    is_a_fault(rt.alloc(), &mut opener, path)
}

/// What can't be a store at some paths: a folder that is not there, a folder, and a file of text, which stays as it is.
#[test]
fn what_is_no_store_is_a_fault(rt: HostRuntime) -> Result<(), Fail> {
    let _ = fs::remove_dir_all(&rt, NO_STORES);
    fs::create_dir(&rt, NO_STORES)?;
    fs::write(&rt, "ipamd_no_stores_test/text", TEXT)?;
    let nowhere = is_no_store(&rt, "ipamd_no_stores_test/none/a.db");
    let folder = is_no_store(&rt, NO_STORES);
    let text = is_no_store(&rt, "ipamd_no_stores_test/text");
    let other = is_no_store(&rt, "ipamd_no_stores_test/a.db");
    let left = fs::read(&rt, "ipamd_no_stores_test/text");
    fs::remove_dir_all(&rt, NO_STORES)?;
    assert_eq!(rt; (nowhere?, folder?, text?), (true, true, true));
    assert!(rt; !other?, "a new file is opened after that");
    assert_eq!(rt; left?.as_slice(), TEXT.as_bytes());
    Ok(())
}

/// Whether this text was printed.
fn is_told(told: &Result<String, KeepFault>, text: &str) -> bool {
    match told {
        Ok(told) => told.as_str() == text,
        Err(_) => false,
    }
}

/// What the file of a path holds when its own opener opens it, after which a change is made.
fn held_now(rt: &HostRuntime, path: &Text, change: &Change) -> Result<String, KeepFault> {
    let mut opener = SqliteOpener::new(rt.alloc(), HostFiles::of(rt));
    held_before(rt.alloc(), &mut opener, path, change)
}

/// Whether a second opener is refused the file of a path while a first one has it.
fn is_refused_now(rt: &HostRuntime, path: &Text) -> Result<bool, KeepFault> {
    let mut first = SqliteOpener::new(rt.alloc(), HostFiles::of(rt));
    let mut second = SqliteOpener::new(rt.alloc(), HostFiles::of(rt));
    is_refused(&mut first, &mut second, path)
}

#[test]
fn a_file_on_disk_keeps_what_was_put(rt: HostRuntime) -> Result<(), Fail> {
    let _ = fs::remove_dir_all(&rt, FOLDER);
    fs::create_dir(&rt, FOLDER)?;
    let path = text_of(rt.alloc(), "ipamd_files_test/a.db")?;
    let change = change_of(rt.alloc(), ONE_ROLE)?;
    let first = held_now(&rt, &path, &change);
    let second = held_now(&rt, &path, &change);
    let refused = is_refused_now(&rt, &path);
    fs::remove_dir_all(&rt, FOLDER)?;
    assert!(rt; is_told(&first, "2:1,1,1,1,1,1,1,:"));
    assert!(rt; is_told(&second, "2:1,1,8,1,1,1,1,:Roles 7 LAN lan 10 cables;"));
    assert!(rt; matches!(refused, Ok(true)));
    Ok(())
}
