//! Changes one after another over a database: what a keeper holds after each is what a keeper in memory holds.

use crate::database::{Trial, over_file};
use crate::lines::change_of;
use crate::told::loaded;
use crate::words::{Lines, lines_of, word_of};
use ipam_keeper::empty::empty_tables;
use ipam_keeper::keeper::Keeper;
use ipam_keeper::memory::MemoryKeeper;
use sqlite::{Alter, Connection};
use sqlite_keeper::SqliteKeeper;
use std::alloc::{AllocError, Global};

/// What a keeper loads after the change of a line, and what it answered to it.
fn told_change<K: Keeper>(alloc: Global, keeper: &mut K, line: &str) -> Result<String, AllocError> {
    let change = change_of(alloc, line)?;
    let answer = word_of(keeper.apply(&change));
    let mut text = loaded(alloc, keeper)?;
    text.push_str(answer)?;
    Ok(text)
}

/// What a keeper in memory loads, and that it failed.
fn told_failure(alloc: Global, memory: &mut MemoryKeeper) -> Result<String, AllocError> {
    let mut text = loaded(alloc, memory)?;
    text.push_str("Failed")?;
    Ok(text)
}

/// What that should be, by a keeper in memory, which makes the change if the line says that it is done.
fn wanted_change(
    alloc: Global,
    memory: &mut MemoryKeeper,
    line: &str,
) -> Result<String, AllocError> {
    if line.starts_with("done") {
        told_change(alloc, memory, line)
    } else {
        told_failure(alloc, memory)
    }
}

/// Puts a line at the end of those that are wrong, if a keeper does not do as a keeper in memory.
fn note<K: Keeper>(
    alloc: Global,
    keeper: &mut K,
    memory: &mut MemoryKeeper,
    line: &str,
    wrong: &mut String,
) -> Result<(), AllocError> {
    let found = told_change(alloc, keeper, line)?;
    let wanted = wanted_change(alloc, memory, line)?;
    if found.as_str() == wanted.as_str() {
        return Ok(());
    }
    wrong.push_str(line)
}

/// A keeper that a second one follows over the same database.
pub(crate) fn followed<S: Alter>(alloc: Global, keeper: SqliteKeeper<S>) -> SqliteKeeper<S> {
    SqliteKeeper::adopt(alloc, keeper.into_connection())
}

/// A keeper in memory after so many of the changes.
fn memory_after(alloc: Global, lines: &str, made: usize) -> Result<MemoryKeeper, AllocError> {
    let mut memory = MemoryKeeper::new(empty_tables(alloc)?, Vec::new(alloc));
    for line in lines.lines().take(made) {
        let change = change_of(alloc, line)?;
        if memory.apply(&change).is_err() {
            return Err(AllocError);
        }
    }
    Ok(memory)
}

/// Says so if a keeper loads other tables than one in memory.
fn note_first<K: Keeper>(
    alloc: Global,
    keeper: &mut K,
    memory: &mut MemoryKeeper,
    wrong: &mut String,
) -> Result<(), AllocError> {
    let found = loaded(alloc, keeper)?;
    let wanted = loaded(alloc, memory)?;
    if found.as_str() == wanted.as_str() {
        return Ok(());
    }
    wrong.push_str("other tables at first")
}

/// Notes the lines whose changes leave other tables in a keeper over a database than in one in memory. A second keeper follows after each.
fn note_lines<S: Alter + Drop>(
    alloc: Global,
    mut keeper: SqliteKeeper<S>,
    memory: &mut MemoryKeeper,
    lines: Lines<'_>,
    wrong: &mut String,
) -> Result<(), AllocError> {
    let mut noted = note_first(alloc, &mut keeper, memory, wrong);
    for line in lines.text.lines().skip(lines.made) {
        if noted.is_ok() {
            noted = note(alloc, &mut keeper, memory, line, wrong);
        }
        keeper = followed(alloc, keeper);
    }
    noted
}

/// The changes of the lines after the first one, which says how many are made.
struct Changing;

impl Trial for Changing {
    fn over<S: Alter + Drop>(
        alloc: Global,
        conn: Connection<S>,
        words: &str,
    ) -> Result<String, AllocError> {
        let lines = lines_of(words)?;
        let mut memory = memory_after(alloc, lines.text, lines.made)?;
        let mut wrong = String::new(alloc);
        let keeper = SqliteKeeper::adopt(alloc, conn);
        note_lines(alloc, keeper, &mut memory, lines, &mut wrong)?;
        Ok(wrong)
    }
}

/// What a keeper over the database in a file of these bytes does else than one in memory, over these lines, so many of which are made.
pub(crate) fn wrong_over(
    alloc: Global,
    digits: &str,
    made: &str,
    lines: &str,
) -> Result<String, AllocError> {
    let words = format!(in alloc; "{made}\n{lines}")?;
    over_file::<Changing>(alloc, digits, words.as_str())
}
