//! Databases in memory, of the bytes of files, and what is tried over them. A store is named here alone: what is tried is generic in it.

ghost use Rattle.std.specs.Prelude.{IsTrue};

use crate::files::file_of;
use sqlite::{Alter, Connection, Files, Options};
use sqlite_disk::{Disk, Memory};
use std::alloc::{AllocError, Global};

/// Puts so many bytes at the end that are zero.
fn put_zeros(bytes: &mut Vec<u8>, count: &str) -> Result<(), AllocError> {
    for _ in 0..count.parse::<u32>().unwrap_or(0) {
        bytes.push(0)?;
    }
    Ok(())
}

/// Puts the bytes of a word at the end.
fn put_word(alloc: Global, bytes: &mut Vec<u8>, word: &str) -> Result<(), AllocError> {
    if let Some((_, count)) = word.split_once('*') {
        return put_zeros(bytes, count);
    }
    match hex::decode(alloc, word) {
        Ok(some) => bytes.extend_from_slice(some.as_slice()),
        Err(_) => Err(AllocError),
    }
}

/// The bytes of a file, given in hexadecimal digits, of which `0*N` are N bytes that are zero.
fn bytes_of(alloc: Global, digits: &str) -> Result<Vec<u8>, AllocError> {
    let mut bytes = Vec::new(alloc);
    for word in digits.split_whitespace() {
        put_word(alloc, &mut bytes, word)?;
    }
    Ok(bytes)
}

/// What is tried over a connection, whatever its store.
pub(crate) trait Trial {
    /// Tries it with these words, and says how it went.
    fn over<S: Alter + Drop>(
        alloc: Global,
        conn: Connection<S>,
        words: &str,
    ) -> Result<String, AllocError>;
}

/// Whether these statements run over a connection.
pub(crate) fn is_run<S: Alter>(conn: &mut Connection<S>, words: &str) -> bool {
    conn.execute_batch(words).is_ok()
}

/// What a trial reports over the database in these files, or that they can't be opened.
pub(crate) fn over_files<D: Disk + Drop, T: Trial>(
    alloc: Global,
    files: Files<D>,
    seed: u64,
    words: &str,
) -> Result<String, AllocError>
    requires log { IsTrue (D.Disk.is_usable files.log) }
    requires db { IsTrue (D.Disk.is_usable files.db) }
{
    match Connection::open_files(alloc, files, Options::new(seed)) {
        Ok(conn) => T::over(alloc, conn, words),
        Err(_) => String::from_str(alloc, "refused"),
    }
}

/// What a trial reports over the database in a file of these bytes, which is an empty one if there are none.
pub(crate) fn over_file<T: Trial>(
    alloc: Global,
    digits: &str,
    words: &str,
) -> Result<String, AllocError> {
    let bytes = bytes_of(alloc, digits)?;
    let db = file_of(alloc, bytes.as_slice())?;
    let log = Memory::new(alloc);
    over_files::<Memory, T>(alloc, Files { log, db }, 1, words)
}

/// The lines of a table, each as it should be: what is tried over an empty database, a bar, and what is printed then.
pub(crate) fn told_lines<T: Trial>(alloc: Global, lines: &str) -> Result<String, AllocError> {
    let mut told = String::new(alloc);
    for line in lines.lines() {
        let words = line.split('|').next().unwrap_or("");
        told.push_str(words)?;
        told.push('|')?;
        told.push_str(over_file::<T>(alloc, "", words)?.as_str())?;
        told.push('\n')?;
    }
    Ok(told)
}
