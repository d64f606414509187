//! Single statements, and transactions.

use crate::fault::StoreFault;
use sqlite::types::ValueRef;
use sqlite::{Alter, Connection, Statement};

/// Says how many tables a file has.
const COUNT_TABLES: &str = "SELECT count(*) FROM sqlite_schema WHERE type = 'table'";

/// Runs a statement without values.
pub fn run<S: Alter>(conn: &mut Connection<S>, text: &str) -> Result<(), StoreFault> {
    conn.execute(text, &[])?;
    Ok(())
}

/// Prepares the statement of a text.
pub fn prepare_text<S: Alter>(
    conn: &mut Connection<S>,
    text: &str,
) -> Result<Statement, StoreFault> {
    Ok(conn.prepare(text)?)
}

/// Runs a prepared statement with these values.
pub fn run_with<S: Alter>(
    conn: &mut Connection<S>,
    statement: &Statement,
    values: &[ValueRef<'_>],
) -> Result<(), StoreFault> {
    statement.execute(conn, values)?;
    Ok(())
}

/// Whether the file has tables.
pub fn has_tables<S: Alter>(conn: &mut Connection<S>) -> Result<bool, StoreFault> {
    let count: u64 = conn.query_row(COUNT_TABLES, &[])?.get(0)?;
    Ok(count > 0)
}

/// Begins a transaction.
pub fn begin<S: Alter>(conn: &mut Connection<S>) -> Result<(), StoreFault> {
    run(conn, "BEGIN")
}

/// Undoes what was begun.
fn undo<S: Alter>(conn: &mut Connection<S>) {
    if !conn.is_autocommit() {
        // If this fails too, the next opening undoes it.
        let _ = conn.execute("ROLLBACK", &[]);
    }
}

/// Commits what was done since the begin, or undoes it if it was stopped.
pub fn end<S: Alter>(
    conn: &mut Connection<S>,
    done: Result<(), StoreFault>,
) -> Result<(), StoreFault> {
    let ended = match done {
        Ok(()) => run(conn, "COMMIT"),
        Err(fault) => Err(fault),
    };
    if ended.is_err() {
        undo(conn);
    }
    ended
}
