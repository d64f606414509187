//! The tables of a file that has none.

use crate::tables::{VERSION_NAME, create_text, next_name_of};
use ipam_data::kinds::Kind;
use sqlite::{Alter, Connection, Statement};
use sqlite_calls::{
    StoreFault, begin, end, has_tables, make_numbers, prepare_number, run, set_number,
};
use std::alloc::Global;
use stored_tables::tables::VERSION;

/// Makes the table of a kind, and notes that its next id is 1.
fn make_kind<S: Alter>(
    alloc: Global,
    conn: &mut Connection<S>,
    put: &Statement,
    kind: Kind,
) -> Result<(), StoreFault> {
    let text = create_text(alloc, kind)?;
    run(conn, text.as_str())?;
    let name = next_name_of(alloc, kind)?;
    set_number(conn, put, name.as_str(), 1)
}

/// Makes the tables of all kinds.
fn make_kinds<S: Alter>(
    alloc: Global,
    conn: &mut Connection<S>,
    put: &Statement,
) -> Result<(), StoreFault> {
    make_kind(alloc, conn, put, Kind::Vrfs)?;
    make_kind(alloc, conn, put, Kind::Rirs)?;
    make_kind(alloc, conn, put, Kind::Roles)?;
    make_kind(alloc, conn, put, Kind::Aggregates)?;
    make_kind(alloc, conn, put, Kind::Prefixes)?;
    make_kind(alloc, conn, put, Kind::Ranges)?;
    make_kind(alloc, conn, put, Kind::Addresses)
}

/// Makes the tables without rows: this version, and each next id is 1.
fn make_all<S: Alter>(alloc: Global, conn: &mut Connection<S>) -> Result<(), StoreFault> {
    make_numbers(conn)?;
    let put = prepare_number(conn)?;
    set_number(conn, &put, VERSION_NAME, VERSION)?;
    make_kinds(alloc, conn, &put)
}

/// Makes the tables if the file has none, whole or not at all.
pub(crate) fn make_tables<S: Alter>(
    alloc: Global,
    conn: &mut Connection<S>,
) -> Result<(), StoreFault> {
    if has_tables(conn)? {
        return Ok(());
    }
    begin(conn)?;
    let made = make_all(alloc, conn);
    end(conn, made)
}
