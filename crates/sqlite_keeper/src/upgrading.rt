//! Tables of an older version in a file become those of this one.

use crate::storing::put_row;
use crate::tables::{VERSION_NAME, create_text, drop_text, put_text};
use ipam_data::kinds::Kind;
use sqlite::{Alter, Connection, Statement};
use sqlite_calls::{StoreFault, begin, end, prepare_number, prepare_text, run, set_number};
use std::alloc::Global;
use stored_tables::tables::{Row, Tables};

/// Fills the table of ranges.
fn put_ranges<S: Alter>(
    alloc: Global,
    conn: &mut Connection<S>,
    put: &Statement,
    rows: &[Row],
) -> Result<(), StoreFault> {
    for row in rows {
        match row.kind {
            Kind::Ranges => put_row(alloc, conn, put, row)?,
            _ => {}
        }
    }
    Ok(())
}

/// Drops the table of ranges, makes it anew and fills it.
fn make_ranges<S: Alter>(
    alloc: Global,
    conn: &mut Connection<S>,
    rows: &[Row],
) -> Result<(), StoreFault> {
    let text = drop_text(alloc, Kind::Ranges)?;
    run(conn, text.as_str())?;
    let text = create_text(alloc, Kind::Ranges)?;
    run(conn, text.as_str())?;
    let text = put_text(alloc, Kind::Ranges)?;
    let put = prepare_text(conn, text.as_str())?;
    put_ranges(alloc, conn, &put, rows)
}

fn upgrade_all<S: Alter>(
    alloc: Global,
    conn: &mut Connection<S>,
    tables: &Tables,
) -> Result<(), StoreFault> {
    make_ranges(alloc, conn, tables.rows.as_slice())?;
    let put = prepare_number(conn)?;
    set_number(conn, &put, VERSION_NAME, tables.version)
}

/// Puts the ranges of these tables and their version in the place of those of the file, in one transaction: all else is the same.
pub(crate) fn upgrade<S: Alter>(
    alloc: Global,
    conn: &mut Connection<S>,
    tables: &Tables,
) -> Result<(), StoreFault> {
    begin(conn)?;
    let done = upgrade_all(alloc, conn, tables);
    end(conn, done)
}
