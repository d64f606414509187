//! The tables of a file, read whole.

ghost use Rattle.std.specs.Prelude.{IfOk};
ghost use Rattle.stored_tables.specs.Order.{AreTables};

use crate::making::make_tables;
use crate::order::are_in_order;
use crate::tables::{VERSION_NAME, columns_in, next_name_of, select_text};
use ipam_data::kinds::Kind;
use ipam_data::update::Ids;
use sqlite::{Alter, Connection, Row as FoundRow};
use sqlite_calls::{Number, StoreFault, number_under, read_numbers};
use std::alloc::Global;
use stored_tables::migration::FIRST_VERSION;
use stored_tables::tables::{Row, Rows, Tables, Text, Texts, VERSION};

/// Puts the next id of a kind after others, if it is among the numbers.
fn push_next(
    alloc: Global,
    numbers: &[Number],
    kind: Kind,
    next: &mut Vec<(Kind, u32)>,
) -> Result<(), StoreFault> {
    let name = next_name_of(alloc, kind)?;
    if let Some(value) = number_under(numbers, name.as_str()) {
        next.push((kind, value))?;
    }
    Ok(())
}

/// The next ids that are among the numbers, in the order of the kinds.
fn next_ids(alloc: Global, numbers: &[Number]) -> Result<Ids, StoreFault> {
    let mut next = Vec::new(alloc);
    push_next(alloc, numbers, Kind::Vrfs, &mut next)?;
    push_next(alloc, numbers, Kind::Rirs, &mut next)?;
    push_next(alloc, numbers, Kind::Roles, &mut next)?;
    push_next(alloc, numbers, Kind::Aggregates, &mut next)?;
    push_next(alloc, numbers, Kind::Prefixes, &mut next)?;
    push_next(alloc, numbers, Kind::Ranges, &mut next)?;
    push_next(alloc, numbers, Kind::Addresses, &mut next)?;
    Ok(Ids::of(next))
}

/// The texts of a row that was found.
fn texts_of(alloc: Global, found: &FoundRow, count: usize) -> Result<Texts, StoreFault> {
    let mut texts = Vec::with_capacity(alloc, count)?;
    for at in 0..count {
        let text: String = found.get(at.saturating_add(1))?;
        texts.push(Text::of(text))?;
    }
    Ok(Texts::of(texts))
}

fn row_of(alloc: Global, kind: Kind, found: &FoundRow, count: usize) -> Result<Row, StoreFault> {
    Ok(Row {
        kind,
        id: found.get(0)?,
        fields: texts_of(alloc, found, count)?,
    })
}

/// Reads all rows of a kind of tables of this version, after those that exist.
fn read_rows<S: Alter>(
    alloc: Global,
    conn: &mut Connection<S>,
    version: u32,
    kind: Kind,
    rows: &mut Vec<Row>,
) -> Result<(), StoreFault> {
    let columns = columns_in(version, kind);
    let text = select_text(alloc, kind, columns)?;
    let mut found = conn.query(text.as_str(), &[])?;
    for _ in 0..u64::MAX {
        let Some(row) = found.next()? else {
            return Ok(());
        };
        rows.push(row_of(alloc, kind, row, columns.len())?)?;
    }
    Ok(())
}

/// Reads the rows of all kinds of tables of this version, kind after kind.
fn read_kinds<S: Alter>(
    alloc: Global,
    conn: &mut Connection<S>,
    version: u32,
    rows: &mut Vec<Row>,
) -> Result<(), StoreFault> {
    read_rows(alloc, conn, version, Kind::Vrfs, rows)?;
    read_rows(alloc, conn, version, Kind::Rirs, rows)?;
    read_rows(alloc, conn, version, Kind::Roles, rows)?;
    read_rows(alloc, conn, version, Kind::Aggregates, rows)?;
    read_rows(alloc, conn, version, Kind::Prefixes, rows)?;
    read_rows(alloc, conn, version, Kind::Ranges, rows)?;
    read_rows(alloc, conn, version, Kind::Addresses, rows)
}

/// All rows of tables of this program's version or of version 1. Of tables of another one none are read, since their columns are not
/// known.
fn read_all<S: Alter>(
    alloc: Global,
    conn: &mut Connection<S>,
    version: u32,
) -> Result<Rows, StoreFault> {
    let mut rows = Vec::new(alloc);
    if version == VERSION || version == FIRST_VERSION {
        read_kinds(alloc, conn, version, &mut rows)?;
    }
    Ok(Rows::of(rows))
}

/// The tables as they are in the file. A file without a version is a fault.
fn read_tables<S: Alter>(alloc: Global, conn: &mut Connection<S>) -> Result<Tables, StoreFault> {
    let numbers = read_numbers(alloc, conn)?;
    let Some(version) = number_under(numbers.as_slice(), VERSION_NAME) else {
        return Err(StoreFault::Failed);
    };
    Ok(Tables {
        version,
        next: next_ids(alloc, numbers.as_slice())?,
        rows: read_all(alloc, conn, version)?,
    })
}

/// The tables of a file, which are made if it has none. Tables that are not in order are a fault.
pub(crate) fn load_tables<S: Alter>(
    alloc: Global,
    conn: &mut Connection<S>,
) -> Result<Tables, StoreFault>
    ensures { IfOk result (λ tables. AreTables tables) }
{
    make_tables(alloc, conn)?;
    let tables = read_tables(alloc, conn)?;
    if !are_in_order(&tables) {
        return Err(StoreFault::Failed);
    }
    Ok(tables)
}
