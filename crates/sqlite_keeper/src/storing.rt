//! Changes of the tables of a file.

use crate::tables::{cut_text, next_name_of, put_text};
use ipam_data::kinds::Kind;
use sqlite::types::ValueRef;
use sqlite::{Alter, Connection, Statement};
use sqlite_calls::{StoreFault, begin, end, prepare_number, prepare_text, run_with, set_number};
use std::alloc::Global;
use stored_tables::tables::{Change, Row};

/// The statements over the table of a kind.
#[derive(Drop)]
struct KindStatements {
    put: Statement,
    cut: Statement,
    next_name: String,
}

/// The statements of a change, prepared: those of each kind in the order of the kinds, and the one that sets a number.
#[derive(Drop)]
pub(crate) struct Statements {
    kinds: Vec<KindStatements>,
    meta: Statement,
}

impl Statements {
    /// Those of a kind. The case that it has none is not reached.
    fn of(&self, kind: Kind) -> Result<&KindStatements, StoreFault> {
        match self.kinds.get(kind.number() as usize - 1) {
            Some(statements) => Ok(statements),
            None => Err(StoreFault::Failed),
        }
    }
}

/// Prepares the statements over the table of a kind, after others.
fn prepare_kind<S: Alter>(
    alloc: Global,
    conn: &mut Connection<S>,
    kind: Kind,
    kinds: &mut Vec<KindStatements>,
) -> Result<(), StoreFault> {
    let put = put_text(alloc, kind)?;
    let put = prepare_text(conn, put.as_str())?;
    let cut = cut_text(alloc, kind)?;
    let cut = prepare_text(conn, cut.as_str())?;
    let next_name = next_name_of(alloc, kind)?;
    kinds.push(KindStatements {
        put,
        cut,
        next_name,
    })?;
    Ok(())
}

/// Prepares those of all kinds.
fn prepare_kinds<S: Alter>(
    alloc: Global,
    conn: &mut Connection<S>,
    kinds: &mut Vec<KindStatements>,
) -> Result<(), StoreFault> {
    prepare_kind(alloc, conn, Kind::Vrfs, kinds)?;
    prepare_kind(alloc, conn, Kind::Rirs, kinds)?;
    prepare_kind(alloc, conn, Kind::Roles, kinds)?;
    prepare_kind(alloc, conn, Kind::Aggregates, kinds)?;
    prepare_kind(alloc, conn, Kind::Prefixes, kinds)?;
    prepare_kind(alloc, conn, Kind::Ranges, kinds)?;
    prepare_kind(alloc, conn, Kind::Addresses, kinds)
}

/// The statements of a change over the tables of a file.
pub(crate) fn prepare<S: Alter>(
    alloc: Global,
    conn: &mut Connection<S>,
) -> Result<Statements, StoreFault> {
    let mut kinds = Vec::new(alloc);
    prepare_kinds(alloc, conn, &mut kinds)?;
    let meta = prepare_number(conn)?;
    Ok(Statements { kinds, meta })
}

pub(crate) fn put_row<S: Alter>(
    alloc: Global,
    conn: &mut Connection<S>,
    put: &Statement,
    row: &Row,
) -> Result<(), StoreFault> {
    let mut values = Vec::new(alloc);
    values.push(ValueRef::Int(i64::from(row.id)))?;
    for text in row.fields.as_slice() {
        values.push(ValueRef::Text(text.as_str().as_bytes()))?;
    }
    run_with(conn, put, values.as_slice())
}

fn cut_row<S: Alter>(conn: &mut Connection<S>, cut: &Statement, id: u32) -> Result<(), StoreFault> {
    run_with(conn, cut, &[ValueRef::Int(i64::from(id))])
}

fn put_rows<S: Alter>(
    alloc: Global,
    conn: &mut Connection<S>,
    statements: &Statements,
    rows: &[Row],
) -> Result<(), StoreFault> {
    for row in rows {
        put_row(alloc, conn, &statements.of(row.kind)?.put, row)?;
    }
    Ok(())
}

fn cut_rows<S: Alter>(
    conn: &mut Connection<S>,
    statements: &Statements,
    cuts: &[(Kind, u32)],
) -> Result<(), StoreFault> {
    for cut in cuts {
        cut_row(conn, &statements.of(cut.0)?.cut, cut.1)?;
    }
    Ok(())
}

fn set_nexts<S: Alter>(
    conn: &mut Connection<S>,
    statements: &Statements,
    nexts: &[(Kind, u32)],
) -> Result<(), StoreFault> {
    for next in nexts {
        let name = statements.of(next.0)?.next_name.as_str();
        set_number(conn, &statements.meta, name, next.1)?;
    }
    Ok(())
}

fn store_parts<S: Alter>(
    alloc: Global,
    conn: &mut Connection<S>,
    statements: &Statements,
    change: &Change,
) -> Result<(), StoreFault> {
    put_rows(alloc, conn, statements, change.puts.as_slice())?;
    cut_rows(conn, statements, change.cuts.as_slice())?;
    set_nexts(conn, statements, change.next.as_slice())
}

/// Stores a change in one transaction: its rows, its cuts, its next ids.
pub(crate) fn store<S: Alter>(
    alloc: Global,
    conn: &mut Connection<S>,
    statements: &Statements,
    change: &Change,
) -> Result<(), StoreFault> {
    begin(conn)?;
    let stored = store_parts(alloc, conn, statements, change);
    end(conn, stored)
}
