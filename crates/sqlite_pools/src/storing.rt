//! Changes of the tables of a file.

use crate::tables::{
    ADD_MEMBER, ADD_RANGE, CHANGE_MEMBER, CHANGE_RANGE, CUT_MEMBER, CUT_RANGE, NEXT_MEMBER,
    NEXT_RANGE, kind_text,
};
use number_pools::{Member, NumberRange};
use pool_keeper::tables::PoolChange;
use sqlite::types::ValueRef;
use sqlite::{Alter, Connection, Statement};
use sqlite_calls::{StoreFault, begin, end, prepare_number, prepare_text, run_with, set_number};

/// The statements of a change, prepared.
#[derive(Drop)]
pub(crate) struct Statements {
    add_range: Statement,
    add_member: Statement,
    cut_range: Statement,
    cut_member: Statement,
    change_range: Statement,
    change_member: Statement,
    set_number: Statement,
}

/// Prepares the statements of a change.
pub(crate) fn prepare<S: Alter>(conn: &mut Connection<S>) -> Result<Statements, StoreFault> {
    Ok(Statements {
        add_range: prepare_text(conn, ADD_RANGE)?,
        add_member: prepare_text(conn, ADD_MEMBER)?,
        cut_range: prepare_text(conn, CUT_RANGE)?,
        cut_member: prepare_text(conn, CUT_MEMBER)?,
        change_range: prepare_text(conn, CHANGE_RANGE)?,
        change_member: prepare_text(conn, CHANGE_MEMBER)?,
        set_number: prepare_number(conn)?,
    })
}

/// A number as a value of a column.
fn value_of<'a>(number: u32) -> ValueRef<'a> {
    ValueRef::Int(i64::from(number))
}

fn add_ranges<S: Alter>(
    conn: &mut Connection<S>,
    add: &Statement,
    ranges: &[NumberRange],
) -> Result<(), StoreFault> {
    for range in ranges {
        let values = [
            value_of(range.id),
            ValueRef::Text(kind_text(range.kind).as_bytes()),
            ValueRef::Text(range.name.as_str().as_bytes()),
            value_of(range.first),
            value_of(range.last),
        ];
        run_with(conn, add, &values)?;
    }
    Ok(())
}

fn add_members<S: Alter>(
    conn: &mut Connection<S>,
    add: &Statement,
    members: &[Member],
) -> Result<(), StoreFault> {
    for member in members {
        let values = [
            value_of(member.id),
            value_of(member.range),
            value_of(member.number),
            ValueRef::Text(member.name.as_str().as_bytes()),
        ];
        run_with(conn, add, &values)?;
    }
    Ok(())
}

/// Deletes the row of this id, if there is an id.
fn cut_row<S: Alter>(
    conn: &mut Connection<S>,
    cut: &Statement,
    id: Option<u32>,
) -> Result<(), StoreFault> {
    match id {
        Some(id) => run_with(conn, cut, &[value_of(id)]),
        None => Ok(()),
    }
}

/// Gives the range of this id its name and its bounds, if there is a range.
fn change_range<S: Alter>(
    conn: &mut Connection<S>,
    change: &Statement,
    range: &Option<NumberRange>,
) -> Result<(), StoreFault> {
    let Some(range) = range else {
        return Ok(());
    };
    let values = [
        ValueRef::Text(range.name.as_str().as_bytes()),
        value_of(range.first),
        value_of(range.last),
        value_of(range.id),
    ];
    run_with(conn, change, &values)
}

/// Gives the member of this id its name, if there is a member.
fn change_member<S: Alter>(
    conn: &mut Connection<S>,
    change: &Statement,
    member: &Option<Member>,
) -> Result<(), StoreFault> {
    let Some(member) = member else {
        return Ok(());
    };
    let values = [
        ValueRef::Text(member.name.as_str().as_bytes()),
        value_of(member.id),
    ];
    run_with(conn, change, &values)
}

fn store_parts<S: Alter>(
    conn: &mut Connection<S>,
    statements: &Statements,
    change: &PoolChange,
) -> Result<(), StoreFault> {
    cut_row(conn, &statements.cut_range, change.cut_range)?;
    cut_row(conn, &statements.cut_member, change.cut_member)?;
    change_range(conn, &statements.change_range, &change.changed_range)?;
    change_member(conn, &statements.change_member, &change.changed_member)?;
    add_ranges(conn, &statements.add_range, change.new_ranges.as_slice())?;
    add_members(conn, &statements.add_member, change.new_members.as_slice())?;
    set_number(conn, &statements.set_number, NEXT_RANGE, change.next_range)?;
    set_number(
        conn,
        &statements.set_number,
        NEXT_MEMBER,
        change.next_member,
    )
}

/// Stores a change in one transaction: its cuts, its changed rows, its new rows, its next ids.
pub(crate) fn store<S: Alter>(
    conn: &mut Connection<S>,
    statements: &Statements,
    change: &PoolChange,
) -> Result<(), StoreFault> {
    begin(conn)?;
    let stored = store_parts(conn, statements, change);
    end(conn, stored)
}
