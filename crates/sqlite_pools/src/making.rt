//! The tables of a file that has none.

use crate::tables::{CREATE_MEMBERS, CREATE_RANGES, NEXT_MEMBER, NEXT_RANGE};
use sqlite::{Alter, Connection};
use sqlite_calls::{
    StoreFault, begin, end, has_tables, make_numbers, prepare_number, run, set_number,
};

/// Makes the tables without rows, and notes that each next id is 1.
fn make_all<S: Alter>(conn: &mut Connection<S>) -> Result<(), StoreFault> {
    make_numbers(conn)?;
    run(conn, CREATE_RANGES)?;
    run(conn, CREATE_MEMBERS)?;
    let put = prepare_number(conn)?;
    set_number(conn, &put, NEXT_RANGE, 1)?;
    set_number(conn, &put, NEXT_MEMBER, 1)
}

/// Makes the tables if the file has none, whole or not at all.
pub(crate) fn make_tables<S: Alter>(conn: &mut Connection<S>) -> Result<(), StoreFault> {
    if has_tables(conn)? {
        return Ok(());
    }
    begin(conn)?;
    let made = make_all(conn);
    end(conn, made)
}
