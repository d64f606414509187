//! The table of numbers, each under a name: `meta`.

use crate::calls::{prepare_text, run, run_with};
use crate::fault::StoreFault;
use sqlite::types::ValueRef;
use sqlite::{Alter, Connection, Row, Statement};
use std::alloc::Global;

/// Makes the table.
const CREATE: &str = "CREATE TABLE meta (name TEXT PRIMARY KEY, value INTEGER NOT NULL) STRICT";

/// Reads the numbers.
const SELECT: &str = "SELECT name, value FROM meta";

/// Sets a number.
const PUT: &str =
    "INSERT INTO meta (name, value) VALUES (?, ?) ON CONFLICT (name) DO UPDATE SET value = excluded.value";

/// A number and its name.
#[derive(Drop)]
pub struct Number {
    name: String,
    value: u32,
}

/// Makes the table, without numbers.
pub fn make_numbers<S: Alter>(conn: &mut Connection<S>) -> Result<(), StoreFault> {
    run(conn, CREATE)
}

/// Prepares the statement that sets a number.
pub fn prepare_number<S: Alter>(conn: &mut Connection<S>) -> Result<Statement, StoreFault> {
    prepare_text(conn, PUT)
}

/// Sets the number of this name, by the statement prepared for that.
pub fn set_number<S: Alter>(
    conn: &mut Connection<S>,
    put: &Statement,
    name: &str,
    value: u32,
) -> Result<(), StoreFault> {
    let values = [
        ValueRef::Text(name.as_bytes()),
        ValueRef::Int(i64::from(value)),
    ];
    run_with(conn, put, &values)
}

fn number_of(found: &Row) -> Result<Number, StoreFault> {
    Ok(Number {
        name: found.get(0)?,
        value: found.get(1)?,
    })
}

/// All numbers. One that is not from 0 to 4,294,967,295 is a fault, and so is a file without the table.
pub fn read_numbers<S: Alter>(
    alloc: Global,
    conn: &mut Connection<S>,
) -> Result<Vec<Number>, StoreFault> {
    let mut numbers = Vec::new(alloc);
    let mut found = conn.query(SELECT, &[])?;
    for _ in 0..u64::MAX {
        let Some(row) = found.next()? else {
            return Ok(numbers);
        };
        numbers.push(number_of(row)?)?;
    }
    Ok(numbers)
}

/// The number of this name.
pub fn number_under(numbers: &[Number], name: &str) -> Option<u32> {
    for number in numbers {
        if number.name.as_str() == name {
            return Some(number.value);
        }
    }
    None
}
