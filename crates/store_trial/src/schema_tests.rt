//! The text of the tables that keepers make: that of model/tables.sql and model/pool_tables.sql, of which the program `sqlite3` made the other
//! databases.

use crate::database::{Trial, over_file};
use crate::{pool_file, register_file};
use ipam_keeper::keeper::Keeper;
use pool_keeper::keeper::PoolKeeper;
use sqlite::{Alter, Connection, Error, Row};
use sqlite_keeper::SqliteKeeper;
use sqlite_pools::SqlitePools;
use std::alloc::{AllocError, Global};
use std::test::Fail;

/// Reads the text of each table, by its name.
const SELECT: &str = "SELECT name, sql FROM sqlite_schema WHERE type = 'table' ORDER BY name";

/// Puts the text of a table and the end of its line.
fn put_text(row: &Row, told: &mut String) -> Result<(), AllocError> {
    let text: Result<String, Error> = row.get(1);
    let Ok(text) = text else {
        return Err(AllocError);
    };
    told.push_str(text.as_str())?;
    told.push('\n')
}

/// The texts in these rows, a line each.
fn texts_of(alloc: Global, rows: &[Row]) -> Result<String, AllocError> {
    let mut told = String::new(alloc);
    for row in rows {
        put_text(row, &mut told)?;
    }
    Ok(told)
}

/// What a database says of its tables.
fn schema_of<S: Alter>(alloc: Global, conn: &mut Connection<S>) -> Result<String, AllocError> {
    match conn.query_all(SELECT, &[]) {
        Ok(rows) => texts_of(alloc, rows.as_slice()),
        Err(_) => Err(AllocError),
    }
}

/// The text of the tables of a register, which a keeper makes if the database has none.
struct OfRegister;

impl Trial for OfRegister {
    fn over<S: Alter + Drop>(
        alloc: Global,
        conn: Connection<S>,
        words: &str,
    ) -> Result<String, AllocError> {
        let _ = words;
        let mut keeper = SqliteKeeper::adopt(alloc, conn);
        let is_loaded = keeper.load().is_ok();
        let mut conn = keeper.into_connection();
        if is_loaded {
            schema_of(alloc, &mut conn)
        } else {
            Err(AllocError)
        }
    }
}

/// The same of pools.
struct OfPools;

impl Trial for OfPools {
    fn over<S: Alter + Drop>(
        alloc: Global,
        conn: Connection<S>,
        words: &str,
    ) -> Result<String, AllocError> {
        let _ = words;
        let mut keeper = SqlitePools::adopt(alloc, conn);
        let is_loaded = keeper.load().is_ok();
        let mut conn = keeper.into_connection();
        if is_loaded {
            schema_of(alloc, &mut conn)
        } else {
            Err(AllocError)
        }
    }
}

#[test]
fn tables_of_a_register_have_the_text_that_is_promised(rt: HostRuntime) -> Result<(), Fail> {
    let made = over_file::<OfRegister>(rt.alloc(), "", "")?;
    let promised = over_file::<OfRegister>(rt.alloc(), register_file::FILE, "")?;
    assert!(rt; made.as_str() == promised.as_str(), "{made}{promised}");
    assert!(rt; made.as_str().lines().count() == 8, "{made}");
    Ok(())
}

#[test]
fn tables_of_pools_have_the_text_that_is_promised(rt: HostRuntime) -> Result<(), Fail> {
    let made = over_file::<OfPools>(rt.alloc(), "", "")?;
    let promised = over_file::<OfPools>(rt.alloc(), pool_file::FILE, "")?;
    assert!(rt; made.as_str() == promised.as_str(), "{made}{promised}");
    assert!(rt; made.as_str().lines().count() == 3, "{made}");
    Ok(())
}
