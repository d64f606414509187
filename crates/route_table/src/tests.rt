//! Paths, and what a table of routes says of them, one to a line.

use crate::RouteTable;
use std::alloc::{AllocError, Global};
use std::test::Fail;

/// Routes in no order: two that have their front in common, two with a word after the piece, one with a piece that is the end of a
/// segment.
fn table(alloc: Global) -> Result<RouteTable<&'static str>, AllocError> {
    let mut table = RouteTable::new(alloc);
    table.add_around("/books/", "/pages/", "pages")?;
    table.add_whole("/books/", "all")?;
    table.add_around("/books/", "/", "book")?;
    table.add_whole("/books/new/", "new")?;
    table.add_around("/v", "/books/", "version")?;
    table.add_around("/books/", "/pages/last/", "last")?;
    Ok(table)
}

/// A path, and the value and the piece that it leads to.
const CASES: &str = "/books/ = all
/books/7/ = book 7
/books/new/ = new
/books/new/pages/ = pages new
/books/ne/ = book ne
/books/news/ = book news
/books/7/pages/ = pages 7
/books/7/pages/last/ = last 7
/books/a%2fb/ = book a%2fb
/books/{id}/ = book {id}
/books/é/ = book é
/v2/books/ = version 2
/books = none
/books/7 = none
/books// = none
/books/7// = none
/books/7/8/ = none
/books//pages/ = none
/books/7/page/ = none
/books/7/pages = none
/books/7/pages/first/ = none
/books/?page=2 = none
/v/books/ = none
/v2/3/books/ = none
//books/ = none
/Books/ = none
/ = none
 = none";

/// What the table says of a path.
fn said(alloc: Global, table: &RouteTable<&'static str>, path: &str) -> Result<String, AllocError> {
    let Some(found) = table.find(path) else {
        return String::from_str(alloc, "none");
    };
    match found.piece {
        Some(piece) => format!(in alloc; "{} {piece}", *found.value),
        None => String::from_str(alloc, *found.value),
    }
}

#[test]
fn paths_lead_where_they_should(rt: HostRuntime) -> Result<(), Fail> {
    let table = table(rt.alloc())?;
    for line in CASES.split('\n') {
        let Some((path, want)) = line.split_once(" = ") else {
            return Err("no case".into());
        };
        let text = said(rt.alloc(), &table, path)?;
        assert_eq!(rt; text.as_str(), want, "at {path}");
    }
    Ok(())
}
