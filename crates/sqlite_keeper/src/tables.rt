//! The tables of a file: one for each kind, and one of numbers with the version and the next ids.

use ipam_data::kinds::Kind;
use std::alloc::{AllocError, Global};
use stored_tables::migration::{FIRST_VERSION, first_column_names};
use stored_tables::writing::column_names;

/// The name of the row with the version.
pub(crate) const VERSION_NAME: &str = "version";

/// The name of the table of a kind.
fn name_of(kind: Kind) -> &'static str {
    match kind {
        Kind::Vrfs => "vrfs",
        Kind::Rirs => "rirs",
        Kind::Roles => "roles",
        Kind::Aggregates => "aggregates",
        Kind::Prefixes => "prefixes",
        Kind::Ranges => "ip_ranges",
        Kind::Addresses => "ip_addresses",
    }
}

/// The name of the row with the next id of a kind.
pub(crate) fn next_name_of(alloc: Global, kind: Kind) -> Result<String, AllocError> {
    let mut text = String::new(alloc);
    text.push_str("next_")?;
    text.push_str(name_of(kind))?;
    Ok(text)
}

/// The columns of a kind in tables of a version whose rows can be read: version 1, or the one of this program.
pub(crate) fn columns_in(version: u32, kind: Kind) -> &'static [&'static str] {
    if version == FIRST_VERSION {
        first_column_names(kind)
    } else {
        column_names(kind)
    }
}

/// Adds a text for each column.
fn push_columns(
    text: &mut String,
    columns: &[&str],
    front: &str,
    back: &str,
) -> Result<(), AllocError> {
    for column in columns {
        text.push_str(front)?;
        text.push_str(column)?;
        text.push_str(back)?;
    }
    Ok(())
}

/// Makes the table of a kind.
pub(crate) fn create_text(alloc: Global, kind: Kind) -> Result<String, AllocError> {
    let mut text = String::new(alloc);
    text.push_str("CREATE TABLE ")?;
    text.push_str(name_of(kind))?;
    text.push_str(" (id INTEGER PRIMARY KEY")?;
    push_columns(&mut text, column_names(kind), ", ", " TEXT NOT NULL")?;
    text.push_str(") STRICT")?;
    Ok(text)
}

/// Reads all rows of a kind by id, with these columns.
pub(crate) fn select_text(
    alloc: Global,
    kind: Kind,
    columns: &[&str],
) -> Result<String, AllocError> {
    let mut text = String::new(alloc);
    text.push_str("SELECT id")?;
    push_columns(&mut text, columns, ", ", "")?;
    text.push_str(" FROM ")?;
    text.push_str(name_of(kind))?;
    text.push_str(" ORDER BY id")?;
    Ok(text)
}

/// Puts a row of a kind, or replaces the one of its id.
pub(crate) fn put_text(alloc: Global, kind: Kind) -> Result<String, AllocError> {
    let mut text = String::new(alloc);
    text.push_str("INSERT INTO ")?;
    text.push_str(name_of(kind))?;
    text.push_str(" (id")?;
    push_columns(&mut text, column_names(kind), ", ", "")?;
    text.push_str(") VALUES (?")?;
    for _ in column_names(kind) {
        text.push_str(", ?")?;
    }
    text.push_str(") ON CONFLICT (id) DO UPDATE SET id = excluded.id")?;
    for column in column_names(kind) {
        text.push_str(", ")?;
        text.push_str(column)?;
        text.push_str(" = excluded.")?;
        text.push_str(column)?;
    }
    Ok(text)
}

/// Deletes a row of a kind.
pub(crate) fn cut_text(alloc: Global, kind: Kind) -> Result<String, AllocError> {
    let mut text = String::new(alloc);
    text.push_str("DELETE FROM ")?;
    text.push_str(name_of(kind))?;
    text.push_str(" WHERE id = ?")?;
    Ok(text)
}

/// Drops the table of a kind.
pub(crate) fn drop_text(alloc: Global, kind: Kind) -> Result<String, AllocError> {
    let mut text = String::new(alloc);
    text.push_str("DROP TABLE ")?;
    text.push_str(name_of(kind))?;
    Ok(text)
}
