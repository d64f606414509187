//! The header of a file: columns of the kind, in any order.

ghost use Rattle.std.specs.Prelude.{◌≡◌, ◌<◌, ◌≤◌, [], length, get_or, bytes_eq, count_by};
ghost use Rattle.std.specs.List.{list_all};
ghost use Rattle.csv.specs.Records.{fields_of};
ghost use Rattle.csv_import.specs.Columns.{is_column, is_met, is_header};

use crate::cells::has_name;
use crate::columns::{Column, kind_columns};
use csv::ByteRecord;
use ipam_data::kinds::Kind;
use ipam_words::field_name;

/// Whether the name at this place is that of a column.
fn is_known(columns: &[Column], header: &ByteRecord, i: usize) -> bool
    requires { i < length (fields_of header.now) }
    ensures { result ≡ is_column columns.now (get_or (fields_of header.now) i []) }
{
    for column in columns {
        if has_name(header, i, field_name(column.name)) {
            return true;
        }
    }
    false
}

/// Whether each name is that of a column.
fn are_known(columns: &[Column], header: &ByteRecord) -> bool
    ensures { result ≡ list_all (is_column columns.now) (fields_of header.now) }
{
    for i in 0..header.len() {
        if !is_known(columns, header, i) {
            return false;
        }
    }
    true
}

/// How often the name occurs in the header.
fn times(header: &ByteRecord, name: &str) -> usize
    ensures { result ≡ count_by (bytes_eq name.now) (fields_of header.now) }
{
    let mut n = 0;
    for i in 0..header.len() {
        if has_name(header, i, name) {
            n += 1;
        }
    }
    n
}

/// Whether the column is in the header once at most, and once if it is required.
fn fits(header: &ByteRecord, column: &Column) -> bool
    ensures { result ≡ is_met (fields_of header.now) column.now }
{
    let n = times(header, field_name(column.name));
    n <= 1 && (!column.required || n >= 1)
}

/// Whether each column is as it has to.
fn are_met(columns: &[Column], header: &ByteRecord) -> bool
    ensures { result ≡ list_all (is_met (fields_of header.now)) columns.now }
{
    for column in columns {
        if !fits(header, column) {
            return false;
        }
    }
    true
}

/// Whether the header names columns of the kind, none twice, and all that are required.
pub(crate) fn is_header(kind: Kind, header: &ByteRecord) -> bool
    ensures { result ≡ is_header kind (fields_of header.now) }
{
    let columns = kind_columns(kind);
    are_known(columns, header) && are_met(columns, header)
}
