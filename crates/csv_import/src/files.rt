//! The rows that the bytes of a file represent.

ghost use Rattle.std.specs.Prelude.{◌≡◌, ◌⊎◌, ◌++◌, ◌∷◌, ◌<◌, ◌^◌, [], List, Ok, Err, IfOk, IfErr, OnOk, length, map};
ghost use Rattle.csv.specs.Records.{fields_of};
ghost use Rattle.ipam_data.specs.declared.replies.RowFault.{RowFault as Fault};
ghost use Rattle.ipam_data.specs.declared.replies.Refusal.TheVariants.{Row, Memory};
ghost use Rattle.csv_import.specs.Rows.{IsRowOf};
ghost use Rattle.csv_import.specs.Files.{AreRowsOf, IsTableOf, IsFileOf, refusal_of};

use crate::header::is_header;
use crate::records::records;
use crate::rows::read_row;
use crate::stops::Stop;
use csv::ByteRecord;
use ipam_data::imports::ImportRow;
use ipam_data::kinds::Kind;
use ipam_data::replies::{FieldName, Part, Refusal, RowFault};
use std::alloc::Global;

/// How many bytes a file may have.
pub const MOST_BYTES: usize = 4_194_304;

/// What a stop at the row with this number is answered.
fn refusal_at(n: u32, stop: Stop) -> Refusal
    ensures { result ≡ refusal_of n stop }
{
    match stop {
        Stop::Fault(fault) => Refusal::Row(n, fault),
        Stop::Memory => Refusal::Memory,
    }
}

/// The row with this number, or its refusal.
fn row_at(
    alloc: Global,
    kind: Kind,
    header: &ByteRecord,
    n: u32,
    line: ByteRecord,
) -> Result<ImportRow, Refusal>
    ensures ok { IfOk result (λ row. IsRowOf kind (fields_of header.now) (fields_of line) (Ok row)) }
    ensures err { IfErr result (λ e. (e ≡ Memory) ⊎ ((fault : Fault) × IsRowOf kind (fields_of header.now) (fields_of line) (Err fault) × (e ≡ Row n fault))) }
{
    match read_row(alloc, kind, header, line) {
        Ok(row) => Ok(row),
        Err(stop) => Err(refusal_at(n, stop)),
    }
}

/// One more row.
fn add(rows: &mut Vec<ImportRow>, row: ImportRow) -> Result<(), Refusal>
    ensures ok { OnOk result (rows.new.items ≡ rows.old.items ++ row ∷ []) }
    ensures err { IfErr result (λ e. e ≡ Memory) }
{
    match rows.push(row) {
        Ok(()) => Ok(()),
        Err(_) => Err(Refusal::Memory),
    }
}

/// The rows under a header, or the refusal of the first that is refused.
fn read_lines(
    alloc: Global,
    kind: Kind,
    header: &ByteRecord,
    lines: Vec<ByteRecord>,
) -> Result<Vec<ImportRow>, Refusal>
    requires few { length lines.items < 2 ^ 32 }
    ensures ok { IfOk result (λ v. AreRowsOf kind (fields_of header.now) 1 (map fields_of lines.items) (Ok v.items)) }
    ensures err { IfErr result (λ e. (e ≡ Memory) ⊎ AreRowsOf kind (fields_of header.now) 1 (map fields_of lines.items) (Err e)) }
{
    let mut rows = Vec::new(alloc);
    let mut n = 0;
    for line in lines {
        n += 1;
        let row = row_at(alloc, kind, header, n, line)?;
        add(&mut rows, row)?;
    }
    Ok(rows)
}

/// The rows of a table, whose first line is its header.
fn read_table(
    alloc: Global,
    kind: Kind,
    mut lines: Vec<ByteRecord>,
) -> Result<Vec<ImportRow>, Refusal>
    requires few { length lines.items < 2 ^ 32 }
    ensures ok { IfOk result (λ v. IsTableOf kind (map fields_of lines.items) (Ok v.items)) }
    ensures err { IfErr result (λ e. (e ≡ Memory) ⊎ IsTableOf kind (map fields_of lines.items) (Err e)) }
{
    if lines.is_empty() {
        return Err(Refusal::Row(0, RowFault::Field(FieldName::Column)));
    }
    let header = lines.remove(0);
    if !is_header(kind, &header) {
        return Err(Refusal::Row(0, RowFault::Field(FieldName::Column)));
    }
    read_lines(alloc, kind, &header, lines)
}

/// What the bytes of a file ask for: the rows of the kind, or the first refusal. `TooLarge` is returned if there are more than
/// 4,194,304 bytes, `Row(0, ..)` if there is no good header, `Row(n, ..)` if row n is the first that is refused, and
/// `Memory` may be returned in place of any answer.
pub fn read_rows(alloc: Global, kind: Kind, bytes: &[u8]) -> Result<Vec<ImportRow>, Refusal>
    ensures ok { IfOk result (λ v. IsFileOf kind bytes.now (Ok v.items)) }
    ensures err { IfErr result (λ e. (e ≡ Memory) ⊎ IsFileOf kind bytes.now (Err e)) }
{
    if bytes.len() > MOST_BYTES {
        return Err(Refusal::TooLarge(Part::Body));
    }
    match records(alloc, bytes) {
        Ok(lines) => read_table(alloc, kind, lines),
        Err(_) => Err(Refusal::Memory),
    }
}
