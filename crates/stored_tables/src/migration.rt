//! Tables of version 1 become tables of the register's version: each range gets a mark.

ghost use Rattle.std.specs.Prelude.{◌≡◌, ◌≤◌, ◌∷◌, ◌++◌, [], None, false, IfOk, IfErr, OnOk, option_copied, find, take, drop, map, length};
ghost use Rattle.stored_tables.specs.Stored.{flag_text};
ghost use Rattle.stored_tables.specs.Order.{AreTables};
ghost use Rattle.stored_tables.specs.Migration.{first_columns, migrated_fields, migrated_row, migrated, has_wrong_count, is_misshapen, unmigrated, IsUnmigrated, is_range, range_count};
ghost use Rattle.stored_tables.specs.declared.migration.MigrateFault.TheVariants.{Memory};
ghost use Rattle.ipam_data.specs.declared.kinds.Kind.TheVariants as Kind;

use crate::tables::{Row, Rows, Tables, Text, Texts, VERSION};
use crate::writing::{column_names, flag_words};
use ipam_data::kinds::Kind;
use std::alloc::{AllocError, Global};

/// The version of tables in which ranges had no mark.
pub const FIRST_VERSION: u32 = 1;

/// The columns of ranges past the id in version 1, in the order of their texts.
fn first_range_columns() -> &'static [&'static str]
    ensures { map (λ c. c.now) result.now ≡ first_columns Kind.Ranges }
{
    &[
        "start_address",
        "end_address",
        "vrf",
        "status",
        "role",
        "mark_utilized",
        "description",
    ]
}

/// The columns of the stored rows of a kind past the id in version 1.
pub fn first_column_names(kind: Kind) -> &'static [&'static str]
    ensures { map (λ c. c.now) result.now ≡ first_columns kind }
{
    match kind {
        Kind::Ranges => first_range_columns(),
        Kind::Vrfs
        | Kind::Rirs
        | Kind::Roles
        | Kind::Aggregates
        | Kind::Prefixes
        | Kind::Addresses => column_names(kind),
    }
}

/// Why tables are not migrated.
#[derive(Clone, Copy, Debug)]
pub enum MigrateFault {
    /// The tables have this version, which is not 1.
    Version(u32),
    /// The row of this kind and id has another number of texts than it had in version 1.
    BadRow(Kind, u32),
    /// Out of memory.
    Memory,
}

impl From<AllocError> for MigrateFault {
    ghost from_gives = { λ _ fault. fault ≡ Memory };

    fn from(_fault: AllocError) -> MigrateFault {
        MigrateFault::Memory
    }
}

/// Whether the texts are of a range, and not as many as those of one were.
fn has_wrong_texts(row: &Row) -> bool
    ensures { result ≡ is_misshapen row.now }
{
    match row.kind {
        Kind::Ranges => row.fields.as_slice().len() != 7,
        Kind::Vrfs
        | Kind::Rirs
        | Kind::Roles
        | Kind::Aggregates
        | Kind::Prefixes
        | Kind::Addresses => false,
    }
}

/// The first range with another number of texts.
fn first_misshapen(rows: &[Row]) -> Option<&Row>
    ensures { option_copied result ≡ find is_misshapen rows.now }
{
    rows.iter().find(|row| has_wrong_texts(row))
}

/// Adds these texts at the end. `Err` means out of memory.
fn add_texts(items: &mut Vec<Text>, texts: &[Text]) -> Result<(), AllocError>
    ensures { OnOk result (items.new.items ≡ items.old.items ++ texts.now) }
{
    for text in texts {
        items.push(text.copy()?)?;
    }
    Ok(())
}

/// The texts of a range with the mark before the last one. `Err` means out of memory.
fn marked_texts(alloc: Global, texts: &[Text], populated: bool) -> Result<Texts, AllocError>
    requires { length texts.now ≡ 7 }
    ensures { IfOk result (λ t. t ≡ take 6 texts.now ++ (flag_text populated ∷ []) ++ drop 6 texts.now) }
{
    let (front, back) = texts.split_at(6);
    let mut items = Vec::with_capacity(alloc, 8)?;
    add_texts(&mut items, front)?;
    items.push(flag_words(populated))?;
    add_texts(&mut items, back)?;
    Ok(Texts::of(items))
}

/// The row of a range gets the mark, and every other one stays. `Err` means out of memory.
fn migrate_row(alloc: Global, row: &Row, populated: bool) -> Result<Row, AllocError>
    requires { is_misshapen row.now ≡ false }
    ensures { IfOk result (λ r. r ≡ migrated_row populated row.now) }
{
    match row.kind {
        Kind::Ranges => Ok(Row {
            kind: Kind::Ranges,
            id: row.id,
            fields: marked_texts(alloc, row.fields.as_slice(), populated)?,
        }),
        Kind::Vrfs
        | Kind::Rirs
        | Kind::Roles
        | Kind::Aggregates
        | Kind::Prefixes
        | Kind::Addresses => row.copy(),
    }
}

/// All rows, so. `Err` means out of memory.
fn migrate_rows(alloc: Global, rows: &[Row], populated: bool) -> Result<Rows, AllocError>
    requires { find is_misshapen rows.now ≡ None }
    ensures { IfOk result (λ r. r ≡ map (migrated_row populated) rows.now) }
{
    let mut items = Vec::with_capacity(alloc, rows.len())?;
    for row in rows {
        items.push(migrate_row(alloc, row, populated)?)?;
    }
    Ok(Rows::of(items))
}

/// Tables of version 1 as tables of the register's version: each range is marked as populated, or each is not. `Version` is returned
/// exactly if the version is not 1, and `BadRow` exactly if that is not so and the row of a range does not have seven texts, with the first
/// such one. `Memory` means out of memory.
pub fn migrate(tables: &Tables, populated: bool) -> Result<Tables, MigrateFault>
    ensures ok { IfOk result (λ t. (unmigrated tables.now ≡ None) × (t ≡ migrated populated tables.now)) }
    ensures order { AreTables tables.now → IfOk result AreTables }
    ensures err { IfErr result (IsUnmigrated tables.now) }
{
    if tables.version != FIRST_VERSION {
        return Err(MigrateFault::Version(tables.version));
    }
    match first_misshapen(tables.rows.as_slice()) {
        Some(row) => return Err(MigrateFault::BadRow(row.kind, row.id)),
        None => {}
    }
    let alloc = tables.rows.allocator();
    Ok(Tables {
        version: VERSION,
        next: tables.next.copy(alloc)?,
        rows: migrate_rows(alloc, tables.rows.as_slice(), populated)?,
    })
}

/// Whether the row is one of a range.
fn is_of_range(row: &Row) -> bool
    ensures { result ≡ is_range row.now.kind }
{
    match row.kind {
        Kind::Ranges => true,
        Kind::Vrfs
        | Kind::Rirs
        | Kind::Roles
        | Kind::Aggregates
        | Kind::Prefixes
        | Kind::Addresses => false,
    }
}

/// How many ranges the tables have.
pub fn count_ranges(tables: &Tables) -> usize
    ensures { result ≡ range_count tables.now }
{
    tables
        .rows
        .as_slice()
        .iter()
        .filter(|row| is_of_range(row))
        .count()
}
