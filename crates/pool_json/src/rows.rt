//! Rows as they are answered.

ghost use Rattle.std.specs.Prelude.{◌∷◌, [], decimal};
ghost use Rattle.json.specs.Token.{Token};
ghost use Rattle.ipam_json.specs.Replies.{list_data};
ghost use Rattle.serde_json.specs.Data.{object};
ghost use Rattle.ipam_json.specs.Values.{members, number_data};
ghost use Rattle.ipam_json.specs.Written.{Puts, pieces_of, rows_pieces};
ghost use Rattle.pool_json.specs.Rows.{asn_data, bare_asn, member_data, named_asn, range_data, vlan_data};

use json::Writer;
use number_pools::{Member, NumberRange, PoolKind};
use std::alloc::AllocError;

/// Writes a member that is a number.
pub(crate) fn put_number(writer: &mut Writer, name: &str, number: u32) -> Result<(), AllocError>
    ensures { Puts result writer.old writer.new (Token.key name.now ∷ Token.number (decimal number) ∷ []) }
{
    writer.key(name)?;
    writer.u64(u64::from(number))
}

/// Writes a member that is a text.
fn put_text(writer: &mut Writer, name: &str, text: &str) -> Result<(), AllocError>
    ensures { Puts result writer.old writer.new (Token.key name.now ∷ Token.string text.now ∷ []) }
{
    writer.key(name)?;
    writer.string(text)
}

/// Writes a range.
pub(crate) fn put_range(writer: &mut Writer, row: &NumberRange) -> Result<(), AllocError>
    ensures { Puts result writer.old writer.new (pieces_of (range_data row.now)) }
{
    writer.begin_object()?;
    put_number(writer, "end", row.last)?;
    put_number(writer, "id", row.id)?;
    put_text(writer, "name", row.name.as_str())?;
    put_number(writer, "start", row.first)?;
    writer.end_object()
}

/// Writes the number of an autonomous system without a name.
fn put_bare_asn(writer: &mut Writer, row: &Member) -> Result<(), AllocError>
    ensures { Puts result writer.old writer.new (pieces_of (object (members (bare_asn row.now)))) }
{
    writer.begin_object()?;
    put_number(writer, "asn", row.number)?;
    put_number(writer, "id", row.id)?;
    put_number(writer, "range", row.range)?;
    writer.end_object()
}

/// Writes the number of an autonomous system with its name.
fn put_named_asn(writer: &mut Writer, row: &Member) -> Result<(), AllocError>
    ensures { Puts result writer.old writer.new (pieces_of (object (members (named_asn row.now)))) }
{
    writer.begin_object()?;
    put_number(writer, "asn", row.number)?;
    put_number(writer, "id", row.id)?;
    put_text(writer, "name", row.name.as_str())?;
    put_number(writer, "range", row.range)?;
    writer.end_object()
}

/// Writes the number of an autonomous system that is given out: its name only if it has one.
fn put_asn(writer: &mut Writer, row: &Member) -> Result<(), AllocError>
    ensures { Puts result writer.old writer.new (pieces_of (asn_data row.now)) }
{
    if row.name.as_str().is_empty() {
        return put_bare_asn(writer, row);
    }
    put_named_asn(writer, row)
}

/// Writes a VLAN that is given out.
fn put_vlan(writer: &mut Writer, row: &Member) -> Result<(), AllocError>
    ensures { Puts result writer.old writer.new (pieces_of (vlan_data row.now)) }
{
    writer.begin_object()?;
    put_number(writer, "group", row.range)?;
    put_number(writer, "id", row.id)?;
    put_text(writer, "name", row.name.as_str())?;
    put_number(writer, "vid", row.number)?;
    writer.end_object()
}

/// Writes a member of a range of a kind.
pub(crate) fn put_member(
    writer: &mut Writer,
    kind: PoolKind,
    row: &Member,
) -> Result<(), AllocError>
    ensures { Puts result writer.old writer.new (pieces_of (member_data kind row.now)) }
{
    match kind {
        PoolKind::Asn => put_asn(writer, row),
        PoolKind::Vlan => put_vlan(writer, row),
    }
}

/// Writes ranges one after another.
fn put_each_range(writer: &mut Writer, rows: &[NumberRange]) -> Result<(), AllocError>
    ensures { Puts result writer.old writer.new (rows_pieces range_data rows.now) }
{
    for row in rows {
        put_range(writer, row)?;
    }
    Ok(())
}

/// Writes ranges as an array.
pub(crate) fn put_ranges(writer: &mut Writer, rows: &[NumberRange]) -> Result<(), AllocError>
    ensures { Puts result writer.old writer.new (pieces_of (list_data range_data rows.now)) }
{
    writer.begin_array()?;
    put_each_range(writer, rows)?;
    writer.end_array()
}

/// Writes members of ranges of a kind one after another.
fn put_each_member(writer: &mut Writer, kind: PoolKind, rows: &[Member]) -> Result<(), AllocError>
    ensures { Puts result writer.old writer.new (rows_pieces (member_data kind) rows.now) }
{
    for row in rows {
        put_member(writer, kind, row)?;
    }
    Ok(())
}

/// Writes members of ranges of a kind as an array.
pub(crate) fn put_members(
    writer: &mut Writer,
    kind: PoolKind,
    rows: &[Member],
) -> Result<(), AllocError>
    ensures { Puts result writer.old writer.new (pieces_of (list_data (member_data kind) rows.now)) }
{
    writer.begin_array()?;
    put_each_member(writer, kind, rows)?;
    writer.end_array()
}

/// Writes a number.
fn put_one_number(writer: &mut Writer, number: &u32) -> Result<(), AllocError>
    ensures { Puts result writer.old writer.new (pieces_of (number_data number.now)) }
{
    writer.u64(u64::from(*number))
}

/// Writes numbers one after another.
fn put_each_number(writer: &mut Writer, numbers: &[u32]) -> Result<(), AllocError>
    ensures { Puts result writer.old writer.new (rows_pieces number_data numbers.now) }
{
    for number in numbers {
        put_one_number(writer, number)?;
    }
    Ok(())
}

/// Writes numbers as an array.
pub(crate) fn put_numbers(writer: &mut Writer, numbers: &[u32]) -> Result<(), AllocError>
    ensures { Puts result writer.old writer.new (pieces_of (list_data number_data numbers.now)) }
{
    writer.begin_array()?;
    put_each_number(writer, numbers)?;
    writer.end_array()
}
