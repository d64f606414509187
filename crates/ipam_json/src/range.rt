//! Ranges in JSON: the bodies of a Create and of a Change, and the row.

ghost use Rattle.std.specs.Prelude.{◌≡◌};
ghost use Rattle.inet_num.specs.Blocks as blocks;
ghost use Rattle.ipam_json.specs.Ranges.{range_data};
ghost use Rattle.ipam_json.specs.Sizes as sizes;
ghost use Rattle.ipam_json.specs.Values.{choice_data};
ghost use Rattle.ipam_json.specs.Values as values;
ghost use Rattle.ipam_words.specs.Words.{range_status_label as label_of, range_status_value as value_of};
ghost use Rattle.ipam_json.specs.Written.{Puts, pieces_of};
ghost use Rattle.serde_json.specs.View.{view};
ghost use Rattle.ipam_json.specs.Outcomes.{OrMemory};
ghost use Rattle.ipam_json.specs.Bodies.{IsObjectOf, IsEditObjectOf};
ghost use Rattle.ipam_data.specs.declared.kinds.Kind.TheVariants.{Ranges};

use crate::choices::{given_range_status, range_status};
use crate::members::{description, flag, given_description, given_flag};
use crate::nets::{given_host, host};
use crate::numbers::{given_id, id};
use crate::writing::{
    put_choice, put_family, put_flag, put_id, put_name, put_number, put_reference, put_text,
};
use inet_num::{Family, host_text};
use ipam_data::calls::{Draft, Edit};
use ipam_data::host::Ends;
use ipam_data::range::{IpRange, RangeStatus};
use ipam_data::replies::{FieldName, Refusal};
use ipam_words::{range_status_label, range_status_value};
use json::Writer;
use serde_json::Value;
use std::alloc::{AllocError, Global};

/// The draft of a range that a body asks for.
pub(crate) fn range_draft(alloc: Global, body: &Value) -> Result<Draft, Refusal>
    ensures { OrMemory (IsObjectOf Ranges (view body.now)) result }
{
    let start = host(body, FieldName::StartAddress);
    let end = host(body, FieldName::EndAddress);
    let start = start?;
    let end = end?;
    let vrf = id(body, FieldName::Vrf)?;
    let status = range_status(body)?;
    let role = id(body, FieldName::Role)?;
    let mark_utilized = flag(body, FieldName::MarkUtilized, false)?;
    let mark_populated = flag(body, FieldName::MarkPopulated, false)?;
    let description = description(alloc, body)?;
    Ok(Draft::IpRange {
        start,
        end,
        vrf,
        status,
        role,
        mark_utilized,
        mark_populated,
        description,
    })
}

/// The edit of a range that a body asks for: an absent member leaves its field.
pub(crate) fn range_edit(alloc: Global, body: &Value) -> Result<Edit, Refusal>
    ensures { OrMemory (IsEditObjectOf Ranges (view body.now)) result }
{
    let start = given_host(body, FieldName::StartAddress);
    let end = given_host(body, FieldName::EndAddress);
    let start = start?;
    let end = end?;
    let vrf = given_id(body, FieldName::Vrf)?;
    let status = given_range_status(body)?;
    let role = given_id(body, FieldName::Role)?;
    let mark_utilized = given_flag(body, FieldName::MarkUtilized)?;
    let mark_populated = given_flag(body, FieldName::MarkPopulated)?;
    let description = given_description(alloc, body)?;
    Ok(Edit::IpRange {
        start,
        end,
        vrf,
        status,
        role,
        mark_utilized,
        mark_populated,
        description,
    })
}

/// Writes a status.
fn put_status(writer: &mut Writer, status: RangeStatus) -> Result<(), AllocError>
    ensures { Puts result writer.old writer.new (pieces_of (choice_data (label_of status) (value_of status))) }
{
    put_choice(
        writer,
        range_status_label(status),
        range_status_value(status),
    )
}

/// Whether the two are one.
fn same_family(one: Family, other: Family) -> bool
    ensures { result ≡ blocks.same_family one other }
{
    match (one, other) {
        (Family::V4, Family::V4) => true,
        (Family::V6, Family::V6) => true,
        _ => false,
    }
}

/// How many addresses a range has, as it is shown.
fn range_size(ends: Ends) -> u32
    ensures { result ≡ sizes.range_size ends }
{
    let start = ends.start();
    let end = ends.end();
    if !same_family(start.family(), end.family()) || end.value() < start.value() {
        return 0;
    }
    let past = end.value() - start.value();
    if past < 4294967295 {
        past as u32 + 1
    } else {
        4294967295
    }
}

/// Writes a range, whose ends have these texts.
fn put_range_with(
    writer: &mut Writer,
    row: &IpRange,
    start: &str,
    end: &str,
) -> Result<(), AllocError>
    requires start { start.now ≡ values.host_text row.now.ends.start row.now.ends.len }
    requires end { end.now ≡ values.host_text row.now.ends.end row.now.ends.len }
    ensures { Puts result writer.old writer.new (pieces_of (range_data row.now)) }
{
    writer.begin_object()?;
    put_text(writer, FieldName::Description, row.description.as_str())?;
    put_text(writer, FieldName::EndAddress, end)?;
    put_family(writer, row.ends.start().family())?;
    put_id(writer, row.id)?;
    put_flag(writer, FieldName::MarkPopulated, row.mark_populated)?;
    put_flag(writer, FieldName::MarkUtilized, row.mark_utilized)?;
    put_reference(writer, FieldName::Role, row.role)?;
    put_number(writer, "size", range_size(row.ends))?;
    put_text(writer, FieldName::StartAddress, start)?;
    put_name(writer, FieldName::Status)?;
    put_status(writer, row.status)?;
    put_reference(writer, FieldName::Vrf, row.vrf)?;
    writer.end_object()
}

/// Writes a range.
pub(crate) fn put_range(writer: &mut Writer, row: &IpRange) -> Result<(), AllocError>
    ensures { Puts result writer.old writer.new (pieces_of (range_data row.now)) }
{
    let start = host_text(row.ends.start(), row.ends.len());
    let end = host_text(row.ends.end(), row.ends.len());
    put_range_with(writer, row, start.as_str(), end.as_str())
}
