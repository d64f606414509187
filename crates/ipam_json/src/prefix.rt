//! Prefixes in JSON: the bodies of a Create and of a Change, and the row.

ghost use Rattle.std.specs.Prelude.{◌≡◌};
ghost use Rattle.inet_num.specs.Text.{block_text_of};
ghost use Rattle.ipam_json.specs.Prefixes.{prefix_data};
ghost use Rattle.ipam_json.specs.Values.{choice_data};
ghost use Rattle.ipam_words.specs.Words.{prefix_status_label as label_of, prefix_status_value as value_of};
ghost use Rattle.ipam_json.specs.Written.{Puts, pieces_of};
ghost use Rattle.serde_json.specs.View.{view};
ghost use Rattle.ipam_json.specs.Outcomes.{OrMemory};
ghost use Rattle.ipam_json.specs.Bodies.{IsObjectOf, IsEditObjectOf};
ghost use Rattle.ipam_data.specs.declared.kinds.Kind.TheVariants.{Prefixes};

use crate::choices::{given_prefix_status, prefix_status};
use crate::members::{description, flag, given_description, given_flag};
use crate::nets::{block, given_block};
use crate::numbers::{given_id, id};
use crate::writing::{
    put_choice, put_family, put_flag, put_id, put_name, put_number, put_reference, put_text,
};
use inet_num::block_text;
use ipam_data::calls::{Draft, Edit};
use ipam_data::prefix::{Prefix, PrefixStatus};
use ipam_data::replies::{FieldName, Refusal};
use ipam_words::{prefix_status_label, prefix_status_value};
use json::Writer;
use serde_json::Value;
use std::alloc::{AllocError, Global};

/// The draft of a prefix that a body asks for.
pub(crate) fn prefix_draft(alloc: Global, body: &Value) -> Result<Draft, Refusal>
    ensures { OrMemory (IsObjectOf Prefixes (view body.now)) result }
{
    let block = block(body)?;
    let vrf = id(body, FieldName::Vrf)?;
    let status = prefix_status(body)?;
    let role = id(body, FieldName::Role)?;
    let is_pool = flag(body, FieldName::IsPool, false)?;
    let mark_utilized = flag(body, FieldName::MarkUtilized, false)?;
    let description = description(alloc, body)?;
    Ok(Draft::Prefix {
        block,
        vrf,
        status,
        role,
        is_pool,
        mark_utilized,
        description,
    })
}

/// The edit of a prefix that a body asks for: an absent member leaves its field.
pub(crate) fn prefix_edit(alloc: Global, body: &Value) -> Result<Edit, Refusal>
    ensures { OrMemory (IsEditObjectOf Prefixes (view body.now)) result }
{
    let block = given_block(body)?;
    let vrf = given_id(body, FieldName::Vrf)?;
    let status = given_prefix_status(body)?;
    let role = given_id(body, FieldName::Role)?;
    let is_pool = given_flag(body, FieldName::IsPool)?;
    let mark_utilized = given_flag(body, FieldName::MarkUtilized)?;
    let description = given_description(alloc, body)?;
    Ok(Edit::Prefix {
        block,
        vrf,
        status,
        role,
        is_pool,
        mark_utilized,
        description,
    })
}

/// Writes a status.
fn put_status(writer: &mut Writer, status: PrefixStatus) -> Result<(), AllocError>
    ensures { Puts result writer.old writer.new (pieces_of (choice_data (label_of status) (value_of status))) }
{
    put_choice(
        writer,
        prefix_status_label(status),
        prefix_status_value(status),
    )
}

/// Writes a prefix, whose block has this text.
fn put_prefix_with(
    writer: &mut Writer,
    row: &Prefix,
    block: &str,
    depth: u32,
    children: u32,
) -> Result<(), AllocError>
    requires { block.now ≡ block_text_of row.now.block }
    ensures { Puts result writer.old writer.new (pieces_of (prefix_data row.now depth children)) }
{
    writer.begin_object()?;
    put_number(writer, "children", children)?;
    put_number(writer, "depth", depth)?;
    put_text(writer, FieldName::Description, row.description.as_str())?;
    put_family(writer, row.block.family())?;
    put_id(writer, row.id)?;
    put_flag(writer, FieldName::IsPool, row.is_pool)?;
    put_flag(writer, FieldName::MarkUtilized, row.mark_utilized)?;
    put_text(writer, FieldName::Prefix, block)?;
    put_reference(writer, FieldName::Role, row.role)?;
    put_name(writer, FieldName::Status)?;
    put_status(writer, row.status)?;
    put_reference(writer, FieldName::Vrf, row.vrf)?;
    writer.end_object()
}

/// Writes a prefix.
pub(crate) fn put_prefix(
    writer: &mut Writer,
    row: &Prefix,
    depth: u32,
    children: u32,
) -> Result<(), AllocError>
    ensures { Puts result writer.old writer.new (pieces_of (prefix_data row.now depth children)) }
{
    put_prefix_with(writer, row, block_text(row.block).as_str(), depth, children)
}
