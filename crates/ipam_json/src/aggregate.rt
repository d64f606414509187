//! Aggregates in JSON: the bodies of a Create and of a Change, and the row.

ghost use Rattle.std.specs.Prelude.{◌≡◌};
ghost use Rattle.inet_num.specs.Text.{block_text_of};
ghost use Rattle.ipam_json.specs.Aggregates.{aggregate_data};
ghost use Rattle.ipam_json.specs.Written.{Puts, pieces_of};
ghost use Rattle.serde_json.specs.View.{view};
ghost use Rattle.ipam_json.specs.Outcomes.{OrMemory};
ghost use Rattle.ipam_json.specs.Bodies.{IsObjectOf, IsEditObjectOf};
ghost use Rattle.ipam_data.specs.declared.kinds.Kind.TheVariants.{Aggregates};

use crate::members::{description, given_description};
use crate::nets::{block, given_block};
use crate::numbers::{given_row_id, row_id};
use crate::writing::{put_count, put_family, put_id, put_text};
use inet_num::block_text;
use ipam_data::aggregate::Aggregate;
use ipam_data::calls::{Draft, Edit};
use ipam_data::replies::{FieldName, Refusal};
use json::Writer;
use serde_json::Value;
use std::alloc::{AllocError, Global};

/// The draft of an aggregate that a body asks for.
pub(crate) fn aggregate_draft(alloc: Global, body: &Value) -> Result<Draft, Refusal>
    ensures { OrMemory (IsObjectOf Aggregates (view body.now)) result }
{
    let block = block(body)?;
    let rir = row_id(body, FieldName::Rir)?;
    let description = description(alloc, body)?;
    Ok(Draft::Aggregate {
        block,
        rir,
        description,
    })
}

/// The edit of an aggregate that a body asks for: an absent member leaves its field.
pub(crate) fn aggregate_edit(alloc: Global, body: &Value) -> Result<Edit, Refusal>
    ensures { OrMemory (IsEditObjectOf Aggregates (view body.now)) result }
{
    let block = given_block(body)?;
    let rir = given_row_id(body, FieldName::Rir)?;
    let description = given_description(alloc, body)?;
    Ok(Edit::Aggregate {
        block,
        rir,
        description,
    })
}

/// Writes an aggregate, whose block has this text.
fn put_aggregate_with(writer: &mut Writer, row: &Aggregate, block: &str) -> Result<(), AllocError>
    requires { block.now ≡ block_text_of row.now.block }
    ensures { Puts result writer.old writer.new (pieces_of (aggregate_data row.now)) }
{
    writer.begin_object()?;
    put_text(writer, FieldName::Description, row.description.as_str())?;
    put_family(writer, row.block.family())?;
    put_id(writer, row.id)?;
    put_text(writer, FieldName::Prefix, block)?;
    put_count(writer, FieldName::Rir, row.rir)?;
    writer.end_object()
}

/// Writes an aggregate.
pub(crate) fn put_aggregate(writer: &mut Writer, row: &Aggregate) -> Result<(), AllocError>
    ensures { Puts result writer.old writer.new (pieces_of (aggregate_data row.now)) }
{
    put_aggregate_with(writer, row, block_text(row.block).as_str())
}
