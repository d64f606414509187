//! RIRs in JSON: the bodies of a Create and of a Change, and the row.

ghost use Rattle.ipam_json.specs.Rirs.{rir_data};
ghost use Rattle.ipam_json.specs.Written.{Puts, pieces_of};
ghost use Rattle.std.specs.Prelude.{◌≡◌};
ghost use Rattle.serde_json.specs.View.{view};
ghost use Rattle.ipam_json.specs.Outcomes.{OrMemory};
ghost use Rattle.ipam_json.specs.Rirs as spec;

use crate::members::{
    description, flag, given_description, given_flag, given_name, given_slug, name, slug,
};
use crate::writing::{put_flag, put_id, put_text};
use ipam_data::calls::{Draft, Edit};
use ipam_data::replies::{FieldName, Refusal};
use ipam_data::rir::Rir;
use json::Writer;
use serde_json::Value;
use std::alloc::{AllocError, Global};

/// The draft of an RIR that a body asks for.
pub(crate) fn rir_draft(alloc: Global, body: &Value) -> Result<Draft, Refusal>
    ensures { OrMemory (λ r. spec.rir_draft (view body.now) ≡ r) result }
{
    let name = name(alloc, body)?;
    let slug = slug(alloc, body)?;
    let is_private = flag(body, FieldName::IsPrivate, false)?;
    let description = description(alloc, body)?;
    Ok(Draft::Rir {
        name,
        slug,
        is_private,
        description,
    })
}

/// The edit of an RIR that a body asks for: an absent member leaves its field.
pub(crate) fn rir_edit(alloc: Global, body: &Value) -> Result<Edit, Refusal>
    ensures { OrMemory (λ r. spec.rir_edit (view body.now) ≡ r) result }
{
    let name = given_name(alloc, body)?;
    let slug = given_slug(alloc, body)?;
    let is_private = given_flag(body, FieldName::IsPrivate)?;
    let description = given_description(alloc, body)?;
    Ok(Edit::Rir {
        name,
        slug,
        is_private,
        description,
    })
}

/// Writes an RIR.
pub(crate) fn put_rir(writer: &mut Writer, row: &Rir) -> Result<(), AllocError>
    ensures { Puts result writer.old writer.new (pieces_of (rir_data row.now)) }
{
    writer.begin_object()?;
    put_text(writer, FieldName::Description, row.description.as_str())?;
    put_id(writer, row.id)?;
    put_flag(writer, FieldName::IsPrivate, row.is_private)?;
    put_text(writer, FieldName::Name, row.name.as_str())?;
    put_text(writer, FieldName::Slug, row.slug.as_str())?;
    writer.end_object()
}
