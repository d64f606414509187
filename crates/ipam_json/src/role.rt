//! Roles in JSON: the bodies of a Create and of a Change, and the row.

ghost use Rattle.ipam_json.specs.Roles.{role_data};
ghost use Rattle.ipam_json.specs.Written.{Puts, pieces_of};
ghost use Rattle.std.specs.Prelude.{◌≡◌};
ghost use Rattle.serde_json.specs.View.{view};
ghost use Rattle.ipam_json.specs.Outcomes.{OrMemory};
ghost use Rattle.ipam_json.specs.Roles as spec;

use crate::members::{description, given_description, given_name, given_slug, name, slug};
use crate::numbers::{given_weight, weight};
use crate::writing::{put_count, put_id, put_text};
use ipam_data::calls::{Draft, Edit};
use ipam_data::replies::{FieldName, Refusal};
use ipam_data::role::Role;
use json::Writer;
use serde_json::Value;
use std::alloc::{AllocError, Global};

/// The draft of a role that a body asks for.
pub(crate) fn role_draft(alloc: Global, body: &Value) -> Result<Draft, Refusal>
    ensures { OrMemory (λ r. spec.role_draft (view body.now) ≡ r) result }
{
    let name = name(alloc, body)?;
    let slug = slug(alloc, body)?;
    let weight = weight(body)?;
    let description = description(alloc, body)?;
    Ok(Draft::Role {
        name,
        slug,
        weight,
        description,
    })
}

/// The edit of a role that a body asks for: an absent member leaves its field.
pub(crate) fn role_edit(alloc: Global, body: &Value) -> Result<Edit, Refusal>
    ensures { OrMemory (λ r. spec.role_edit (view body.now) ≡ r) result }
{
    let name = given_name(alloc, body)?;
    let slug = given_slug(alloc, body)?;
    let weight = given_weight(body)?;
    let description = given_description(alloc, body)?;
    Ok(Edit::Role {
        name,
        slug,
        weight,
        description,
    })
}

/// Writes a role.
pub(crate) fn put_role(writer: &mut Writer, row: &Role) -> Result<(), AllocError>
    ensures { Puts result writer.old writer.new (pieces_of (role_data row.now)) }
{
    writer.begin_object()?;
    put_text(writer, FieldName::Description, row.description.as_str())?;
    put_id(writer, row.id)?;
    put_text(writer, FieldName::Name, row.name.as_str())?;
    put_text(writer, FieldName::Slug, row.slug.as_str())?;
    put_count(writer, FieldName::Weight, u32::from(row.weight.get()))?;
    writer.end_object()
}
