//! Roles.

ghost use Rattle.std.specs.Prelude.{◌≡◌, IfOk, OnOk};
ghost use Rattle.rest_query.specs.Roles.{with_role_filters};
ghost use Rattle.rest_query.specs.Roles as spec;
ghost use Rattle.rest_query.specs.Lists.{kind_of};
ghost use Rattle.ipam_data.specs.declared.kinds.Kind.TheVariants.{Roles};

use crate::query::{add_value, value};
use form_urlencoded::Serializer;
use ipam_data::calls::Filter;
use ipam_data::replies::FieldName;
use std::alloc::{AllocError, Global};

/// The filter of a list of roles.
pub(crate) fn role_filter(alloc: Global, query: &[u8]) -> Result<Filter, AllocError>
    ensures filter { IfOk result (λ f. f ≡ spec.role_filter query.now) }
    ensures kind { IfOk result (λ f. kind_of f ≡ Roles) }
{
    let name = value(alloc, query, FieldName::Name)?;
    let slug = value(alloc, query, FieldName::Slug)?;
    Ok(Filter::Roles { name, slug })
}

/// Adds the filters that are given to a form.
pub(crate) fn add_role_filters(
    alloc: Global,
    form: &mut Serializer<Global>,
    query: &[u8],
) -> Result<(), AllocError>
    ensures form { OnOk result (form.new.form ≡ with_role_filters query.now form.old.form) }
    ensures prefix { OnOk result (form.new.prefix ≡ form.old.prefix) }
{
    add_value(alloc, form, query, FieldName::Name)?;
    add_value(alloc, form, query, FieldName::Slug)
}
