//! RIRs.

ghost use Rattle.std.specs.Prelude.{◌≡◌, IfOk, OnOk};
ghost use Rattle.rest_query.specs.Rirs.{with_rir_filters};
ghost use Rattle.rest_query.specs.Rirs as spec;
ghost use Rattle.rest_query.specs.Lists.{kind_of};
ghost use Rattle.ipam_data.specs.declared.kinds.Kind.TheVariants.{Rirs};

use crate::query::{add_value, value};
use form_urlencoded::Serializer;
use ipam_data::calls::Filter;
use ipam_data::replies::FieldName;
use std::alloc::{AllocError, Global};

/// The filter of a list of RIRs.
pub(crate) fn rir_filter(alloc: Global, query: &[u8]) -> Result<Filter, AllocError>
    ensures filter { IfOk result (λ f. f ≡ spec.rir_filter query.now) }
    ensures kind { IfOk result (λ f. kind_of f ≡ Rirs) }
{
    let name = value(alloc, query, FieldName::Name)?;
    let slug = value(alloc, query, FieldName::Slug)?;
    Ok(Filter::Rirs { name, slug })
}

/// Adds the filters that are given to a form.
pub(crate) fn add_rir_filters(
    alloc: Global,
    form: &mut Serializer<Global>,
    query: &[u8],
) -> Result<(), AllocError>
    ensures form { OnOk result (form.new.form ≡ with_rir_filters query.now form.old.form) }
    ensures prefix { OnOk result (form.new.prefix ≡ form.old.prefix) }
{
    add_value(alloc, form, query, FieldName::Name)?;
    add_value(alloc, form, query, FieldName::Slug)
}
