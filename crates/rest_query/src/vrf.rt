//! VRFs.

ghost use Rattle.std.specs.Prelude.{◌≡◌, IfOk, OnOk};
ghost use Rattle.rest_query.specs.Vrfs.{with_vrf_filters};
ghost use Rattle.rest_query.specs.Vrfs as spec;
ghost use Rattle.rest_query.specs.Lists.{kind_of};
ghost use Rattle.ipam_data.specs.declared.kinds.Kind.TheVariants.{Vrfs};

use crate::query::{add_value, value};
use form_urlencoded::Serializer;
use ipam_data::calls::Filter;
use ipam_data::replies::FieldName;
use std::alloc::{AllocError, Global};

/// The filter of a list of VRFs.
pub(crate) fn vrf_filter(alloc: Global, query: &[u8]) -> Result<Filter, AllocError>
    ensures filter { IfOk result (λ f. f ≡ spec.vrf_filter query.now) }
    ensures kind { IfOk result (λ f. kind_of f ≡ Vrfs) }
{
    let name = value(alloc, query, FieldName::Name)?;
    let rd = value(alloc, query, FieldName::Rd)?;
    Ok(Filter::Vrfs { name, rd })
}

/// Adds the filters that are given to a form.
pub(crate) fn add_vrf_filters(
    alloc: Global,
    form: &mut Serializer<Global>,
    query: &[u8],
) -> Result<(), AllocError>
    ensures form { OnOk result (form.new.form ≡ with_vrf_filters query.now form.old.form) }
    ensures prefix { OnOk result (form.new.prefix ≡ form.old.prefix) }
{
    add_value(alloc, form, query, FieldName::Name)?;
    add_value(alloc, form, query, FieldName::Rd)
}
