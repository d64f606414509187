//! Prefixes.

ghost use Rattle.std.specs.Prelude.{◌≡◌, IfOk, OnOk};
ghost use Rattle.ipam_json.specs.Outcomes.{OrMemory};
ghost use Rattle.ipam_words.specs.Words as words;
ghost use Rattle.rest_query.specs.Prefixes.{ArePrefixTests, with_prefix_filters};
ghost use Rattle.rest_query.specs.Prefixes as spec;
ghost use Rattle.rest_query.specs.Lists.{IsFilterOf, kind_of};
ghost use Rattle.ipam_data.specs.declared.kinds.Kind.TheVariants.{Prefixes};
ghost use Rattle.rest_query.specs.Readings.{test_of};

use crate::asked::PrefixTests;
use crate::query::{add_value, value};
use crate::readings::{area_test, block_test, family_test, id_test};
use form_urlencoded::Serializer;
use ipam_data::calls::Filter;
use ipam_data::prefix::PrefixStatus;
use ipam_data::replies::{FieldName, Refusal};
use ipam_data::text::Text;
use ipam_words::prefix_status_named;
use std::alloc::{AllocError, Global};

/// The test of a status.
fn status_test(text: &Option<Text>) -> Option<Option<PrefixStatus>>
    ensures { result ≡ test_of words.prefix_status_named text.now }
{
    match text {
        None => Some(None),
        Some(text) => prefix_status_named(text.as_str()).map(Some),
    }
}

/// The parameters of a list of prefixes as they are read.
fn prefix_tests(alloc: Global, query: &[u8]) -> Result<PrefixTests, AllocError>
    ensures { IfOk result (ArePrefixTests query.now) }
{
    Ok(PrefixTests {
        family: family_test(&value(alloc, query, FieldName::Family)?),
        vrf_id: id_test(&value(alloc, query, FieldName::VrfId)?),
        status: status_test(&value(alloc, query, FieldName::Status)?),
        role_id: id_test(&value(alloc, query, FieldName::RoleId)?),
        prefix: block_test(&value(alloc, query, FieldName::Prefix)?),
        within: block_test(&value(alloc, query, FieldName::Within)?),
        within_include: block_test(&value(alloc, query, FieldName::WithinInclude)?),
        contains: area_test(&value(alloc, query, FieldName::Contains)?),
    })
}

/// The filter that these parameters are.
fn tested(tests: &PrefixTests) -> Result<Filter, Refusal>
    ensures filter { spec.prefix_filter tests.now ≡ result }
    ensures kind { IfOk result (λ f. kind_of f ≡ Prefixes) }
{
    let Some(family) = tests.family else {
        return Err(Refusal::Field(FieldName::Family));
    };
    let Some(vrf_id) = tests.vrf_id else {
        return Err(Refusal::Field(FieldName::VrfId));
    };
    let Some(status) = tests.status else {
        return Err(Refusal::Field(FieldName::Status));
    };
    let Some(role_id) = tests.role_id else {
        return Err(Refusal::Field(FieldName::RoleId));
    };
    let Some(prefix) = tests.prefix else {
        return Err(Refusal::Field(FieldName::Prefix));
    };
    let Some(within) = tests.within else {
        return Err(Refusal::Field(FieldName::Within));
    };
    let Some(within_include) = tests.within_include else {
        return Err(Refusal::Field(FieldName::WithinInclude));
    };
    let Some(contains) = tests.contains else {
        return Err(Refusal::Field(FieldName::Contains));
    };
    Ok(Filter::Prefixes {
        family,
        vrf_id,
        status,
        role_id,
        prefix,
        within,
        within_include,
        contains,
    })
}

/// The filter of a list of prefixes.
pub(crate) fn prefix_filter(alloc: Global, query: &[u8]) -> Result<Filter, Refusal>
    ensures filter { OrMemory (IsFilterOf Prefixes query.now) result }
    ensures kind { IfOk result (λ f. kind_of f ≡ Prefixes) }
{
    match prefix_tests(alloc, query) {
        Ok(tests) => tested(&tests),
        Err(_) => Err(Refusal::Memory),
    }
}

/// Adds the filters that are given to a form.
pub(crate) fn add_prefix_filters(
    alloc: Global,
    form: &mut Serializer<Global>,
    query: &[u8],
) -> Result<(), AllocError>
    ensures form { OnOk result (form.new.form ≡ with_prefix_filters query.now form.old.form) }
    ensures prefix { OnOk result (form.new.prefix ≡ form.old.prefix) }
{
    add_value(alloc, form, query, FieldName::Family)?;
    add_value(alloc, form, query, FieldName::VrfId)?;
    add_value(alloc, form, query, FieldName::Status)?;
    add_value(alloc, form, query, FieldName::RoleId)?;
    add_value(alloc, form, query, FieldName::Prefix)?;
    add_value(alloc, form, query, FieldName::Within)?;
    add_value(alloc, form, query, FieldName::WithinInclude)?;
    add_value(alloc, form, query, FieldName::Contains)
}
