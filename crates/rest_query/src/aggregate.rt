//! Aggregates.

ghost use Rattle.std.specs.Prelude.{◌≡◌, IfOk, OnOk};
ghost use Rattle.ipam_json.specs.Outcomes.{OrMemory};
ghost use Rattle.rest_query.specs.Aggregates.{AreAggregateTests, with_aggregate_filters};
ghost use Rattle.rest_query.specs.Aggregates as spec;
ghost use Rattle.rest_query.specs.Lists.{IsFilterOf, kind_of};
ghost use Rattle.ipam_data.specs.declared.kinds.Kind.TheVariants.{Aggregates};

use crate::asked::AggregateTests;
use crate::query::{add_value, value};
use crate::readings::{family_test, row_test};
use form_urlencoded::Serializer;
use ipam_data::calls::Filter;
use ipam_data::replies::{FieldName, Refusal};
use std::alloc::{AllocError, Global};

/// The parameters of a list of aggregates as they are read.
fn aggregate_tests(alloc: Global, query: &[u8]) -> Result<AggregateTests, AllocError>
    ensures { IfOk result (AreAggregateTests query.now) }
{
    Ok(AggregateTests {
        family: family_test(&value(alloc, query, FieldName::Family)?),
        rir_id: row_test(&value(alloc, query, FieldName::RirId)?),
    })
}

/// The filter that these parameters are.
fn tested(tests: &AggregateTests) -> Result<Filter, Refusal>
    ensures filter { spec.aggregate_filter tests.now ≡ result }
    ensures kind { IfOk result (λ f. kind_of f ≡ Aggregates) }
{
    let Some(family) = tests.family else {
        return Err(Refusal::Field(FieldName::Family));
    };
    let Some(rir_id) = tests.rir_id else {
        return Err(Refusal::Field(FieldName::RirId));
    };
    Ok(Filter::Aggregates { family, rir_id })
}

/// The filter of a list of aggregates.
pub(crate) fn aggregate_filter(alloc: Global, query: &[u8]) -> Result<Filter, Refusal>
    ensures filter { OrMemory (IsFilterOf Aggregates query.now) result }
    ensures kind { IfOk result (λ f. kind_of f ≡ Aggregates) }
{
    match aggregate_tests(alloc, query) {
        Ok(tests) => tested(&tests),
        Err(_) => Err(Refusal::Memory),
    }
}

/// Adds the filters that are given to a form.
pub(crate) fn add_aggregate_filters(
    alloc: Global,
    form: &mut Serializer<Global>,
    query: &[u8],
) -> Result<(), AllocError>
    ensures form { OnOk result (form.new.form ≡ with_aggregate_filters query.now form.old.form) }
    ensures prefix { OnOk result (form.new.prefix ≡ form.old.prefix) }
{
    add_value(alloc, form, query, FieldName::Family)?;
    add_value(alloc, form, query, FieldName::RirId)
}
