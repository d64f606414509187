//! Addresses.

ghost use Rattle.std.specs.Prelude.{◌≡◌, IfOk, OnOk};
ghost use Rattle.ipam_json.specs.Outcomes.{OrMemory};
ghost use Rattle.ipam_words.specs.Words as words;
ghost use Rattle.rest_query.specs.Addresses.{AreAddressTests, with_address_filters, lower};
ghost use Rattle.rest_query.specs.Addresses as spec;
ghost use Rattle.rest_query.specs.Lists.{IsFilterOf, kind_of};
ghost use Rattle.ipam_data.specs.declared.kinds.Kind.TheVariants.{Addresses};
ghost use Rattle.rest_query.specs.Readings.{test_of};
ghost use Rattle.rest_query.specs.Query.{value_in};
ghost use Rattle.ipam_data.specs.declared.replies.FieldName.TheVariants.{DnsName};

use crate::asked::AddressTests;
use crate::query::{add_value, value};
use crate::readings::{block_test, family_test, id_test};
use form_urlencoded::Serializer;
use ipam_data::address::{AddressRole, AddressStatus};
use ipam_data::calls::Filter;
use ipam_data::replies::{FieldName, Refusal};
use ipam_data::text::Text;
use ipam_words::{address_role_named, address_status_named};
use std::alloc::{AllocError, Global};

/// The test of a status.
fn status_test(text: &Option<Text>) -> Option<Option<AddressStatus>>
    ensures { result ≡ test_of words.address_status_named text.now }
{
    match text {
        None => Some(None),
        Some(text) => address_status_named(text.as_str()).map(Some),
    }
}

/// The test of a role.
fn role_test(text: &Option<Text>) -> Option<Option<AddressRole>>
    ensures { result ≡ test_of words.address_role_named text.now }
{
    match text {
        None => Some(None),
        Some(text) => address_role_named(text.as_str()).map(Some),
    }
}

/// The parameters of a list of addresses as they are read.
fn address_tests(alloc: Global, query: &[u8]) -> Result<AddressTests, AllocError>
    ensures { IfOk result (AreAddressTests query.now) }
{
    Ok(AddressTests {
        family: family_test(&value(alloc, query, FieldName::Family)?),
        vrf_id: id_test(&value(alloc, query, FieldName::VrfId)?),
        status: status_test(&value(alloc, query, FieldName::Status)?),
        role: role_test(&value(alloc, query, FieldName::Role)?),
        parent: block_test(&value(alloc, query, FieldName::Parent)?),
    })
}

/// The filter that these parameters are.
fn tested(tests: &AddressTests, dns_name: Option<Text>) -> Result<Filter, Refusal>
    ensures filter { spec.address_filter tests.now dns_name ≡ result }
    ensures kind { IfOk result (λ f. kind_of f ≡ Addresses) }
{
    let Some(family) = tests.family else {
        return Err(Refusal::Field(FieldName::Family));
    };
    let Some(vrf_id) = tests.vrf_id else {
        return Err(Refusal::Field(FieldName::VrfId));
    };
    let Some(status) = tests.status else {
        return Err(Refusal::Field(FieldName::Status));
    };
    let Some(role) = tests.role else {
        return Err(Refusal::Field(FieldName::Role));
    };
    let Some(parent) = tests.parent else {
        return Err(Refusal::Field(FieldName::Parent));
    };
    Ok(Filter::Addresses {
        family,
        vrf_id,
        status,
        role,
        parent,
        dns_name,
    })
}

/// The name of a host that is asked for, in lower case.
fn host_name(alloc: Global, query: &[u8]) -> Result<Option<Text>, AllocError>
    ensures { IfOk result (λ t. t ≡ lower (value_in query.now DnsName)) }
{
    match value(alloc, query, FieldName::DnsName)? {
        Some(name) => Ok(Some(Text::of(name.as_str().to_ascii_lowercase(alloc)?))),
        None => Ok(None),
    }
}

/// The filter of a list of addresses.
pub(crate) fn address_filter(alloc: Global, query: &[u8]) -> Result<Filter, Refusal>
    ensures filter { OrMemory (IsFilterOf Addresses query.now) result }
    ensures kind { IfOk result (λ f. kind_of f ≡ Addresses) }
{
    let Ok(tests) = address_tests(alloc, query) else {
        return Err(Refusal::Memory);
    };
    match host_name(alloc, query) {
        Ok(name) => tested(&tests, name),
        Err(_) => Err(Refusal::Memory),
    }
}

/// Adds the filters that are given to a form.
pub(crate) fn add_address_filters(
    alloc: Global,
    form: &mut Serializer<Global>,
    query: &[u8],
) -> Result<(), AllocError>
    ensures form { OnOk result (form.new.form ≡ with_address_filters query.now form.old.form) }
    ensures prefix { OnOk result (form.new.prefix ≡ form.old.prefix) }
{
    add_value(alloc, form, query, FieldName::Family)?;
    add_value(alloc, form, query, FieldName::VrfId)?;
    add_value(alloc, form, query, FieldName::Status)?;
    add_value(alloc, form, query, FieldName::Role)?;
    add_value(alloc, form, query, FieldName::Parent)?;
    add_value(alloc, form, query, FieldName::DnsName)
}
