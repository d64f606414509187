//! The fields of an edit: one that is not given stays.

ghost use Rattle.std.specs.Prelude.{◌≡◌, IfOk};
ghost use Rattle.std.specs.Str.{str_to_ascii_lowercase};
ghost use Rattle.ipam_data.specs.Plans.{edited};

use crate::text::{Description, Distinguisher, DnsName, DnsText, Name, Slug, Weight};
use crate::vrf::copy_distinguisher;
use std::alloc::AllocError;

/// The name.
pub fn edited_name(given: &Option<Name>, old: &Name) -> Result<Name, AllocError>
    ensures { IfOk result (λ t. t ≡ edited given.now old.now) }
{
    match given {
        Some(name) => name.copy(),
        None => old.copy(),
    }
}

/// The slug.
pub fn edited_slug(given: &Option<Slug>, old: &Slug) -> Result<Slug, AllocError>
    ensures { IfOk result (λ t. t ≡ edited given.now old.now) }
{
    match given {
        Some(slug) => slug.copy(),
        None => old.copy(),
    }
}

/// The description.
pub fn edited_description(
    given: &Option<Description>,
    old: &Description,
) -> Result<Description, AllocError>
    ensures { IfOk result (λ t. t ≡ edited given.now old.now) }
{
    match given {
        Some(description) => description.copy(),
        None => old.copy(),
    }
}

/// The route distinguisher, which an edit may take away.
pub fn edited_distinguisher(
    given: &Option<Option<Distinguisher>>,
    old: &Option<Distinguisher>,
) -> Result<Option<Distinguisher>, AllocError>
    ensures { IfOk result (λ t. t ≡ edited given.now old.now) }
{
    match given {
        Some(rd) => copy_distinguisher(rd),
        None => copy_distinguisher(old),
    }
}

/// The name of a host, in lower case.
pub fn edited_dns_name(given: &Option<DnsText>, old: &DnsName) -> Result<DnsName, AllocError>
    ensures { IfOk result (λ t. t ≡ str_to_ascii_lowercase (edited given.now old.now)) }
{
    match given {
        Some(dns_name) => dns_name.lowered(),
        None => {
            old.bounds();
            old.copy()
        }
    }
}

/// A field that is copied as it is.
pub fn edited_value<A: Copy>(given: Option<A>, old: A) -> A
    ensures { result ≡ edited given old }
{
    match given {
        Some(value) => value,
        None => old,
    }
}

/// The weight.
pub fn edited_weight(given: &Option<Weight>, old: Weight) -> Weight
    ensures { result ≡ edited given.now old }
{
    match given {
        Some(weight) => *weight,
        None => old,
    }
}
