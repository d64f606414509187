//! The texts of fields.

ghost use Rattle.std.specs.Prelude.{◌≡◌, IfOk, string_bytes};
ghost use Rattle.stored_tables.specs.Stored.{flag_text, optional_text, host_text};
ghost use Rattle.csv_import.specs.Exports.{role_text};

use inet_num::Addr;
use ipam_data::address::AddressRole;
use ipam_data::host::Host;
use ipam_data::text::{Distinguisher, Name};
use ipam_words::address_role_value;
use std::alloc::{AllocError, Global};

/// A truth value.
pub(crate) fn flag_name(flag: bool) -> &'static str
    ensures { result.now ≡ flag_text flag }
{
    if flag { "true" } else { "false" }
}

/// A route distinguisher, or nothing.
pub(crate) fn rd_text(rd: &Option<Distinguisher>) -> &str
    ensures { result.now ≡ optional_text rd.now }
{
    match rd {
        Some(rd) => rd.as_str(),
        None => "",
    }
}

/// A name, or nothing.
pub(crate) fn name_text(name: &Option<Name>) -> &str
    ensures { result.now ≡ optional_text name.now }
{
    match name {
        Some(name) => name.as_str(),
        None => "",
    }
}

/// The role of an address, or nothing.
pub(crate) fn role_name(role: Option<AddressRole>) -> &'static str
    ensures { result.now ≡ role_text role }
{
    match role {
        Some(role) => address_role_value(role),
        None => "",
    }
}

/// An address with its mask.
fn addr_text(alloc: Global, addr: Addr, len: u8) -> Result<String, AllocError>
    ensures { IfOk result (λ s. string_bytes s ≡ host_text addr len) }
{
    format!(in alloc; "{addr}/{len}")
}

/// A host with its mask.
pub(crate) fn host_name(alloc: Global, host: Host) -> Result<String, AllocError>
    ensures { IfOk result (λ s. string_bytes s ≡ host_text host.addr host.len) }
{
    addr_text(alloc, host.addr(), host.len())
}
