//! The rules that a row of an import breaks by itself, and whether it is of the import's kind.

ghost use Rattle.std.specs.Prelude.{◌≡◌};
ghost use Rattle.ipam_data.specs.Addresses.{is_slaac_of_v4};
ghost use Rattle.ipam_data.specs.Checks.{first};
ghost use Rattle.ipam_data.specs.Imports.{ends_rules, host_rules, kind_rule, value_rules, zero_mask};

use crate::address::AddressStatus;
use crate::host::Host;
use crate::host_names::is_dns_name;
use crate::imports::ImportRow;
use crate::kinds::{Kind, is_one_kind};
use crate::replies::{FieldName, Refusal, Rule};
use inet_num::{Family, is_one_family};

/// A range has fewer addresses than this number and one more.
const MOST_OF_RANGE: u128 = 4_294_967_295;

/// The rule that a mask of length 0 breaks.
fn mask_fault(len: u8) -> Option<Rule>
    ensures { result ≡ zero_mask len }
{
    if len == 0 {
        return Some(Rule::ZeroMask);
    }
    None
}

/// The first rule that the ends of a range break by themselves.
fn ends_fault(start: Host, end: Host) -> Option<Rule>
    ensures { result ≡ first (ends_rules start end) }
{
    if !is_one_family(start.addr().family(), end.addr().family()) {
        return Some(Rule::RangeFamily);
    }
    if start.len() != end.len() {
        return Some(Rule::RangeMask);
    }
    if start.len() == 0 {
        return Some(Rule::ZeroMask);
    }
    let first = start.addr().value();
    let last = end.addr().value();
    if last <= first {
        return Some(Rule::RangeOrder);
    }
    if last - first >= MOST_OF_RANGE {
        return Some(Rule::RangeSize);
    }
    None
}

/// Whether SLAAC is said of an address of IPv4.
fn is_slaac_of_ipv4(status: AddressStatus, family: Family) -> bool
    ensures { result ≡ is_slaac_of_v4 status family }
{
    match (status, family) {
        (AddressStatus::Slaac, Family::V4) => true,
        _ => false,
    }
}

/// The first rule that an address breaks by itself.
fn host_fault(host: Host, status: AddressStatus, dns_name: &str) -> Option<Rule>
    ensures { result ≡ first (host_rules host status dns_name.now) }
{
    if host.len() == 0 {
        return Some(Rule::ZeroMask);
    }
    if is_slaac_of_ipv4(status, host.addr().family()) {
        return Some(Rule::SlaacFamily);
    }
    if !is_dns_name(dns_name.as_bytes()) {
        return Some(Rule::DnsName);
    }
    None
}

impl ImportRow {
    /// The refusal of a row that is not of the import's kind: `Field` with the name of a row. It takes no memory.
    pub fn kind_fault(&self, kind: Kind) -> Option<Refusal>
        ensures { result ≡ kind_rule kind self.now }
    {
        if is_one_kind(self.kind(), kind) {
            return None;
        }
        Some(Refusal::Field(FieldName::Row))
    }

    /// The first rule that the row breaks by itself, which no record decides: `ZeroMask`, `RangeFamily`, `RangeMask`, `RangeOrder`,
    /// `RangeSize`, `SlaacFamily` or `DnsName`. It takes no memory.
    pub fn value_fault(&self) -> Option<Rule>
        ensures { result ≡ first (value_rules self.now) }
    {
        match self {
            ImportRow::Vrf { .. } | ImportRow::Rir { .. } | ImportRow::Role { .. } => None,
            ImportRow::Aggregate { block, .. } => mask_fault(block.len()),
            ImportRow::Prefix { block, .. } => mask_fault(block.len()),
            ImportRow::IpRange { start, end, .. } => ends_fault(*start, *end),
            ImportRow::IpAddress {
                host,
                status,
                dns_name,
                ..
            } => host_fault(*host, *status, dns_name.as_str()),
        }
    }
}
