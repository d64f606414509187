//! The code of a refusal, and its status (RFC 9110 15).

ghost use Rattle.std.specs.Prelude.{◌≡◌};
ghost use Rattle.ipam_data.specs.Answers as spec;

use http::StatusCode;
use ipam_data::replies::{Refusal, RowFault, Rule};

/// The code of a broken rule.
pub fn rule_code(rule: &Rule) -> &'static str
    ensures { result.now ≡ spec.rule_code rule.now }
{
    match rule {
        Rule::ZeroMask => "zero_mask",
        Rule::HostBits(_) => "host_bits",
        Rule::Duplicate(_) => "duplicate",
        Rule::AggregateOverlap(_) => "aggregate_overlap",
        Rule::RangeOrder => "range_order",
        Rule::RangeFamily => "range_family",
        Rule::RangeMask => "range_mask",
        Rule::RangeSize => "range_size",
        Rule::RangeOverlap(_) => "range_overlap",
        Rule::SlaacFamily => "slaac_family",
        Rule::NameTaken(_) => "name_taken",
        Rule::SlugTaken(_) => "slug_taken",
        Rule::RdTaken(_) => "rd_taken",
        Rule::Coincide(_, _, _) => "coincide",
        Rule::WantedLength => "wanted_length",
        Rule::DnsName => "dns_name",
        Rule::NoSuch(_, _) => "no_such",
        Rule::NoSuchName(_) => "no_such_name",
        Rule::Ambiguous(_, _) => "ambiguous",
        Rule::Populated(_) => "populated",
    }
}

/// The code of a fault of a row.
pub fn fault_code(fault: &RowFault) -> &'static str
    ensures { result.now ≡ spec.fault_code fault.now }
{
    match fault {
        RowFault::Field(_) => "field",
        RowFault::Rule(rule) => rule_code(rule),
        RowFault::Limit(_, _) => "limit",
    }
}

/// The code of a refusal.
pub fn code(refusal: &Refusal) -> &'static str
    ensures { result.now ≡ spec.code_of refusal.now }
{
    match refusal {
        Refusal::BadHead => "bad_head",
        Refusal::TooLarge(_) => "too_large",
        Refusal::Coding => "coding",
        Refusal::NoRoute => "no_route",
        Refusal::Method => "method",
        Refusal::BadJson => "bad_json",
        Refusal::Field(_) => "field",
        Refusal::NotFound(_, _) => "not_found",
        Refusal::Rule(rule) => rule_code(rule),
        Refusal::InUse(_, _) => "in_use",
        Refusal::NoSpace(_) => "no_space",
        Refusal::Limit(_, _) => "limit",
        Refusal::Keeper => "keeper",
        Refusal::Memory => "memory",
        Refusal::Row(_, fault) => fault_code(fault),
    }
}

/// The status of a refusal.
pub fn status(refusal: &Refusal) -> StatusCode
    ensures { result ≡ spec.refusal_status_of refusal.now }
{
    match refusal {
        Refusal::BadHead => StatusCode::BAD_REQUEST,
        Refusal::TooLarge(_) => StatusCode::PAYLOAD_TOO_LARGE,
        Refusal::Coding => StatusCode::NOT_IMPLEMENTED,
        Refusal::NoRoute => StatusCode::NOT_FOUND,
        Refusal::Method => StatusCode::METHOD_NOT_ALLOWED,
        Refusal::BadJson => StatusCode::BAD_REQUEST,
        Refusal::Field(_) => StatusCode::BAD_REQUEST,
        Refusal::NotFound(_, _) => StatusCode::NOT_FOUND,
        Refusal::Rule(_) => StatusCode::BAD_REQUEST,
        Refusal::InUse(_, _) => StatusCode::CONFLICT,
        Refusal::NoSpace(_) => StatusCode::CONFLICT,
        Refusal::Limit(_, _) => StatusCode::INSUFFICIENT_STORAGE,
        Refusal::Keeper => StatusCode::SERVICE_UNAVAILABLE,
        Refusal::Memory => StatusCode::INTERNAL_SERVER_ERROR,
        Refusal::Row(_, _) => StatusCode::BAD_REQUEST,
    }
}
