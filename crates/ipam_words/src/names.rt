//! Kinds, members and limits by their printed names.

ghost use Rattle.std.specs.Prelude.{◌≡◌};
ghost use Rattle.ipam_data.specs.Answers.{kind_text, field_text, which_text};

use ipam_data::kinds::Kind;
use ipam_data::replies::{FieldName, Which};

/// A kind by its name in a path.
pub fn kind_name(kind: Kind) -> &'static str
    ensures { result.now ≡ kind_text kind }
{
    match kind {
        Kind::Vrfs => "vrfs",
        Kind::Rirs => "rirs",
        Kind::Roles => "roles",
        Kind::Aggregates => "aggregates",
        Kind::Prefixes => "prefixes",
        Kind::Ranges => "ip-ranges",
        Kind::Addresses => "ip-addresses",
    }
}

/// A member or a parameter by its printed name.
pub fn field_name(field: FieldName) -> &'static str
    ensures { result.now ≡ field_text field }
{
    match field {
        FieldName::Address => "address",
        FieldName::Body => "body",
        FieldName::Column => "column",
        FieldName::Contains => "contains",
        FieldName::Description => "description",
        FieldName::DnsName => "dns_name",
        FieldName::EndAddress => "end_address",
        FieldName::EnforceUnique => "enforce_unique",
        FieldName::Family => "family",
        FieldName::IsPool => "is_pool",
        FieldName::IsPrivate => "is_private",
        FieldName::Limit => "limit",
        FieldName::MarkPopulated => "mark_populated",
        FieldName::MarkUtilized => "mark_utilized",
        FieldName::Name => "name",
        FieldName::Offset => "offset",
        FieldName::Parent => "parent",
        FieldName::Prefix => "prefix",
        FieldName::PrefixLength => "prefix_length",
        FieldName::Rd => "rd",
        FieldName::Rir => "rir",
        FieldName::RirId => "rir_id",
        FieldName::Role => "role",
        FieldName::RoleId => "role_id",
        FieldName::Row => "row",
        FieldName::Slug => "slug",
        FieldName::StartAddress => "start_address",
        FieldName::Status => "status",
        FieldName::Vrf => "vrf",
        FieldName::VrfId => "vrf_id",
        FieldName::Weight => "weight",
        FieldName::Within => "within",
        FieldName::WithinInclude => "within_include",
    }
}

/// What a limit counts.
pub fn which_name(which: Which) -> &'static str
    ensures { result.now ≡ which_text which }
{
    match which {
        Which::Kind(kind) => kind_name(kind),
        Which::Claims => "claims",
        Which::Rows => "rows",
        Which::Log => "log",
        Which::Ids => "ids",
    }
}
