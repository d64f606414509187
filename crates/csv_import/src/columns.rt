//! The columns of a file: those of each kind, in order.

ghost use Rattle.std.specs.Prelude.{◌≡◌};
ghost use Rattle.csv_import.specs.Columns.{columns_of};

use ipam_data::kinds::Kind;
use ipam_data::replies::FieldName;

/// A column, and whether it is required.
#[derive(Clone, Copy, Debug)]
pub struct Column {
    pub name: FieldName,
    pub required: bool,
}

/// The columns of VRFs.
fn vrf_columns() -> &'static [Column]
    ensures { result.now ≡ columns_of Kind.Vrfs }
{
    &[
        Column {
            name: FieldName::Name,
            required: true,
        },
        Column {
            name: FieldName::Rd,
            required: false,
        },
        Column {
            name: FieldName::EnforceUnique,
            required: false,
        },
        Column {
            name: FieldName::Description,
            required: false,
        },
    ]
}

/// The columns of RIRs.
fn rir_columns() -> &'static [Column]
    ensures { result.now ≡ columns_of Kind.Rirs }
{
    &[
        Column {
            name: FieldName::Name,
            required: true,
        },
        Column {
            name: FieldName::Slug,
            required: true,
        },
        Column {
            name: FieldName::IsPrivate,
            required: false,
        },
        Column {
            name: FieldName::Description,
            required: false,
        },
    ]
}

/// The columns of roles.
fn role_columns() -> &'static [Column]
    ensures { result.now ≡ columns_of Kind.Roles }
{
    &[
        Column {
            name: FieldName::Name,
            required: true,
        },
        Column {
            name: FieldName::Slug,
            required: true,
        },
        Column {
            name: FieldName::Weight,
            required: false,
        },
        Column {
            name: FieldName::Description,
            required: false,
        },
    ]
}

/// The columns of aggregates.
fn aggregate_columns() -> &'static [Column]
    ensures { result.now ≡ columns_of Kind.Aggregates }
{
    &[
        Column {
            name: FieldName::Prefix,
            required: true,
        },
        Column {
            name: FieldName::Rir,
            required: true,
        },
        Column {
            name: FieldName::Description,
            required: false,
        },
    ]
}

/// The columns of prefixes.
fn prefix_columns() -> &'static [Column]
    ensures { result.now ≡ columns_of Kind.Prefixes }
{
    &[
        Column {
            name: FieldName::Prefix,
            required: true,
        },
        Column {
            name: FieldName::Vrf,
            required: false,
        },
        Column {
            name: FieldName::Status,
            required: false,
        },
        Column {
            name: FieldName::Role,
            required: false,
        },
        Column {
            name: FieldName::IsPool,
            required: false,
        },
        Column {
            name: FieldName::MarkUtilized,
            required: false,
        },
        Column {
            name: FieldName::Description,
            required: false,
        },
    ]
}

/// The columns of ranges.
fn range_columns() -> &'static [Column]
    ensures { result.now ≡ columns_of Kind.Ranges }
{
    &[
        Column {
            name: FieldName::StartAddress,
            required: true,
        },
        Column {
            name: FieldName::EndAddress,
            required: true,
        },
        Column {
            name: FieldName::Vrf,
            required: false,
        },
        Column {
            name: FieldName::Status,
            required: false,
        },
        Column {
            name: FieldName::Role,
            required: false,
        },
        Column {
            name: FieldName::MarkUtilized,
            required: false,
        },
        Column {
            name: FieldName::MarkPopulated,
            required: false,
        },
        Column {
            name: FieldName::Description,
            required: false,
        },
    ]
}

/// The columns of addresses.
fn address_columns() -> &'static [Column]
    ensures { result.now ≡ columns_of Kind.Addresses }
{
    &[
        Column {
            name: FieldName::Address,
            required: true,
        },
        Column {
            name: FieldName::Vrf,
            required: false,
        },
        Column {
            name: FieldName::Status,
            required: false,
        },
        Column {
            name: FieldName::Role,
            required: false,
        },
        Column {
            name: FieldName::DnsName,
            required: false,
        },
        Column {
            name: FieldName::Description,
            required: false,
        },
    ]
}

/// The columns of a kind, in order.
pub(crate) fn kind_columns(kind: Kind) -> &'static [Column]
    ensures { result.now ≡ columns_of kind }
{
    match kind {
        Kind::Vrfs => vrf_columns(),
        Kind::Rirs => rir_columns(),
        Kind::Roles => role_columns(),
        Kind::Aggregates => aggregate_columns(),
        Kind::Prefixes => prefix_columns(),
        Kind::Ranges => range_columns(),
        Kind::Addresses => address_columns(),
    }
}
