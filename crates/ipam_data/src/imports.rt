//! The rows of an import: drafts whose VRF, role and RIR are named by their names.

ghost use Rattle.std.specs.Prelude.{◌≡◌};
ghost use Rattle.std.specs.List.{AllByRecursion};
ghost use Rattle.ipam_data.specs.Imports.{HasRowBounds, kind_of_row};

use crate::address::{AddressRole, AddressStatus};
use crate::host::Host;
use crate::kinds::Kind;
use crate::prefix::PrefixStatus;
use crate::range::RangeStatus;
use crate::text::{Description, Distinguisher, DnsText, Name, Slug, Weight};
use crate::vrf::distinguisher_bounds;
use inet_num::Block;
use std::marker::Model;

/// How many rows an import may have.
pub const MOST_ROWS: u32 = 10_000;

/// A row of an import: the fields of its kind without the id. Records of other kinds are named by their names.
#[derive(Debug, Drop)]
pub enum ImportRow {
    Vrf {
        name: Name,
        rd: Option<Distinguisher>,
        enforce_unique: bool,
        description: Description,
    },
    Rir {
        name: Name,
        slug: Slug,
        is_private: bool,
        description: Description,
    },
    Role {
        name: Name,
        slug: Slug,
        weight: Weight,
        description: Description,
    },
    Aggregate {
        block: Block,
        rir: Name,
        description: Description,
    },
    Prefix {
        block: Block,
        vrf: Option<Name>,
        status: PrefixStatus,
        role: Option<Name>,
        is_pool: bool,
        mark_utilized: bool,
        description: Description,
    },
    IpRange {
        start: Host,
        end: Host,
        vrf: Option<Name>,
        status: RangeStatus,
        role: Option<Name>,
        mark_utilized: bool,
        mark_populated: bool,
        description: Description,
    },
    IpAddress {
        host: Host,
        vrf: Option<Name>,
        status: AddressStatus,
        role: Option<AddressRole>,
        dns_name: DnsText,
        description: Description,
    },
}

impl ImportRow {
    /// The kind of the record that the row represents.
    pub fn kind(&self) -> Kind
        ensures { result ≡ kind_of_row self.now }
    {
        match self {
            ImportRow::Vrf { .. } => Kind::Vrfs,
            ImportRow::Rir { .. } => Kind::Rirs,
            ImportRow::Role { .. } => Kind::Roles,
            ImportRow::Aggregate { .. } => Kind::Aggregates,
            ImportRow::Prefix { .. } => Kind::Prefixes,
            ImportRow::IpRange { .. } => Kind::Ranges,
            ImportRow::IpAddress { .. } => Kind::Addresses,
        }
    }

    /// The blocks, hosts and texts of a row are in their bounds, by its type: a law.
    pub fn bounds(&self)
        ensures { HasRowBounds self.now }
    {
        match self {
            ImportRow::Vrf {
                name,
                rd,
                description,
                ..
            } => {
                name.bounds();
                distinguisher_bounds(rd);
                description.bounds();
            }
            ImportRow::Rir {
                name,
                slug,
                description,
                ..
            } => {
                name.bounds();
                slug.bounds();
                description.bounds();
            }
            ImportRow::Role {
                name,
                slug,
                weight,
                description,
            } => {
                name.bounds();
                slug.bounds();
                weight.bounds();
                description.bounds();
            }
            ImportRow::Aggregate {
                block,
                description,
                ..
            } => {
                block.bounds();
                description.bounds();
            }
            ImportRow::Prefix {
                block,
                description,
                ..
            } => {
                block.bounds();
                description.bounds();
            }
            ImportRow::IpRange {
                start,
                end,
                description,
                ..
            } => {
                start.bounds();
                end.bounds();
                description.bounds();
            }
            ImportRow::IpAddress {
                host,
                dns_name,
                description,
                ..
            } => {
                host.bounds();
                dns_name.bounds();
                description.bounds();
            }
        }
    }
}

/// The rows of an import, in order. A contract sees the list.
#[derive(Debug, Drop)]
pub struct ImportRows {
    items: Vec<ImportRow>,
}

impl Model for ImportRows {
    ghost use Rattle.std.specs.Prelude.{List};
    ghost use Rattle.ipam_data.specs.declared.imports.ImportRow.{ImportRow};

    ghost Value = { List ImportRow };

    ghost view = { λ v. v.items.items };
}

impl ImportRows {
    /// The list of these. It takes no memory.
    pub fn of(items: Vec<ImportRow>) -> ImportRows
        ensures { result ≡ items.items }
    {
        ImportRows { items }
    }

    /// The list as a slice, to be read.
    pub fn as_slice(&self) -> &[ImportRow]
        ensures { result.now ≡ self.now }
    {
        self.items.as_slice()
    }

    /// The vector again. It takes no memory.
    pub fn into_vec(self) -> Vec<ImportRow>
        ensures { result.items ≡ self }
    {
        self.items
    }

    /// Each row is in its bounds, by its type: a law.
    pub fn bounds(&self)
        ensures { AllByRecursion HasRowBounds self.now }
    {
        let items = self.as_slice();
        for item in items {
            item.bounds();
        }
    }
}
