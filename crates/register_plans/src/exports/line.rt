//! The row of an import that a record is, kind by kind.

ghost use Rattle.std.specs.Prelude.{◌≡◌, Contains, IfOk};
ghost use Rattle.ipam_data.specs.declared.imports.ImportRow.{ImportRow};
ghost use Rattle.ipam_data.specs.Exported.{vrf_line, rir_line, role_line, aggregate_line, prefix_line, range_line, address_line};
ghost use Rattle.ipam_data.specs.Lawful.{IsLawful};
ghost use Rattle.ipam_data.specs.State.{State};
ghost use Rattle.register_tables.specs.Held.{state_of};

use crate::exports::names::{dns_text_of, rir_name_of, role_name_of, vrf_name_of};
use crate::registered::Registered;
use ipam_data::address::IpAddress;
use ipam_data::aggregate::Aggregate;
use ipam_data::imports::ImportRow;
use ipam_data::prefix::Prefix;
use ipam_data::range::IpRange;
use ipam_data::rir::Rir;
use ipam_data::role::Role;
use ipam_data::vrf::{Vrf, copy_distinguisher};
use register_tables::RowTables;
use std::alloc::AllocError;

/// A kind of record that is exported.
pub(crate) trait Exported: Registered {
    ghost as_line: { State → Self → ImportRow };

    /// The row of an import that the record is; the record is one of a lawful register.
    fn line(&self, row_tables: &RowTables) -> Result<ImportRow, AllocError>
        requires lawful { IsLawful (state_of row_tables.now) }
        requires there { Contains (Self.rules.row_list (state_of row_tables.now)).rows self.now }
        ensures { IfOk result (λ row. row ≡ as_line (state_of row_tables.now) self.now) };
}

impl Exported for Vrf {
    ghost as_line = { vrf_line };

    fn line(&self, _row_tables: &RowTables) -> Result<ImportRow, AllocError> {
        Ok(ImportRow::Vrf {
            name: self.name.copy()?,
            rd: copy_distinguisher(&self.rd)?,
            enforce_unique: self.enforce_unique,
            description: self.description.copy()?,
        })
    }
}

impl Exported for Rir {
    ghost as_line = { rir_line };

    fn line(&self, _row_tables: &RowTables) -> Result<ImportRow, AllocError> {
        Ok(ImportRow::Rir {
            name: self.name.copy()?,
            slug: self.slug.copy()?,
            is_private: self.is_private,
            description: self.description.copy()?,
        })
    }
}

impl Exported for Role {
    ghost as_line = { role_line };

    fn line(&self, _row_tables: &RowTables) -> Result<ImportRow, AllocError> {
        Ok(ImportRow::Role {
            name: self.name.copy()?,
            slug: self.slug.copy()?,
            weight: self.weight,
            description: self.description.copy()?,
        })
    }
}

impl Exported for Aggregate {
    ghost as_line = { aggregate_line };

    fn line(&self, row_tables: &RowTables) -> Result<ImportRow, AllocError> {
        Ok(ImportRow::Aggregate {
            block: self.block,
            rir: rir_name_of(row_tables, self.rir)?,
            description: self.description.copy()?,
        })
    }
}

impl Exported for Prefix {
    ghost as_line = { prefix_line };

    fn line(&self, row_tables: &RowTables) -> Result<ImportRow, AllocError> {
        Ok(ImportRow::Prefix {
            block: self.block,
            vrf: vrf_name_of(row_tables, self.vrf)?,
            status: self.status,
            role: role_name_of(row_tables, self.role)?,
            is_pool: self.is_pool,
            mark_utilized: self.mark_utilized,
            description: self.description.copy()?,
        })
    }
}

impl Exported for IpRange {
    ghost as_line = { range_line };

    fn line(&self, row_tables: &RowTables) -> Result<ImportRow, AllocError> {
        Ok(ImportRow::IpRange {
            start: self.start(),
            end: self.end(),
            vrf: vrf_name_of(row_tables, self.vrf)?,
            status: self.status,
            role: role_name_of(row_tables, self.role)?,
            mark_utilized: self.mark_utilized,
            mark_populated: self.mark_populated,
            description: self.description.copy()?,
        })
    }
}

impl Exported for IpAddress {
    ghost as_line = { address_line };

    fn line(&self, row_tables: &RowTables) -> Result<ImportRow, AllocError> {
        Ok(ImportRow::IpAddress {
            host: self.host,
            vrf: vrf_name_of(row_tables, self.vrf)?,
            status: self.status,
            role: self.role,
            dns_name: dns_text_of(row_tables.allocator(), &self.dns_name)?,
            description: self.description.copy()?,
        })
    }
}
