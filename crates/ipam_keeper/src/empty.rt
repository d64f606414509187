//! Tables without rows.

ghost use Rattle.std.specs.Prelude.{◌≡◌, IfOk, IfSome};
ghost use Rattle.stored_tables.specs.Order.{AreTables, empty_tables as no_rows};

use ipam_data::kinds::Kind;
use ipam_data::update::Ids;
use std::alloc::{AllocError, Global};
use stored_tables::tables::{Rows, Tables, VERSION};

/// The tables without rows: of the register's version, and each next id is 1. `Err` means out of memory.
pub fn empty_tables(alloc: Global) -> Result<Tables, AllocError>
    ensures tables { IfOk result (λ t. t ≡ no_rows) }
    ensures order { IfOk result (λ t. AreTables t) }
{
    let mut next = Vec::new(alloc);
    next.push((Kind::Vrfs, 1))?;
    next.push((Kind::Rirs, 1))?;
    next.push((Kind::Roles, 1))?;
    next.push((Kind::Aggregates, 1))?;
    next.push((Kind::Prefixes, 1))?;
    next.push((Kind::Ranges, 1))?;
    next.push((Kind::Addresses, 1))?;
    Ok(Tables {
        version: VERSION,
        next: Ids::of(next),
        rows: Rows::of(Vec::new(alloc)),
    })
}
