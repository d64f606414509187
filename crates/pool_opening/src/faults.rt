//! What is wrong with tables.

ghost use Rattle.std.specs.Prelude.{◌≡◌, ◌≢◌, IfOk, IfErr};
ghost use Rattle.ipam_data.specs.Checks.{first as first_of};
ghost use Rattle.number_pools.specs.Lawful.{IsLawfulPools};
ghost use Rattle.number_pools.specs.Limits.{AreFew};
ghost use Rattle.number_pools.specs.Rows.{Pools, member_id, range_id};
ghost use Rattle.pool_keeper.specs.Stored.{tables_of};
ghost use Rattle.pool_opening.specs.declared.faults.PoolFault.TheVariants.{Keeper as KeeperFault};
ghost use Rattle.pool_opening.specs.Faults.{IsRefused, fault_of, loaded};

use crate::passes::{any_bad_next, bad_member, bad_range};
use pool_keeper::tables::PoolTables;
use pool_rows::PoolRows;
use std::alloc::{AllocError, Global};

/// Why pools are not opened.
#[derive(Clone, Copy, Debug)]
pub enum PoolFault {
    /// The keeper failed.
    Keeper,
    /// A range breaks a rule given those before it: the one of the least id that does.
    BadRange(u32),
    /// A member breaks a rule given those before it: the one of the least id that does.
    BadMember(u32),
    /// A next id is 0, or not above all ids.
    BadNext,
    /// Out of memory, or more ranges or members than can be held (`MOST_HELD` of `number_pools`).
    Memory,
}

/// What is wrong with tables. `Err` means out of memory.
fn fault_of(alloc: Global, tables: &PoolTables) -> Result<Option<PoolFault>, AllocError>
    ensures { IfOk result (λ f. f ≡ fault_of tables.now) }
{
    let ranges = tables.ranges.as_slice();
    let members = tables.members.as_slice();
    match bad_range(ranges) {
        Some(id) => return Ok(Some(PoolFault::BadRange(id))),
        None => {}
    }
    match bad_member(alloc, ranges, members)? {
        Some(id) => return Ok(Some(PoolFault::BadMember(id))),
        None => {}
    }
    if any_bad_next(tables) {
        return Ok(Some(PoolFault::BadNext));
    }
    Ok(None)
}

/// The rows of the pools that tables represent, which are lawful; or what is wrong with the tables. The tables of lawful pools are refused
/// for lack of memory alone, or if they have more ranges or members than can be held: no others that do are opened.
pub fn opened(alloc: Global, tables: PoolTables) -> Result<PoolRows, PoolFault>
    ensures faultless { IfOk result (λ r. fault_of tables ≡ None) }
    ensures pools { IfOk result (λ r. r.pools ≡ loaded tables) }
    ensures lawful { IfOk result (λ r. IsLawfulPools r.pools) }
    ensures few { IfOk result (λ r. AreFew r.pools) }
    ensures taken { (s : Pools) → IsLawfulPools s → tables ≡ tables_of s → IfErr result (λ e. e ≡ PoolFault.Memory) }
    ensures err { IfErr result (IsRefused tables) }
    ensures cause { IfErr result (λ e. e ≢ KeeperFault) }
{
    match fault_of(alloc, &tables) {
        Ok(None) => {}
        Ok(Some(fault)) => {
            drop(tables);
            return Err(fault);
        }
        Err(AllocError) => {
            drop(tables);
            return Err(PoolFault::Memory);
        }
    }
    rows_of(alloc, tables)
}

/// The rows of the pools that tables without a fault represent. `Err` is `Memory`.
fn rows_of(alloc: Global, tables: PoolTables) -> Result<PoolRows, PoolFault>
    requires { fault_of tables ≡ None }
    ensures pools { IfOk result (λ r. r.pools ≡ loaded tables) }
    ensures lawful { IfOk result (λ r. IsLawfulPools r.pools) }
    ensures few { IfOk result (λ r. AreFew r.pools) }
    ensures err { IfErr result (λ e. e ≡ PoolFault.Memory) }
{
    match PoolRows::of(
        alloc,
        tables.ranges.into_vec(),
        tables.members.into_vec(),
        tables.next_range,
        tables.next_member,
    ) {
        Ok(rows) => Ok(rows),
        Err(AllocError) => Err(PoolFault::Memory),
    }
}
