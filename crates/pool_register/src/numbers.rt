//! The numbers of a range that are free.

ghost use Rattle.std.specs.Prelude.{◌≡◌, IfOk, IfErr, length, take};
ghost use Rattle.number_pools.specs.Claims.{IsClaimed, IsShort};
ghost use Rattle.number_pools.specs.Free.{free_numbers as free_numbers_of};
ghost use Rattle.number_pools.specs.Lawful.{IsInBounds, IsLawfulPools};

use number_pools::{NumberRange, Short, free_numbers, plan_claim};
use pool_rows::PoolRows;
use std::alloc::{AllocError, Global};

/// The least free numbers of an existing range.
pub(crate) fn free_of(
    alloc: Global,
    rows: &PoolRows,
    range: &NumberRange,
    limit: u32,
) -> Result<Vec<u32>, AllocError>
    requires lawful { IsLawfulPools rows.now.pools }
    requires bounds { IsInBounds range.now }
    ensures { IfOk result (λ v. v.items ≡ take limit (free_numbers_of rows.now.pools range.now)) }
{
    free_numbers(alloc, rows.taken(), range, limit)
}

/// The `n` least free numbers of an existing range; or how many there are, if there are fewer.
pub(crate) fn numbers_of(
    alloc: Global,
    rows: &PoolRows,
    range: &NumberRange,
    n: u32,
) -> Result<Vec<u32>, Short>
    requires lawful { IsLawfulPools rows.now.pools }
    requires bounds { IsInBounds range.now }
    ensures ok { IfOk result (λ v. IsClaimed n (free_numbers_of rows.now.pools range.now) v.items) }
    ensures err { IfErr result (IsShort n (length (free_numbers_of rows.now.pools range.now))) }
{
    plan_claim(alloc, rows.taken(), range, n)
}
