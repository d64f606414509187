//! The free numbers of a range as runs. A number is an address of IPv4 here: both have 32 bits.

ghost use Rattle.std.specs.Prelude.{◌≡◌, ℕ, ◌≤◌, ◌↔◌, IfOk, OnOk, IsTrue};
ghost use Rattle.inet_num.specs.declared.Family.TheVariants.{V4};
ghost use Rattle.number_pools.specs.Free.{holds as holds_of, pool_at};
ghost use Rattle.span_set.specs.Runs.{IsBetween};
ghost use Rattle.span_set.specs.Spans.{IsIn};
ghost use Rattle.pool_report.specs.Report.{AreFreeRuns};

use inet_num::{Addr, Family, Span};
use number_pools::{Member, NumberRange, pool_of};
use pool_rows::PoolRows;
use span_set::SpanSet;
use std::alloc::{AllocError, Global};

/// A number as an address.
fn address(number: u32) -> Addr
    ensures { result ≡ record { family = V4; value = number } }
{
    match Addr::of(Family::V4, u128::from(number)) {
        Some(addr) => addr,
        None => unreachable!(),
    }
}

/// Whether a member holds a number of a pool.
fn is_of_pool(rows: &PoolRows, pool: u32, member: &Member) -> bool
    ensures { (n : ℕ) → n ≡ member.now.number → result ≡ holds_of rows.now.pools.ranges.rows pool n member.now }
{
    rows.pool(member.range) == pool
}

/// Takes the number of a member of the pool away.
fn without_member(
    set: &mut SpanSet,
    rows: &PoolRows,
    pool: u32,
    member: &Member,
) -> Result<(), AllocError>
    requires { set.old.family ≡ V4 }
    ensures family { set.new.family ≡ V4 }
    ensures taken { OnOk result ((n : ℕ) → IsIn set.new n ↔ (IsIn set.old n × ¬ IsTrue (holds_of rows.now.pools.ranges.rows pool n member.now))) }
{
    if !is_of_pool(rows, pool, member) {
        return Ok(());
    }
    let number = address(member.number);
    set.subtract(Span {
        first: number,
        last: number,
    })
}

/// The free numbers of a range. `Err` means out of memory.
pub(crate) fn free_set(
    alloc: Global,
    rows: &PoolRows,
    range: &NumberRange,
) -> Result<SpanSet, AllocError>
    requires { range.now.first ≤ range.now.last }
    ensures { IfOk result (λ set. AreFreeRuns rows.now.pools range.now set.runs) }
{
    let pool = pool_of(range);
    let mut set = SpanSet::new(alloc, Family::V4);
    set.add(Span {
        first: address(range.first),
        last: address(range.last),
    })?;
    'member: for member in rows.members() {
        without_member(&mut set, rows, pool, member)?;
    }
    // What holds of all sets, for the prover.
    let _family = set.family();
    Ok(set)
}
