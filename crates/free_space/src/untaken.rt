//! The addresses of a part of a block that no host has, appended to a list up to a limit.

ghost use Rattle.std.specs.Prelude.{◌≡◌, ℕ, ◌+◌, ◌<◌, ◌≤◌, ◌++◌, false, take, length, vec_len, OnOk};
ghost use Rattle.inet_num.specs.Net.{size_of};
ghost use Rattle.block_space.specs.Listed.{counting_of};
ghost use Rattle.block_space.specs.Usable.{addressed};
ghost use Rattle.free_space.specs.Untaken.{untaken_between};

use crate::bounds::address;
use crate::searches::next_single;
use block_space::Space;
use inet_num::{Addr, Block};
use std::alloc::AllocError;

/// Appends the addresses from the first to the last that no block inside has, up to `limit` addresses in all.
pub fn push_untaken<S: Space>(
    hosts: &S,
    within: Block,
    from: u128,
    to: u128,
    limit: u32,
    out: &mut Vec<Addr>,
) -> Result<(), AllocError>
    requires family { within.family ≡ S.family_of hosts.now }
    requires low { within.first ≤ from }
    requires order { from ≤ to }
    requires high { to < within.first + size_of within }
    requires few { vec_len out.old ≤ limit }
    ensures { OnOk result (out.new.items ≡ take limit (out.old.items ++ addressed within.family (untaken_between (counting_of (S.held hosts.now) within false) from (to + 1)))) }
{
    let family = within.family();
    let mut at = from;
    'walk: while out.len() < limit as usize {
        let Some(single) = next_single(hosts, within, address(family, at)) else {
            return Ok(());
        };
        let addr = single.first();
        let value = addr.value();
        if value > to {
            return Ok(());
        }
        out.push(addr)?;
        if value == to {
            return Ok(());
        }
        at = value + 1;
    }
    Ok(())
}

/// The same of those from the first on that lie before another one, which may be none.
pub fn push_before<S: Space>(
    hosts: &S,
    within: Block,
    from: u128,
    end: u128,
    limit: u32,
    out: &mut Vec<Addr>,
) -> Result<(), AllocError>
    requires family { within.family ≡ S.family_of hosts.now }
    requires low { within.first ≤ from }
    requires high { end ≤ within.first + size_of within }
    requires few { vec_len out.old ≤ limit }
    ensures { OnOk result (out.new.items ≡ take limit (out.old.items ++ addressed within.family (untaken_between (counting_of (S.held hosts.now) within false) from end))) }
{
    if end <= from {
        return Ok(());
    }
    push_untaken(hosts, within, from, end - 1, limit, out)
}
