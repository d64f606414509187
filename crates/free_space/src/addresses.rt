//! The first usable addresses of a block, and of a range.

ghost use Rattle.std.specs.Prelude.{◌≡◌, ℕ, take, IfOk};
ghost use Rattle.std.specs.List.{AllByRecursion};
ghost use Rattle.inet_num.specs.declared.Family.{Family};
ghost use Rattle.inet_num.specs.Net.{Cidr};
ghost use Rattle.inet_num.specs.Free.{is_taken};
ghost use Rattle.block_space.specs.Usable.{is_in_spans, AreApart, AreSingles, usable_of, untaken_of, addressed};

use crate::bounds::usable_bounds;
use crate::untaken::{push_before, push_untaken};
use block_space::Space;
use inet_num::{Addr, Block, Family, Span};
use std::alloc::{AllocError, Global};

/// The first `limit` addresses of a block that can be given out, in order, or all of them if there are fewer: those that no
/// host has, that no held span has, and that are not kept back (`usable_bounds` says which are). The space has the block's
/// family, and each of its blocks is one address, as often as hosts have it. The spans are in order, and no two share an
/// address; they may begin before the block and end after it. The one error means out of memory.
pub fn available_addrs<S: Space>(
    alloc: Global,
    hosts: &S,
    held: &[Span],
    within: Block,
    pool: bool,
    limit: u32,
) -> Result<Vec<Addr>, AllocError>
    requires family { within.family ≡ S.family_of hosts.now }
    requires singles { AreSingles (S.held hosts.now) }
    requires apart { AreApart 0 held.now }
    ensures { IfOk result (λ v. v.items ≡ take limit (addressed within.family (usable_of (is_taken (S.held hosts.now)) (is_in_spans held.now) within pool))) }
{
    let mut out = Vec::new(alloc);
    let (low, top) = usable_bounds(within, pool);
    let high = top.value();
    let mut from = low.value();
    'spans: for span in held {
        let first = span.first.value();
        let last = span.last.value();
        if last < from {
            continue;
        }
        if first > high {
            push_untaken(hosts, within, from, high, limit, &mut out)?;
            return Ok(out);
        }
        push_before(hosts, within, from, first, limit, &mut out)?;
        if last >= high {
            return Ok(out);
        }
        from = last + 1;
    }
    push_untaken(hosts, within, from, high, limit, &mut out)?;
    Ok(out)
}

/// The first `limit` addresses of a range that no host has, or all of them if there are fewer. The range is given by
/// blocks, its pieces, whose addresses follow one another; a range keeps no address back. The pieces have the space's
/// family, and each block of the space is one address. The one error means out of memory.
pub fn range_addrs<S: Space>(
    alloc: Global,
    hosts: &S,
    pieces: &[Block],
    limit: u32,
) -> Result<Vec<Addr>, AllocError>
    requires family { AllByRecursion (λ b. b.family ≡ S.family_of hosts.now) pieces.now }
    requires singles { AreSingles (S.held hosts.now) }
    ensures { IfOk result (λ v. v.items ≡ take limit (addressed (S.family_of hosts.now) (untaken_of (is_taken (S.held hosts.now)) pieces.now))) }
{
    let mut out = Vec::new(alloc);
    'pieces: for piece in pieces {
        push_untaken(
            hosts,
            *piece,
            piece.first().value(),
            piece.last().value(),
            limit,
            &mut out,
        )?;
    }
    Ok(out)
}
