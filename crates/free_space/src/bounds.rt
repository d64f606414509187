//! Which addresses of a block are kept back.

ghost use Rattle.std.specs.Prelude.{◌≡◌, ℕ, ◌+◌, ◌^◌, ◌<◌, ◌≤◌};
ghost use Rattle.inet_num.specs.Net.{width_of, Address};
ghost use Rattle.free_space.specs.Bounds.{AreBounds};

use inet_num::{Addr, Block, Family};

/// The address of this number, which the family has.
pub fn address(family: Family, value: u128) -> Addr
    requires { value < 2 ^ width_of family }
    ensures { result ≡ record { family = family; value = value } }
{
    match Addr::of(family, value) {
        Some(addr) => addr,
        None => unreachable!(),
    }
}

/// The first and the last address of a block that are not kept back. A pool keeps none back, nor does a block of one address,
/// nor one of two, which is a point-to-point link (RFC 3021 for an IPv4 /31, RFC 6164 for an IPv6 /127). Every other block keeps
/// back its first address: in IPv4 the number of the network, in IPv6 the anycast address of its routers (RFC 4291 2.6.1). One
/// of IPv4 keeps back its last address too, the broadcast address (RFC 919); IPv6 has none.
pub fn usable_bounds(within: Block, pool: bool) -> (Addr, Addr)
    ensures { AreBounds within pool result.0 result.1 }
{
    let family = within.family();
    let first = within.first();
    let last = within.last();
    if pool {
        return (first, last);
    }
    if within.len() + 1 >= family.width() {
        return (first, last);
    }
    let low = address(family, first.value() + 1);
    match family {
        Family::V4 => (low, address(family, last.value() - 1)),
        Family::V6 => (low, last),
    }
}
