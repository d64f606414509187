//! The place of a prefix among all.

ghost use Rattle.std.specs.Prelude.{◌≡◌, ◌+◌, ◌*◌, ◌<◌, ◌≤◌, ◌^◌};
ghost use Rattle.ipam_data.specs.Survey.{table_place, family_place};
ghost use Rattle.register_claims.specs.PlaceDigits.{place_digits};

use inet_num::Family;
use ipam_data::prefix::Prefix;

/// A place as three digits, the greatest first: the table with the family, the first address, and the length with the id.
pub(crate) type Place = (u64, u128, u64);

/// The place of a table: the global one comes first.
fn table_place(vrf: Option<u32>) -> u64
    ensures place { result ≡ table_place vrf }
    ensures few { result < 2 ^ 32 }
{
    match vrf {
        None => 0,
        Some(vrf) => u64::from(vrf),
    }
}

/// The place of a family: IPv4 comes first.
fn family_place(family: Family) -> u64
    ensures place { result ≡ family_place family }
    ensures few { result ≤ 1 }
{
    match family {
        Family::V4 => 0,
        Family::V6 => 1,
    }
}

/// The last digit of a place: the length with the id.
fn last_digit(len: u8, id: u32) -> u64
    ensures { result ≡ len * 2 ^ 32 + id }
{
    u64::from(len) * 4_294_967_296 + u64::from(id)
}

/// The place of a prefix among all.
pub(crate) fn place_of(row: &Prefix) -> Place
    ensures { result ≡ place_digits row.now }
{
    (
        table_place(row.vrf) * 2 + family_place(row.block.family()),
        row.block.first().value(),
        last_digit(row.block.len(), row.id),
    )
}
