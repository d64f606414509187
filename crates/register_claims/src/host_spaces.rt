//! The hosts that count for a prefix or a range, as a space of blocks of one address.

ghost use Rattle.std.specs.Prelude.{◌≡◌, ℕ, true, false, [], IsPermutation, map};
ghost use Rattle.inet_num.specs.declared.Family.{Family};
ghost use Rattle.block_space.specs.Usable.{AreSingles};
ghost use Rattle.placed_book.specs.Book.{blocks_of_rows};
ghost use Rattle.placed_book.specs.Kinds.{placed_address};
ghost use Rattle.ip_addresses.specs.Book.{IsInOrder};
ghost use Rattle.ipam_data.specs.Claims.{sees_all, is_hosted, is_host_beside};
ghost use Rattle.register_claims.specs.Hosts.{HasHosts, HasJust};

use crate::children::sees_all;
use block_space::Space;
use inet_num::Family;
use ip_addresses::AddressBook;
use ipam_data::kinds::Table;
use ipam_data::prefix::Prefix;
use ipam_data::range::IpRange;

/// The hosts of a table and family, or the empty space if it does not exist.
fn in_table<'a, S: Space + Drop>(
    book: &'a AddressBook<S>,
    table: Table,
    family: Family,
    empty: &'a S,
) -> &'a S
    requires order { IsInOrder book.now }
    requires family { S.family_of empty.now ≡ family }
    requires empty { S.held empty.now ≡ [] }
    ensures family { S.family_of result.now ≡ family }
    ensures hosts { IsPermutation (blocks_of_rows (map placed_address book.now.rows) table family) (S.held result.now) }
{
    match book.space(table, family) {
        Some(space) => space,
        None => empty,
    }
}

/// The hosts of every table, which count for a container of the global one.
fn hosts_in_all<'a, S: Space + Drop>(book: &'a AddressBook<S>, row: &Prefix) -> &'a S
    requires order { IsInOrder book.now }
    requires every { sees_all row.now ≡ true }
    ensures family { S.family_of result.now ≡ row.now.block.family }
    ensures singles { AreSingles (S.held result.now) }
    ensures hosts { HasHosts row.now.block (is_hosted book.now.rows row.now) (S.held result.now) }
{
    book.all(row.block.family())
}

/// The hosts of a prefix's own table, which count for every other prefix, or the empty space if it does not exist.
fn hosts_in_own<'a, S: Space + Drop>(book: &'a AddressBook<S>, row: &Prefix, empty: &'a S) -> &'a S
    requires order { IsInOrder book.now }
    requires own { sees_all row.now ≡ false }
    requires family { S.family_of empty.now ≡ row.now.block.family }
    requires empty { S.held empty.now ≡ [] }
    ensures family { S.family_of result.now ≡ row.now.block.family }
    ensures singles { AreSingles (S.held result.now) }
    ensures hosts { HasHosts row.now.block (is_hosted book.now.rows row.now) (S.held result.now) }
{
    in_table(book, Table::of(row.vrf), row.block.family(), empty)
}

/// The hosts that count for a prefix: those of its table, or of every one. The empty space is taken if there is no table.
pub fn hosts_of_prefix<'a, S: Space + Drop>(
    book: &'a AddressBook<S>,
    row: &Prefix,
    empty: &'a S,
) -> &'a S
    requires order { IsInOrder book.now }
    requires family { S.family_of empty.now ≡ row.now.block.family }
    requires empty { S.held empty.now ≡ [] }
    ensures family { S.family_of result.now ≡ row.now.block.family }
    ensures singles { AreSingles (S.held result.now) }
    ensures hosts { HasHosts row.now.block (is_hosted book.now.rows row.now) (S.held result.now) }
{
    if sees_all(row) {
        return hosts_in_all(book, row);
    }
    hosts_in_own(book, row, empty)
}

/// The hosts of a range's table and family. The empty space is taken if there is no table.
pub fn hosts_of_range<'a, S: Space + Drop>(
    book: &'a AddressBook<S>,
    row: &IpRange,
    empty: &'a S,
) -> &'a S
    requires order { IsInOrder book.now }
    requires family { S.family_of empty.now ≡ row.now.ends.start.family }
    requires empty { S.held empty.now ≡ [] }
    ensures family { S.family_of result.now ≡ row.now.ends.start.family }
    ensures singles { AreSingles (S.held result.now) }
    ensures hosts { HasJust (is_host_beside book.now.rows row.now) (S.held result.now) }
{
    in_table(book, Table::of(row.vrf), row.ends.start().family(), empty)
}
