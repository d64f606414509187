//! The spaces that have the blocks which count for a prefix.

ghost use Rattle.std.specs.Prelude.{◌≡◌, IsPermutation, map};
ghost use Rattle.ipam_data.specs.Claims.{is_container, sees_all};
ghost use Rattle.prefix_rules.specs.Book.{IsInOrder};
ghost use Rattle.register_tables.specs.Beside.{blocks_in_all};
ghost use Rattle.register_claims.specs.Children.{IsThere, own_table_blocks, blocks_beside};

use block_space::Space;
use ipam_data::kinds::{Table, is_one_table};
use ipam_data::prefix::{Prefix, PrefixStatus};
use prefix_rules::PrefixBook;

/// Whether a prefix is there for the prefixes inside it.
pub fn is_container(status: PrefixStatus) -> bool
    ensures { result ≡ is_container status }
{
    match status {
        PrefixStatus::Container => true,
        PrefixStatus::Active => false,
        PrefixStatus::Reserved => false,
        PrefixStatus::Deprecated => false,
    }
}

/// Whether the rows of every table count for a prefix: it is a container of the global table.
pub fn sees_all(row: &Prefix) -> bool
    ensures { result ≡ sees_all row.now }
{
    is_container(row.status) && is_one_table(Table::of(row.vrf), Table::Global)
}

/// The space of the prefixes of a prefix's table and family. The prefix exists.
pub fn own_space<'a, S: Space + Drop>(book: &'a PrefixBook<S>, row: &Prefix) -> &'a S
    requires order { IsInOrder book.now }
    requires there { IsThere book.now.rows row.now }
    ensures family { S.family_of result.now ≡ row.now.block.family }
    ensures blocks { IsPermutation (own_table_blocks book.now.rows row.now) (S.held result.now) }
{
    match book.space(Table::of(row.vrf), row.block.family()) {
        Some(space) => space,
        None => unreachable!(),
    }
}

/// The space of the prefixes among which what is free in a prefix is looked for. The prefix exists.
pub fn space_beside<'a, S: Space + Drop>(book: &'a PrefixBook<S>, row: &Prefix) -> &'a S
    requires order { IsInOrder book.now }
    requires there { IsThere book.now.rows row.now }
    ensures family { S.family_of result.now ≡ row.now.block.family }
    ensures blocks { IsPermutation (blocks_beside book.now.rows row.now) (S.held result.now) }
{
    if sees_all(row) {
        return book.all(row.block.family());
    }
    own_space(book, row)
}
