//! Which addresses may not be next to one another in a table that enforces: those with one host, unless both have a shared role.

ghost use Rattle.std.specs.Prelude.{◌≡◌, ℕ, ◌+◌, ◌<◌, ◌≤◌, ◌&&◌, not, Some, drop, find, length, slice_get, option_map};
ghost use Rattle.std.specs.List.{count_by};
ghost use Rattle.ipam_data.specs.declared.address.IpAddress.{IpAddress as SeenAddress};
ghost use Rattle.ipam_data.specs.RowList.{least, least_rival, is_rival};
ghost use Rattle.ipam_data.specs.Rows.{address_id};
ghost use Rattle.ipam_data.specs.Addresses.{is_shared_role, is_shared, clashes, clash_in, is_slaac_of_v4};
ghost use Rattle.placed_book.specs.Kinds.{placed_address};
ghost use Rattle.placed_book.specs.Rivals.{is_rival as is_placed_rival};
ghost use Rattle.ip_addresses.specs.Book.{IsInOrder, clashes_past};

use crate::AddressBook;
use block_space::Space;
use inet_num::{Family, is_one_address};
use ipam_data::address::{AddressRole, AddressStatus, IpAddress};
use ipam_data::kinds::{Table, is_one_table};

/// Whether several addresses of one host may have the role.
fn is_shared_by(role: AddressRole) -> bool
    ensures { result ≡ is_shared_role role }
{
    match role {
        AddressRole::Loopback | AddressRole::Secondary => false,
        AddressRole::Anycast
        | AddressRole::Vip
        | AddressRole::Vrrp
        | AddressRole::Hsrp
        | AddressRole::Glbp
        | AddressRole::Carp => true,
    }
}

/// Whether the address has such a role.
fn shares(row: &IpAddress) -> bool
    ensures { result ≡ is_shared row.now }
{
    match row.role {
        None => false,
        Some(role) => is_shared_by(role),
    }
}

/// Whether an address of IPv4 is said to be made by SLAAC.
pub fn is_slaac_of_ipv4(status: AddressStatus, family: Family) -> bool
    ensures { result ≡ is_slaac_of_v4 status family }
{
    match (status, family) {
        (AddressStatus::Slaac, Family::V4) => true,
        _ => false,
    }
}

/// Whether the other address is another one of the row's table that clashes with it.
fn is_clashing(row: &IpAddress, other: &IpAddress) -> bool
    ensures { result ≡ is_rival address_id clashes row.now other.now }
{
    other.id != row.id
        && (is_one_table(Table::of(other.vrf), Table::of(row.vrf))
            && (is_one_address(other.host.addr(), row.host.addr())
                && !(shares(row) && shares(other))))
}

/// The same, if the other one's id is above `past`.
fn is_clashing_past(past: u32, row: &IpAddress, other: &IpAddress) -> bool
    ensures { result ≡ clashes_past past row.now other.now }
{
    is_clashing(row, other) && past < other.id
}

/// The id of the first row from an index on that clashes with the row, looked for row by row.
fn clash_from<S: Space + Drop>(book: &AddressBook<S>, from: u32, row: &IpAddress) -> Option<u32>
    requires { from ≤ length book.now.rows }
    ensures { result ≡ least address_id (is_rival address_id clashes row.now) (drop from book.now.rows) }
{
    let count = book.len();
    'rows: for index in from..count {
        if let Some(other) = book.at(index) {
            if is_clashing(row, other) {
                return Some(other.id);
            }
        }
    }
    None
}

/// The id of the one other row with the row's host in its table, if its id is above `past` and it clashes with the row.
fn only_clash<S: Space + Drop>(book: &AddressBook<S>, past: u32, row: &IpAddress) -> Option<u32>
    requires order { IsInOrder book.now }
    requires one { count_by (is_placed_rival address_id placed_address row.now) book.now.rows ≡ 1 }
    ensures { result ≡ least address_id (clashes_past past row.now) book.now.rows }
{
    book.in_order();
    let Some(id) = book.rival(row) else {
        return None;
    };
    let Some(other) = book.get(id) else {
        return None;
    };
    if is_clashing_past(past, row, other) {
        return Some(other.id);
    }
    None
}

/// The id of the first row after the row at an index that clashes with that one.
fn clash_behind<S: Space + Drop>(book: &AddressBook<S>, index: u32, row: &IpAddress) -> Option<u32>
    requires order { IsInOrder book.now }
    requires at { Some row.now ≡ slice_get book.now.rows index }
    ensures { result ≡ least address_id (is_rival address_id clashes row.now) (drop (index + 1) book.now.rows) }
{
    book.in_order();
    match book.count_rivals(row) {
        0 => None,
        1 => only_clash(book, row.id, row),
        _ => clash_from(book, index + 1, row),
    }
}

/// The least id of another row that clashes with the row: any with its host in its table, if its own role is not shared.
pub fn least_clash<S: Space + Drop>(book: &AddressBook<S>, row: &IpAddress) -> Option<u32>
    requires { IsInOrder book.now }
    ensures { result ≡ least_rival address_id clashes book.now.rows row.now }
{
    if !shares(row) {
        return book.rival(row);
    }
    book.in_order();
    match book.count_rivals(row) {
        0 => None,
        1 => only_clash(book, 0, row),
        _ => clash_from(book, 0, row),
    }
}

/// The id of the row at an index and that of the first later one of the table that clashes with it.
pub fn pair_at<S: Space + Drop>(
    book: &AddressBook<S>,
    index: u32,
    table: Table,
) -> Option<(u32, u32)>
    requires order { IsInOrder book.now }
    requires within { index < length book.now.rows }
    ensures { (x : SeenAddress) → slice_get book.now.rows index ≡ Some x → result ≡ option_map (λ y. (x.id, y.id)) (find (clash_in table x) (drop (index + 1) book.now.rows)) }
{
    book.in_order();
    match book.at(index) {
        Some(row) => {
            if !is_one_table(Table::of(row.vrf), table) {
                return None;
            }
            match clash_behind(book, index, row) {
                Some(other) => Some((row.id, other)),
                None => None,
            }
        }
        None => None,
    }
}
