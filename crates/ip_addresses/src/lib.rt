//! The addresses of the register: a book of rows with a place, in which a host is a block of one address, and the rules that it answers
//! of addresses.
#![tactic(auto)]

ghost use Rattle.std.specs.Prelude.{◌≡◌, ◌+◌, List, length, option_map, slice_get, Some, find, drop};
ghost use Rattle.ipam_data.specs.declared.address.IpAddress.{IpAddress as SeenAddress};
ghost use Rattle.ipam_data.specs.Addresses.{address_fault, clash_of};

mod clashes;

use crate::clashes::{is_slaac_of_ipv4, least_clash, pair_at};
use block_space::Space;
use ipam_data::address::IpAddress;
use ipam_data::host_names::is_dns_name;
use ipam_data::kinds::Table;
use ipam_data::replies::Rule;
use placed_book::PlacedBook;

/// Addresses in the order of their ids, and the spaces of their tables.
pub type AddressBook<S> = PlacedBook<IpAddress, S>;

/// The rules of addresses, as a book of them answers them. None takes memory.
pub trait AddressRules {
    /// The addresses in the order of their ids.
    ghost rows: { Self → List SeenAddress };

    /// The book is in order: what it answers by is of just these addresses.
    ghost ordered: { Self → Type 0 };

    /// The first rule that the row breaks given the rows of other ids, past the VRF that it names: `ZeroMask`, `SlaacFamily`,
    /// `DnsName`, or, if its table enforces, `Duplicate` with the least id of another row of the table with its host, unless both
    /// have a shared role. It looks at all rows only if the row's own role is shared and several others have its host.
    fn fault(&self, row: &IpAddress, enforcing: bool) -> Option<Rule>
        requires { ordered self.now }
        ensures { result ≡ address_fault (rows self.now) row.now enforcing };

    /// The least ids of two addresses of the table that may not be in one that enforces, or `None`: the lesser id is the least of
    /// one that has a later one that clashes with it. It looks at later rows only of a row whose host several others have.
    fn coincide(&self, table: Table) -> Option<(u32, u32)>
        requires { ordered self.now }
        ensures { result ≡ clash_of (rows self.now) table };
}

impl<S: Space + Drop> AddressRules for AddressBook<S> {
    ghost use Rattle.ip_addresses.specs.Book.{IsInOrder};

    ghost rows = { λ b. b.rows };

    ghost ordered = { λ b. IsInOrder b };

    #[tactic(auto, unfolding(ipam_data::specs::Addresses::address_fault))]
    fn fault(&self, row: &IpAddress, enforcing: bool) -> Option<Rule> {
        if row.host.len() == 0 {
            return Some(Rule::ZeroMask);
        }
        if is_slaac_of_ipv4(row.status, row.host.addr().family()) {
            return Some(Rule::SlaacFamily);
        }
        if !is_dns_name(row.dns_name.as_str().as_bytes()) {
            return Some(Rule::DnsName);
        }
        if !enforcing {
            return None;
        }
        match least_clash(self, row) {
            Some(id) => Some(Rule::Duplicate(id)),
            None => None,
        }
    }

    fn coincide(&self, table: Table) -> Option<(u32, u32)> {
        let count = self.len();
        'rows: for index in 0..count {
            if let Some(pair) = pair_at(self, index, table) {
                return Some(pair);
            }
        }
        None
    }
}
