//! The calls that are made, and what is read of their replies.

ghost use Rattle.std.specs.Prelude.{◌≡◌, IfSome};
ghost use Rattle.command_load.specs.LoadText.{load_block, load_len as len_of};
ghost use Rattle.command_load.specs.Claims.{claim_of_one, creation_of, figure_call};
ghost use Rattle.command_load.specs.Replies.{address_in, host_in, is_made_in, percent_in};

use crate::length::load_len;
use inet_num::{Addr, Block, Family};
use ipam_data::address::AddressStatus;
use ipam_data::calls::{AddrItem, AddrItems, Answered, Call, Draft};
use ipam_data::kinds::Kind;
use ipam_data::prefix::PrefixStatus;
use ipam_data::replies::{Reply, View};
use ipam_data::text::{Description, DnsText};
use std::alloc::Global;

/// 10.0.0.0.
const FIRST: u128 = 0x0A00_0000;

/// The prefix is the first row of its kind.
const PREFIX: u32 = 1;

/// The block on which so many claims are made.
fn block_for(count: u32) -> Option<Block>
    ensures { IfSome result (λ b. b ≡ load_block count) }
{
    Block::of(Addr::of(Family::V4, FIRST)?, load_len(count))
}

/// The creation of the prefix for so many claims. It takes no memory; `None` is returned for more than 8,388,608 claims alone, and `load` asks for
/// 100,000 at most.
pub fn creation(alloc: Global, count: u32) -> Option<Call>
    ensures { IfSome result (λ c. c ≡ creation_of (len_of count)) }
{
    let draft = Draft::Prefix {
        block: block_for(count)?,
        vrf: None,
        status: PrefixStatus::Active,
        role: None,
        is_pool: false,
        mark_utilized: false,
        description: Description::of(String::new(alloc))?,
    };
    Some(Call::Create { draft })
}

/// A claim of one address of it. `None` means out of memory.
pub fn claim(alloc: Global) -> Option<Call>
    ensures { IfSome result (λ c. c ≡ claim_of_one) }
{
    let item = AddrItem {
        status: AddressStatus::Active,
        role: None,
        dns_name: DnsText::of(String::new(alloc))?,
        description: Description::of(String::new(alloc))?,
    };
    let mut items = Vec::new(alloc);
    items.push(item).ok()?;
    Some(Call::ClaimPrefixAddrs {
        id: PREFIX,
        answered: Answered::AsOne,
        items: AddrItems::of(items),
    })
}

/// How much of it is used.
pub fn figure() -> Call
    ensures { result ≡ figure_call }
{
    Call::Utilization {
        kind: Kind::Prefixes,
        id: PREFIX,
    }
}

/// The number of the address of a row.
fn address_of(view: &View) -> Option<u128>
    ensures { result ≡ host_in view.now }
{
    match view {
        View::IpAddress(row) => Some(row.host.addr().value()),
        _ => None,
    }
}

/// The number of the address that a claim got.
pub fn claimed(reply: &Reply) -> Option<u128>
    ensures { result ≡ address_in reply.now }
{
    match reply {
        Reply::Made(view) => address_of(view),
        _ => None,
    }
}

/// Whether a row was made.
pub fn is_made(reply: &Reply) -> bool
    ensures { result ≡ is_made_in reply.now }
{
    match reply {
        Reply::Made(_) => true,
        _ => false,
    }
}

/// The percentage that was answered.
pub fn percentage(reply: &Reply) -> Option<u8>
    ensures { result ≡ percent_in reply.now }
{
    match reply {
        Reply::Percent(figure) => Some(*figure),
        _ => None,
    }
}
