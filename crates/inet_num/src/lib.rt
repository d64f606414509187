//! Addresses and blocks of IPv4 and IPv6: what they are, how they are read and written, and what of a block is free.
#![tactic(auto)]

ghost use Rattle.std.specs.Prelude.{◌≡◌, ℕ, ◌+◌, ◌-◌, ◌*◌, ◌%◌, ◌^◌, ◌<◌, ◌≤◌, ◌↔◌, IsTrue, IfSome, IsSome, IsNone};
ghost use Rattle.inet_num.specs.Net.{width_of, Address, IsAddress, Cidr, size_of, IsBlock, HasAddress, IsInside, IsStrictlyInside, low_half_of, high_half_of, enclosing_of, block_at, first_of, last_of};

mod fault;
mod percentage;
mod plain;
mod same;
mod text;
mod written;

pub use percentage::percent;
pub use plain::{available_blocks, available_blocks_are_those, largest_are_fewest};
pub use same::{
    block_holds, inside_by_ends, is_block_inside, is_block_within, is_in_run, is_one_address,
    is_one_block, is_one_family,
};
use std::marker::Model;
pub use text::{
    TextFault, canonical_text_is_one, one_reading, read_addr, read_block, read_host,
    writing_is_read, written_address_is_read,
};
pub use written::{block_text, host_text, write_addr, write_block};

/// A family of addresses: IPv4, whose addresses have 32 bits, or IPv6, whose addresses have 128.
#[derive(Clone, Copy, Debug, PartialEq, Eq)]
pub enum Family {
    V4,
    V6,
}

impl Family {
    /// Whether the two are one.
    pub fn is(self, other: Family) -> bool
        ensures { IsTrue result ↔ (self ≡ other) }
    {
        match (self, other) {
            (Family::V4, Family::V4) => true,
            (Family::V6, Family::V6) => true,
            _ => false,
        }
    }

    /// How many bits an address of the family has.
    pub fn width(self) -> u8
        ensures { result ≡ width_of self }
    {
        match self {
            Family::V4 => 32,
            Family::V6 => 128,
        }
    }
}

/// An address: a family and a number below two to the family's width.
#[derive(Clone, Copy, Debug, PartialEq, Eq)]
pub struct Addr {
    family: Family,
    value: u128,
}

impl Model for Addr {
    ghost use Rattle.inet_num.specs.Net.{Address, IsAddress};

    ghost Value = { Address };

    ghost view = { λ a. record { family = a.family; value = a.value } };

    ghost invariant = { λ a. IsAddress (record { family = a.family; value = a.value }) };

    ghost inverse = { λ v. record { family = v.family; value = v.value } };
}

impl Addr {
    /// The address of this number, or `None` if the family has no such number.
    pub fn of(family: Family, value: u128) -> Option<Addr>
        ensures some { IfSome result (λ a. a ≡ record { family = family; value = value }) }
        ensures cause { IsSome result ↔ (value < 2 ^ width_of family) }
    {
        match family {
            Family::V4 => {
                if value < 4294967296 {
                    Some(Addr { family, value })
                } else {
                    None
                }
            }
            Family::V6 => Some(Addr { family, value }),
        }
    }

    /// The family that the address is one of.
    pub fn family(&self) -> Family
        ensures family { result ≡ self.now.family }
        ensures in_range { IsAddress self.now }
    {
        self.family
    }

    /// The address as a number, in the order of its bits.
    pub fn value(&self) -> u128
        ensures value { result ≡ self.now.value }
        ensures in_range { IsAddress self.now }
    {
        self.value
    }
}

/// A block of addresses, as `10.0.0.0/8` (RFC 4632 3.1): all that share their first bits, as many as its length says.
/// A block of length L has two to the width less L addresses, and its first address is a multiple of that size.
#[derive(Clone, Copy, Debug, PartialEq, Eq)]
pub struct Block {
    // The widest field first: a block takes 32 bytes then, and 48 in another order.
    first: u128,
    family: Family,
    len: u8,
}

impl Model for Block {
    ghost use Rattle.inet_num.specs.Net.{Cidr, IsBlock};

    ghost Value = { Cidr };

    ghost view = { λ b. record { family = b.family; first = b.first; len = b.len } };

    ghost invariant = { λ b. IsBlock (record { family = b.family; first = b.first; len = b.len }) };

    ghost inverse = { λ v. record { family = v.family; first = v.first; len = v.len } };
}

/// The addresses from the first to the last, both among them. Calls that take a span ask that the two have one family and
/// that the first is not above the last.
#[derive(Clone, Copy, Debug, PartialEq, Eq)]
pub struct Span {
    pub first: Addr,
    pub last: Addr,
}

/// The number of addresses of a block of this length less one, since that of a whole family of IPv6 fits no integer.
fn low_ones(family: Family, len: u8) -> u128
    requires { len ≤ width_of family }
    ensures { result + 1 ≡ 2 ^ (width_of family - len) }
{
    let shift = family.width() - len;
    if shift == 128 {
        u128::MAX
    } else {
        (1u128 << shift) - 1
    }
}

impl Block {
    /// The block of this length at this address, or `None` if the length exceeds the family's width or the address has
    /// a bit set past the length.
    #[tactic(auto, using(crate::proofs::Numbers::and_ones))]
    pub fn of(addr: Addr, len: u8) -> Option<Block>
        ensures some { IfSome result (λ b. b ≡ block_at addr len) }
        ensures cause { IsSome result ↔ IsBlock (block_at addr len) }
    {
        if len > addr.family.width() {
            return None;
        }
        let ones = low_ones(addr.family, len);
        if addr.value & ones == 0 {
            Some(Block {
                family: addr.family,
                first: addr.value,
                len,
            })
        } else {
            None
        }
    }

    /// The family of the block's addresses.
    pub fn family(&self) -> Family
        ensures family { result ≡ self.now.family }
        ensures lawful { IsBlock self.now }
    {
        self.family
    }

    /// The network address: the block's first one.
    pub fn addr(&self) -> Addr
        ensures { result ≡ first_of self.now }
    {
        self.first()
    }

    /// How many bits the block's addresses share, from 0 to the family's width.
    pub fn len(&self) -> u8
        ensures len { result ≡ self.now.len }
        ensures lawful { IsBlock self.now }
    {
        self.len
    }

    /// The length fits the family, and the first address is one of it and a multiple of the size, by the type: a law.
    pub fn bounds(&self)
        ensures { IsBlock self.now }
    {
        let _len = self.len;
    }

    /// The block's first address.
    pub fn first(&self) -> Addr
        ensures { result ≡ first_of self.now }
    {
        Addr {
            family: self.family,
            value: self.first,
        }
    }

    /// The block's last address.
    pub fn last(&self) -> Addr
        ensures { result ≡ last_of self.now }
    {
        let ones = low_ones(self.family, self.len);
        Addr {
            family: self.family,
            value: self.first + ones,
        }
    }

    /// How many addresses the block has. The block of length 0 of IPv6 has more than an integer holds, so a length of at
    /// least 1 is asked for.
    pub fn size(&self) -> u128
        requires { 1 ≤ self.now.len }
        ensures { result ≡ size_of self.now }
    {
        low_ones(self.family, self.len) + 1
    }

    /// Whether the two are one.
    pub fn is(&self, other: &Block) -> bool
        ensures { IsTrue result ↔ (self.now ≡ other.now) }
    {
        self.family.is(other.family) && self.first == other.first && self.len == other.len
    }

    /// Whether each address of the other block is one of this block; a block contains itself.
    pub fn contains(&self, other: &Block) -> bool
        ensures { IsTrue result ↔ IsInside other.now self.now }
    {
        if other.len < self.len {
            return false;
        }
        if !self.family.is(other.family) {
            return false;
        }
        self.first <= other.first && other.first <= self.last().value
    }

    /// Whether each address of this block is one of the other, and the two are not one.
    pub fn strictly_inside(&self, other: &Block) -> bool
        ensures { IsTrue result ↔ IsStrictlyInside self.now other.now }
    {
        other.len < self.len && other.contains(self)
    }

    /// The block of one length less that this one is a half of, or `None` for a block of length 0.
    pub fn enclosing(&self) -> Option<Block>
        ensures some { IfSome result (λ b. b ≡ enclosing_of self.now) }
        ensures cause { IsSome result ↔ (0 < self.now.len) }
        ensures lawful { IsBlock self.now }
    {
        if self.len == 0 {
            return None;
        }
        let len = self.len - 1;
        let past = self.first & low_ones(self.family, len);
        Some(Block {
            family: self.family,
            first: self.first - past,
            len,
        })
    }

    /// The lower one of the two blocks of the next length that make up this one, or `None` for a single address.
    pub fn low_half(&self) -> Option<Block>
        ensures some { IfSome result (λ b. b ≡ low_half_of self.now) }
        ensures cause { IsSome result ↔ (self.now.len < width_of self.now.family) }
    {
        if self.len == self.family.width() {
            return None;
        }
        let len = self.len + 1;
        Some(Block {
            family: self.family,
            first: self.first,
            len,
        })
    }

    /// The higher one of the two blocks of the next length that make up this one, or `None` for a single address.
    pub fn high_half(&self) -> Option<Block>
        ensures some { IfSome result (λ b. b ≡ high_half_of self.now) }
        ensures cause { IsSome result ↔ (self.now.len < width_of self.now.family) }
    {
        if self.len == self.family.width() {
            return None;
        }
        let len = self.len + 1;
        let half = low_ones(self.family, len) + 1;
        Some(Block {
            family: self.family,
            first: self.first + half,
            len,
        })
    }

    /// The two blocks of the next length that make up this one, the lower first, or `None` for a single address.
    pub fn halves(&self) -> Option<(Block, Block)>
        ensures some { IfSome result (λ p. p ≡ (low_half_of self.now, high_half_of self.now)) }
        ensures cause { IsSome result ↔ (self.now.len < width_of self.now.family) }
    {
        match (self.low_half(), self.high_half()) {
            (Some(low), Some(high)) => Some((low, high)),
            _ => None,
        }
    }
}
