//! The rows of pools: ranges of numbers, and the numbers of them that are given out.

ghost use Rattle.std.specs.Prelude.{◌≡◌, IfOk};
ghost use Rattle.number_pools.specs.Rows.{most_of};

use ipam_data::kinds::HasId;
use std::alloc::AllocError;
use stored_tables::tables::Text;

/// The greatest number of an autonomous system: a number of 32 bits (RFC 6793).
pub const LAST_ASN: u32 = 4_294_967_295;

/// The greatest id of a VLAN that a network may use: 4095 is kept back (IEEE 802.1Q).
pub const LAST_VLAN: u32 = 4094;

/// How many ranges, and how many members, can be held in memory: a tree of the members' numbers names no more.
pub const MOST_HELD: usize = 1_073_741_823;

/// What a range gives out.
#[derive(Clone, Copy, Debug, PartialEq, Eq)]
pub enum PoolKind {
    /// Numbers of autonomous systems (RFC 6793).
    Asn,
    /// VLANs (IEEE 802.1Q).
    Vlan,
}

impl PoolKind {
    /// The greatest number of the kind.
    pub fn most(self) -> u32
        ensures { result ≡ most_of self }
    {
        match self {
            PoolKind::Asn => LAST_ASN,
            PoolKind::Vlan => LAST_VLAN,
        }
    }
}

/// A range of numbers, from the first to the last; one of VLANs is a group.
#[derive(Debug, Drop)]
pub struct NumberRange {
    pub id: u32,
    pub kind: PoolKind,
    pub name: Text,
    pub first: u32,
    pub last: u32,
}

impl NumberRange {
    /// The same range again. `Err` means out of memory.
    pub fn copy(&self) -> Result<NumberRange, AllocError>
        ensures { IfOk result (λ r. r ≡ self.now) }
    {
        Ok(NumberRange {
            id: self.id,
            kind: self.kind,
            name: self.name.copy()?,
            first: self.first,
            last: self.last,
        })
    }
}

impl HasId for NumberRange {
    ghost id_of = { λ r. r.id };

    fn id(&self) -> u32 {
        self.id
    }
}

/// A number of a range that is given out: an autonomous system, or a VLAN of a group.
#[derive(Debug, Drop)]
pub struct Member {
    pub id: u32,
    pub range: u32,
    pub number: u32,
    pub name: Text,
}

impl Member {
    /// The same member again. `Err` means out of memory.
    pub fn copy(&self) -> Result<Member, AllocError>
        ensures { IfOk result (λ m. m ≡ self.now) }
    {
        Ok(Member {
            id: self.id,
            range: self.range,
            number: self.number,
            name: self.name.copy()?,
        })
    }
}

impl HasId for Member {
    ghost id_of = { λ m. m.id };

    fn id(&self) -> u32 {
        self.id
    }
}
