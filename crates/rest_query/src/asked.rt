//! What a query asks for, as it is read.

use inet_num::{Block, Family};
use ipam_data::address::{AddressRole, AddressStatus};
use ipam_data::calls::Filter;
use ipam_data::prefix::PrefixStatus;
use ipam_data::range::RangeStatus;

/// The parameters of a list of aggregates: `None` is one that is malformed, and an inner `None` one that is not given.
#[derive(Clone, Copy, Debug)]
pub struct AggregateTests {
    pub family: Option<Option<Family>>,
    pub rir_id: Option<Option<u32>>,
}

/// The parameters of a list of prefixes: `None` is one that is malformed, and an inner `None` one that is not given.
#[derive(Clone, Copy, Debug)]
pub struct PrefixTests {
    pub family: Option<Option<Family>>,
    pub vrf_id: Option<Option<Option<u32>>>,
    pub status: Option<Option<PrefixStatus>>,
    pub role_id: Option<Option<Option<u32>>>,
    pub prefix: Option<Option<Block>>,
    pub within: Option<Option<Block>>,
    pub within_include: Option<Option<Block>>,
    pub contains: Option<Option<Block>>,
}

/// The parameters of a list of ranges likewise.
#[derive(Clone, Copy, Debug)]
pub struct RangeTests {
    pub family: Option<Option<Family>>,
    pub vrf_id: Option<Option<Option<u32>>>,
    pub status: Option<Option<RangeStatus>>,
    pub role_id: Option<Option<Option<u32>>>,
    pub contains: Option<Option<Block>>,
}

/// The parameters of a list of addresses that may be malformed, likewise.
#[derive(Clone, Copy, Debug)]
pub struct AddressTests {
    pub family: Option<Option<Family>>,
    pub vrf_id: Option<Option<Option<u32>>>,
    pub status: Option<Option<AddressStatus>>,
    pub role: Option<Option<AddressRole>>,
    pub parent: Option<Option<Block>>,
}

/// What the query of a list asks for.
#[derive(Debug, Drop)]
pub struct Listing {
    pub filter: Filter,
    pub limit: u32,
    pub offset: u32,
}

/// What of a prefix or a range is available and listed. It decides how many are listed if no limit is given.
#[derive(Clone, Copy, Debug)]
pub enum Available {
    Blocks,
    Addrs,
}
