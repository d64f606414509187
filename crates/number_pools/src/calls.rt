//! What pools are asked, and what they answer.

ghost use Rattle.std.specs.Prelude.{◌≡◌, IfOk};

use crate::rows::{Member, NumberRange, PoolKind};
use std::alloc::AllocError;
use std::marker::Model;
use stored_tables::tables::{Text, Texts};

/// How many ranges there may be, of both kinds together.
pub const MOST_RANGES: u32 = 1000;

/// How many members there may be, of both kinds together.
pub const MOST_MEMBERS: u32 = 100_000;

/// How many items a claim may have, or a call that records chosen numbers.
pub const MOST_CLAIMED: u32 = 1000;

/// A list of what a reply carries. A contract sees its items.
#[derive(Debug, Drop)]
pub struct Listed<T> {
    items: Vec<T>,
}

impl<T> Model for Listed<T> {
    ghost use Rattle.std.specs.Prelude.{List};

    ghost Value = { List T };

    ghost view = { λ l. l.items.items };
}

impl<T> Listed<T> {
    /// The list of these. It takes no memory.
    pub fn of(items: Vec<T>) -> Listed<T>
        ensures { result ≡ items.items }
    {
        Listed { items }
    }

    /// The list as a slice, to be read.
    pub fn as_slice(&self) -> &[T]
        ensures { result.now ≡ self.now }
    {
        self.items.as_slice()
    }

    /// The vector again. It takes no memory.
    pub fn into_vec(self) -> Vec<T>
        ensures { result.items ≡ self }
    {
        self.items
    }
}

/// What is counted, and limited.
#[derive(Clone, Copy, Debug)]
pub enum Quantity {
    /// The items of a claim.
    Claims,
    /// The items of a call that records chosen numbers.
    Items,
    /// The ranges of both kinds.
    Ranges,
    /// The members of all ranges.
    Members,
    /// The ids of rows, up to the greatest that a row may have.
    Ids,
    /// The items of the log.
    Log,
}

/// Why a call is refused, in the order of the checks.
#[derive(Clone, Copy, Debug)]
pub enum PoolRefusal {
    /// No range or member of the kind has this id.
    Absent(u32),
    /// A range of the kind has the name: this one.
    NameTaken(u32),
    /// The first and the last number are not in order, or not from 1 to the greatest of the kind.
    Bounds,
    /// The range has members, or has some outside the bounds that it is to have: of them this one has the least id.
    InUse(u32),
    /// Only so many numbers are free, and the claim has more items.
    NoSpace(u32),
    /// This number is not one of the range that is to have it.
    Outside(u32),
    /// This number is that of a member of the pool: of the one with this id.
    Taken(u32, u32),
    /// This number is that of an earlier item of the same call.
    Repeated(u32),
    /// There would be more of the quantity than this. A call with too many items is refused before its numbers are looked at, all other
    /// limits come last.
    Limit(Quantity, u32),
    /// The keeper failed.
    Keeper,
    /// Out of memory.
    Memory,
}

/// A number that a caller chose, and the name of the member that is to hold it.
#[derive(Debug, Drop)]
pub struct Chosen {
    pub number: u32,
    pub name: Text,
}

/// Which members of a kind a list has, and which of them are on the page that is shown. What is not given is not looked at.
#[derive(Debug, Drop)]
pub struct MemberQuery {
    /// The number of each.
    pub number: Option<u32>,
    /// The id of the range of each.
    pub range: Option<u32>,
    /// The name of each.
    pub name: Option<Text>,
    /// How many members a page has at most.
    pub limit: u32,
    /// How many members of the list come before the page.
    pub offset: u32,
}

impl MemberQuery {
    /// The same query again. `Err` means out of memory.
    pub fn copy(&self) -> Result<MemberQuery, AllocError>
        ensures { IfOk result (λ q. q ≡ self.now) }
    {
        let name = match &self.name {
            Some(name) => Some(name.copy()?),
            None => None,
        };
        Ok(MemberQuery {
            number: self.number,
            range: self.range,
            name,
            limit: self.limit,
            offset: self.offset,
        })
    }
}

/// What pools are asked.
#[derive(Debug, Drop)]
pub enum PoolCall {
    /// Makes a range of a kind.
    AddRange {
        kind: PoolKind,
        name: Text,
        first: u32,
        last: u32,
    },
    /// Takes a range of a kind away, which has no members.
    CutRange {
        kind: PoolKind,
        id: u32,
    },
    /// Lists the ranges of a kind.
    Ranges {
        kind: PoolKind,
    },
    /// Lists the members of a range.
    Members {
        kind: PoolKind,
        id: u32,
    },
    /// Takes a member of a range of a kind away.
    CutMember {
        kind: PoolKind,
        id: u32,
    },
    /// Lists the least free numbers of a range, up to a limit.
    Available {
        kind: PoolKind,
        id: u32,
        limit: u32,
    },
    /// Gives out the least free number of a range for each name, all or none. Whether the names were given as a list changes nothing but how
    /// the reply is written.
    Claim {
        kind: PoolKind,
        id: u32,
        list: bool,
        names: Texts,
    },
    /// Records chosen numbers of a range, all or none. Whether the items were given as a list changes nothing but how the reply is written.
    Record {
        kind: PoolKind,
        id: u32,
        list: bool,
        items: Listed<Chosen>,
    },
    /// Reads one range of a kind.
    OneRange {
        kind: PoolKind,
        id: u32,
    },
    /// Reads one member of a range of a kind.
    OneMember {
        kind: PoolKind,
        id: u32,
    },
    /// Gives a range of a kind another name, first or last number. What is not given stays.
    EditRange {
        kind: PoolKind,
        id: u32,
        name: Option<Text>,
        first: Option<u32>,
        last: Option<u32>,
    },
    /// Gives a member of a range of a kind another name, if one is given.
    EditMember {
        kind: PoolKind,
        id: u32,
        name: Option<Text>,
    },
    /// Lists members of all ranges of a kind, a page at a time.
    Page {
        kind: PoolKind,
        query: MemberQuery,
    },
}

/// What pools answer. The first five are the accepted changes.
#[derive(Debug, Drop)]
pub enum PoolReply {
    /// The range that was made.
    Made(NumberRange),
    /// The range or the member is gone.
    Gone,
    /// The members that were made, in the order of the names or the items.
    Claimed(Listed<Member>),
    /// The range as it is now.
    ChangedRange(NumberRange),
    /// The member as it is now.
    ChangedMember(Member),
    /// The range of the id.
    OneRange(NumberRange),
    /// The member of the id.
    OneMember(Member),
    /// The ranges of the kind, in the order of their ids.
    Ranges(Listed<NumberRange>),
    /// The members of the range, in the order of their ids.
    Members(Listed<Member>),
    /// Free numbers, in order.
    Numbers(Listed<u32>),
    /// A page of a list: what was asked, how many members the list has, and those that are on the page, in the order of their ids.
    Page {
        query: MemberQuery,
        count: u32,
        members: Listed<Member>,
    },
    /// The call is refused, and nothing is changed.
    Refused(PoolRefusal),
}
