//! What a call leads to.

ghost use Rattle.std.specs.Prelude.{◌≡◌};
ghost use Rattle.pool_register.specs.Planned.{reply_of};

use number_pools::{Listed, Member, NumberRange, PoolRefusal, PoolReply};

/// A change of pools.
#[derive(Debug, Drop)]
pub enum Update {
    /// This range is made.
    AddRange(NumberRange),
    /// The range of this id goes.
    CutRange(u32),
    /// The member of this id goes.
    CutMember(u32),
    /// These members are made.
    Claim(Listed<Member>),
    /// This range is in the place of the one of its id.
    EditRange(NumberRange),
    /// This member is in the place of the one of its id.
    EditMember(Member),
}

/// What a call leads to: a refusal, a reply that changes nothing, or a change, which is made if a keeper stores it.
#[derive(Debug, Drop)]
pub enum Planned {
    /// A check refuses.
    Refused(PoolRefusal),
    /// Nothing is changed.
    Read(PoolReply),
    /// The pools are changed.
    Change(Update),
}
