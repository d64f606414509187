//! What every claim asks and makes, whatever it is of: how many items there are, whether their rows have a place, and the change.

ghost use Rattle.std.specs.Prelude.{◌≡◌, ℕ, ◌<◌, ◌++◌, ◌∷◌, [], IfOk, length};
ghost use Rattle.block_claim.specs.Claims.{IsShort};
ghost use Rattle.ipam_data.specs.declared.calls.Answered.TheVariants.{AsOne};
ghost use Rattle.ipam_data.specs.declared.replies.Refusal.TheVariants.{NoSpace};
ghost use Rattle.ipam_data.specs.declared.replies.Which.TheVariants.{Claims};
ghost use Rattle.ipam_data.specs.Checks.{first, too_many, no_room, no_log};
ghost use Rattle.ipam_data.specs.Claims.{most_items, served};

use block_claim::ClaimFault;
use ipam_data::calls::{Answered, MOST_ITEMS};
use ipam_data::kinds::{Kind, LAST_ID, MOST_SPENT};
use ipam_data::replies::{Refusal, Reply, View, Views, Which};
use ipam_data::update::{Ids, Update};
use register_tables::Planned;
use std::alloc::{AllocError, Global};

/// Why a claim may not have so many items, if so.
pub fn too_many_items(wanted: usize) -> Option<Refusal>
    ensures { result ≡ too_many Claims most_items wanted }
{
    if wanted > MOST_ITEMS as usize {
        return Some(Refusal::Limit(Which::Claims, u64::from(MOST_ITEMS)));
    }
    None
}

/// Why a kind takes no further so many rows, if so: it would have more than `most`, too few ids are left, or too few log items.
pub fn no_place(
    kind: Kind,
    most: u32,
    count: u32,
    next: u32,
    spent: u32,
    more: u32,
) -> Option<Refusal>
    ensures { result ≡ first (no_room kind most count next more ++ no_log spent more ∷ []) }
{
    let more = u64::from(more);
    if u64::from(count) + more > u64::from(most) {
        return Some(Refusal::Limit(Which::Kind(kind), u64::from(most)));
    }
    if u64::from(next) + more > u64::from(LAST_ID) + 1 {
        return Some(Refusal::Limit(Which::Ids, u64::from(LAST_ID)));
    }
    if u64::from(spent) + more > u64::from(MOST_SPENT) {
        return Some(Refusal::Limit(Which::Log, u64::from(MOST_SPENT)));
    }
    None
}

/// What a claim leads to that got too little. `Err` means out of memory.
pub fn stopped(fault: ClaimFault) -> Result<Planned, AllocError>
    ensures { (wanted : ℕ) (got : ℕ) → IsShort wanted got fault → IfOk result (λ p. (p ≡ Planned.Refused (NoSpace got)) × (got < wanted)) }
{
    match fault {
        ClaimFault::NoSpace(item) => Ok(Planned::Refused(Refusal::NoSpace(item))),
        ClaimFault::Memory => Err(AllocError),
    }
}

/// The answer to a claim that was given as one object: its row.
fn first_made(views: Vec<View>) -> Reply
    ensures { result ≡ served AsOne views.items }
{
    let mut views = views;
    if views.len() == 0 {
        return Reply::MadeMany(Views::of(views));
    }
    Reply::Made(views.swap_remove(0))
}

/// The answer to a claim: the row of one object, or the rows of a list. It takes no memory.
pub fn served(answered: Answered, views: Vec<View>) -> Reply
    ensures { result ≡ served answered views.items }
{
    match answered {
        Answered::AsList => Reply::MadeMany(Views::of(views)),
        Answered::AsOne => first_made(views),
    }
}

/// Rows more, and the next id of their kind after them, with an answer. `Err` means out of memory.
pub fn changed(
    alloc: Global,
    puts: Vec<View>,
    kind: Kind,
    next: u32,
    spent: u32,
    reply: Reply,
) -> Result<Planned, AllocError>
    ensures { IfOk result (λ p. p ≡ Planned.Change (record { puts = puts.items; cuts = []; next = (kind, next) ∷ []; spent = spent }) reply) }
{
    let mut nexts = Vec::new(alloc);
    nexts.push((kind, next))?;
    Ok(Planned::Change(
        Update {
            puts: Views::of(puts),
            cuts: Ids::of(Vec::new(alloc)),
            next: Ids::of(nexts),
            spent,
        },
        reply,
    ))
}
