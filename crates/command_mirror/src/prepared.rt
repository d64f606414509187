//! What a mirror takes memory for before its listener is bound.

ghost use Rattle.std.specs.Prelude.{◌≡◌, ◌≤◌, [], All, IfOk, IfSome, map, vec_capacity, vec_len};
ghost use Rattle.register_core.specs.Machines.{pair_of};
ghost use Rattle.snapshot_reads.specs.Seen.{IsNewLook};
ghost use Rattle.snapshot_operator.specs.Shown.{IsShown};

use crate::readers::ReaderLane;
use command_words::Mirroring;
use ipam_keeper::keeper::Keeper;
use register_core::Register;
use snapshot_operator::begin_feed;
use snapshot_reads::{Feed, Look};
use std::alloc::{AllocError, Global};
use std::sync::Wait;

/// The text of the place, room for lanes and readers, and a feed of the register with a look for each reader.
pub(crate) struct Prepared<A> {
    pub place: Vec<u8>,
    pub lanes: Vec<A>,
    pub readers: Vec<ReaderLane<A>>,
    pub feed: Feed,
    pub looks: Vec<Look>,
}

/// Room for so many readers and their lanes. `None` means out of memory.
fn room_for<A>(alloc: Global, readers: u32) -> Option<(Vec<A>, Vec<ReaderLane<A>>)>
    ensures none_yet { IfSome result (λ r. (r.0.items ≡ []) × (r.1.items ≡ [])) }
    ensures room { IfSome result (λ r. (readers ≤ vec_capacity r.0) × (readers ≤ vec_capacity r.1)) }
{
    let lanes = Vec::with_capacity(alloc, readers as usize).ok()?;
    match Vec::with_capacity(alloc, readers as usize) {
        Ok(room) => Some((lanes, room)),
        Err(_) => {
            lanes.destroy_empty();
            None
        }
    }
}

/// Takes all memory that a mirror of a register that has accepted nothing needs but for its requests and changes. The one error means out of
/// memory.
pub(crate) fn prepare<R: Wait, K: Keeper, A>(
    rt: &R,
    alloc: Global,
    asked: &Mirroring,
    register: &Register<K>,
) -> Result<Prepared<A>, AllocError>
    requires few { asked.now.readers ≤ 16 }
    requires fresh { register.now.log ≡ [] }
    ensures place { IfOk result (λ p. p.place.items ≡ asked.now.bind) }
    ensures none_yet { IfOk result (λ p. (p.lanes.items ≡ []) × (p.readers.items ≡ [])) }
    ensures room { IfOk result (λ p. (asked.now.readers ≤ vec_capacity p.lanes) × (asked.now.readers ≤ vec_capacity p.readers)) }
    ensures shown { IfOk result (λ p. IsShown register.now.opening (map pair_of register.now.log) p.feed) }
    ensures none { IfOk result (λ p. p.feed.published ≡ []) }
    ensures looks { IfOk result (λ p. All (λ look. IsNewLook p.feed look) p.looks.items) }
    ensures many { IfOk result (λ p. vec_len p.looks ≡ asked.now.readers) }
{
    let place = Vec::from_slice(alloc, asked.bind.as_str().as_bytes())?;
    let Some((lanes, readers)) = room_for::<A>(alloc, asked.readers) else {
        return Err(AllocError);
    };
    match begin_feed(rt, alloc, register, asked.readers) {
        Ok((feed, looks)) => Ok(Prepared {
            place,
            lanes,
            readers,
            feed,
            looks,
        }),
        Err(error) => {
            lanes.destroy_empty();
            readers.destroy_empty();
            Err(error)
        }
    }
}
