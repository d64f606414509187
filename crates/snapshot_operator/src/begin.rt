//! A feed over a register, with its looks.

ghost use Rattle.std.specs.Prelude.{◌≡◌, ◌≤◌, [], All, IfOk, OnOk, map, vec_capacity, vec_len};
ghost use Rattle.register_core.specs.Machines.{pair_of};
ghost use Rattle.snapshot_reads.specs.Seen.{IsNewLook};
ghost use Rattle.snapshot_operator.specs.Shown.{IsShown};

use ipam_keeper::keeper::Keeper;
use register_core::Register;
use snapshot_reads::{Feed, Look};
use snapshot_rows::SnapshotRows;
use std::alloc::{AllocError, Global};
use std::sync::Wait;

/// Takes so many looks of a feed, for which there is room. The one error means out of memory, or that each place for a look is in use.
fn take_looks(feed: &mut Feed, readers: u32, looks: &mut Vec<Look>) -> Result<(), AllocError>
    requires none_yet { looks.old.items ≡ [] }
    requires room { readers ≤ vec_capacity looks.old }
    ensures same { feed.new ≡ feed.old }
    ensures looks { OnOk result (All (λ look. IsNewLook feed.old look) looks.new.items) }
    ensures count { OnOk result (vec_len looks.new ≡ readers) }
{
    for _ in 0..readers {
        let look = feed.look()?;
        looks.push_reserved(look);
    }
    Ok(())
}

/// A feed over two copies of the VRFs and prefixes of a register that has accepted nothing yet, and so many looks of it. The one error
/// means out of memory.
pub fn begin_feed<R: Wait, K: Keeper>(
    rt: &R,
    alloc: Global,
    register: &Register<K>,
    readers: u32,
) -> Result<(Feed, Vec<Look>), AllocError>
    requires few { readers ≤ 1000 }
    requires fresh { register.now.log ≡ [] }
    ensures shown { IfOk result (λ begun. IsShown register.now.opening (map pair_of register.now.log) begun.0) }
    ensures looks { IfOk result (λ begun. All (λ look. IsNewLook begun.0 look) begun.1.items) }
    ensures count { IfOk result (λ begun. vec_len begun.1 ≡ readers) }
    ensures none { IfOk result (λ begun. begun.0.published ≡ []) }
{
    // A hint to the prover: the state is the opening one.
    register.replayed();
    let mut looks = Vec::with_capacity(alloc, readers as usize)?;
    let first = SnapshotRows::of(alloc, register.vrfs(), register.prefixes())?;
    let second = SnapshotRows::of(alloc, register.vrfs(), register.prefixes())?;
    let mut feed = Feed::new(rt, alloc, first, second, readers as usize + 1)?;
    match take_looks(&mut feed, readers, &mut looks) {
        Ok(()) => Ok((feed, looks)),
        Err(error) => {
            drop(looks);
            feed.close(rt);
            Err(error)
        }
    }
}
