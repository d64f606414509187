//! A pool of numbers: room is made, and nodes are put in, shown, changed and taken out.

ghost use Rattle.std.specs.Prelude.{◌≡◌, ◌<◌, Some};
ghost use Rattle.node_pool.specs.Pooled.{node_at, IsLive};

use super::*;
use std::marker::Brand;
use std::sync::ledger::Blank;

/// The number of an id, on a counter that is made for it.
fn shown<L: Ledger>(pool: &Pool<u32>, id: NodeId, blank: Blank) -> u32
    requires name { blank.name ≡ L.name }
    requires parts { blank.parts ≡ L.parts }
    requires some { 0 < blank.parts }
    requires live { IsLive pool.now id }
    ensures { node_at pool.now id ≡ Some result }
{
    let mut steps = Steps::<L>::new(blank);
    *pool.visit(id, &mut steps)
}

#[test]
fn room_for_one_is_room_for_one(rt: HostRuntime) -> Result<(), AllocError> {
    let mut pool = Pool::<u32>::new(rt.alloc());
    assert_eq!(rt; pool.spare(), 0);
    pool.reserve(1)?;
    assert!(rt; pool.spare() >= 1);
    let only = pool.put(7);
    assert!(rt; pool.take(only) == 7);
    Ok(())
}

#[test]
fn nodes_are_kept(rt: HostRuntime) -> Result<(), AllocError> {
    let mut pool = Pool::new(rt.alloc());
    pool.reserve(2)?;
    assert!(rt; pool.spare() >= 2);
    let first = pool.put(7);
    let second = pool.put(8);
    *pool.change(first) = 9;
    assert!(rt; shown::<Brand>(&pool, first, Blank::new(1)) == 9);
    assert!(rt; shown::<Brand>(&pool, second, Blank::new(1)) == 8);
    let spare = pool.spare();
    assert!(rt; pool.take(first) == 9);
    assert!(rt; pool.spare() == spare + 1);
    Ok(())
}
