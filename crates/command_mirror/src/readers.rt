//! Readers, each with a look and its own lane.

ghost use Rattle.std.specs.Prelude.{◌≡◌, ◌≤◌, [], All, IfSome, Some, length, map, vec_capacity, vec_len};
ghost use Rattle.http_lanes.specs.Listened.{returned_as};
ghost use Rattle.snapshot_reads.specs.Seen.{IsNewLook};
ghost use Rattle.command_mirror.specs.Readers.{AllHaveRead, AreReadLanes, HasRead, IsFresh, IsRead, IsReady, look_of};

use http_lanes::serve_lane;
use ipam_listen::{Lane, OpenGate};
use snapshot_reads::{Feed, Look};
use snapshot_session::ReaderHandler;
use std::alloc::Global;
use std::marker::{Send, Sync};
use std::sync::Wait;
use std::thread::{Threads, for_each_mut};

/// A look at what is published, and the lane of the connections that are answered from it.
#[derive(Drop)]
pub(crate) struct ReaderLane<A> {
    pub look: Option<Look>,
    pub lane: A,
}

/// One reader's work, in its own thread: serves the connections of its lane, one after another, until no accept is left.
fn read_lane<A: Lane>(alloc: Global, reader: &mut ReaderLane<A>)
    requires { IsReady A.told reader.old.look reader.old.lane }
    ensures { HasRead A.told A.accepts A.faults reader.old.look reader.old.lane reader.new.look reader.new.lane }
{
    let Some(look) = reader.look.take() else {
        unreachable!()
    };
    let handler = ReaderHandler::new(alloc);
    // The open gate does not look at the reader's number.
    reader.look = Some(serve_lane(alloc, &handler, look, &mut reader.lane, &OpenGate, 0));
    drop(handler);
}

/// Serves the connections of all readers' lanes, each reader in its own thread; if no thread can be started they run one after another.
pub(crate) fn serve_readers<R: Threads + Sync, A: Lane + Send>(
    rt: &R,
    alloc: Global,
    readers: &mut [ReaderLane<A>],
)
    requires { All (λ r. IsReady A.told r.look r.lane) readers.old }
    ensures read { AllHaveRead A.told A.accepts A.faults (λ r. r.look) (λ r. r.lane) readers.old readers.new }
    ensures all { length readers.new ≡ length readers.old }
{
    let threads = readers.len();
    if threads > 0 {
        for_each_mut(
            rt,
            readers,
            threads,
            &|_, reader: &mut ReaderLane<A>|
                requires { IsReady A.told reader.now.look reader.now.lane }
                ensures { HasRead A.told A.accepts A.faults reader.entry.now.look reader.entry.now.lane reader.exit.now.look reader.exit.now.lane }
            { read_lane(alloc, reader) },
        );
    }
}

/// Gives each lane a look of a feed that has published nothing, the last lane first. There is room for the readers: it takes no memory.
pub(crate) fn pair_up<A: Lane>(
    feed: &Feed,
    looks: Vec<Look>,
    lanes: &mut Vec<A>,
    readers: &mut Vec<ReaderLane<A>>,
)
    requires none { feed.now.published ≡ [] }
    requires looks { All (λ look. IsNewLook feed.now look) looks.items }
    requires fresh { All (λ lane. IfSome (A.told lane) (λ connections. connections ≡ [])) lanes.old.items }
    requires many { vec_len looks ≡ vec_len lanes.old }
    requires none_yet { readers.old.items ≡ [] }
    requires room { vec_len lanes.old ≤ vec_capacity readers.old }
    ensures fresh { All (λ r. IsFresh A.told (look_of feed.now) r.look r.lane) readers.new.items }
    ensures all { vec_len readers.new ≡ vec_len lanes.old }
    ensures none_left { lanes.new.items ≡ [] }
    ensures room { vec_capacity lanes.new ≡ vec_capacity lanes.old }
{
    let mut looks = looks;
    while let Some(lane) = lanes.pop() {
        let Some(look) = looks.pop() else {
            unreachable!()
        };
        readers.push_reserved(ReaderLane {
            look: Some(look),
            lane,
        });
    }
}

/// Puts the lanes of readers together, the last reader's first. The feed published all that each of their looks saw. There is room for the
/// lanes: it takes no memory.
pub(crate) fn dismiss<R: Wait, A: Lane>(
    rt: &R,
    feed: &Feed,
    readers: Vec<ReaderLane<A>>,
    lanes: &mut Vec<A>,
)
    requires read { All (λ r. IsRead A.told A.accepts (look_of feed.now) r.look r.lane) readers.items }
    requires none_yet { lanes.old.items ≡ [] }
    requires room { vec_len readers ≤ vec_capacity lanes.old }
    ensures read { AreReadLanes feed.now.opening feed.now.published (map (returned_as A.told A.accepts) lanes.new.items) }
    ensures all { vec_len lanes.new ≡ vec_len readers }
{
    let mut left = readers;
    while let Some(reader) = left.pop() {
        let ReaderLane { look, lane } = reader;
        let Some(look) = look else { unreachable!() };
        look.follow(rt, feed);
        drop(look);
        lanes.push_reserved(lane);
    }
    left.destroy_empty();
}
