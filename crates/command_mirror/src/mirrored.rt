//! A mirror of a register that was opened, from the first memory that is taken to the last lane that goes back.

ghost use Rattle.std.specs.Prelude.{◌≡◌, ◌≤◌, [], All, IfSome, map, vec_capacity, vec_len};
ghost use Rattle.http_lanes.specs.Listened.{returned_as};
ghost use Rattle.command_streams.specs.Streams.{told};
ghost use Rattle.machine_serving.specs.Views.{listener_view};
ghost use Rattle.register_core.specs.Machines.{pair_of};
ghost use Rattle.snapshot_reads.specs.Seen.{IsNewLook};
ghost use Rattle.snapshot_operator.specs.Shown.{IsShown};
ghost use Rattle.command_mirror.specs.Ran.{HasMirrored, HasRun};

use crate::lanes::open_lanes;
use crate::prepared::{Prepared, prepare};
use crate::readers::{ReaderLane, dismiss, pair_up};
use crate::together::mirror;
use command_words::Mirroring;
use http_lanes::{Listening, give_back_lanes};
use http_session::SessionEnd;
use ipam_edge::{Sink, Source};
use ipam_keeper::keeper::Keeper;
use ipam_listen::{Lane, Listener};
use register_core::Register;
use snapshot_operator::Operated;
use snapshot_reads::{Feed, Look};
use std::alloc::Global;
use std::marker::{Send, Sync};
use std::sync::Wait;
use std::thread::Threads;

/// How a mirror ended.
#[derive(Clone, Copy, Debug)]
pub(crate) enum Ran {
    /// Memory ran out before the listener was bound: neither operator nor readers ran.
    Starved,
    /// The listener could not be bound, or a lane was not handed out: neither operator nor readers ran.
    Placeless,
    /// The operator's session ended so; whether all of its changes were published; and how the listening went.
    Ended(SessionEnd, bool, Listening),
}

/// The register and the lanes after a mirror, and how it went.
struct Mirrored<K: Keeper, A> {
    register: Register<K>,
    lanes: Vec<A>,
    end: SessionEnd,
    is_whole: bool,
}

/// The operator's session and the readers next to it, to their ends.
fn mirror_all<R: Threads + Wait + Sync, K: Keeper, A: Lane + Send, So: Source, Si: Sink>(
    rt: &R,
    alloc: Global,
    register: Register<K>,
    feed: Feed,
    looks: Vec<Look>,
    lanes: Vec<A>,
    readers: Vec<ReaderLane<A>>,
    input: &mut So,
    output: &mut Si,
) -> Mirrored<K, A>
    requires shown { IsShown register.opening (map pair_of register.log) feed }
    requires none { feed.published ≡ [] }
    requires looks { All (λ look. IsNewLook feed look) looks.items }
    requires fresh { All (λ lane. IfSome (A.told lane) (λ connections. connections ≡ [])) lanes.items }
    requires many { vec_len looks ≡ vec_len lanes }
    requires none_yet { readers.items ≡ [] }
    requires room { vec_len lanes ≤ vec_capacity readers }
    ensures mirrored { HasMirrored So.reads K.told K.faults register result.register result.end result.is_whole (map (returned_as A.told A.accepts) result.lanes.items)
        input.old input.new (told So.left So.faults input.old) (told So.left So.faults input.new) (told Si.written Si.faults output.old) (told Si.written Si.faults output.new) }
    ensures many { vec_len result.lanes ≡ vec_len lanes }
{
    let mut lanes = lanes;
    let mut readers = readers;
    pair_up(&feed, looks, &mut lanes, &mut readers);
    let mut held = Some(Operated {
        register,
        feed,
        is_whole: true,
        end: SessionEnd::Memory,
    });
    mirror(rt, alloc, &mut held, input, output, readers.as_mut_slice());
    let Some(operated) = held else { unreachable!() };
    let Operated {
        register,
        feed,
        is_whole,
        end,
    } = operated;
    dismiss(rt, &feed, readers, &mut lanes);
    feed.close(rt);
    Mirrored {
        register,
        lanes,
        end,
        is_whole,
    }
}

/// The same with the lanes of a listener, if all are handed out.
fn mirror_prepared<R: Threads + Wait + Sync, K: Keeper, L: Listener, So: Source, Si: Sink>(
    rt: &R,
    alloc: Global,
    asked: &Mirroring,
    register: Register<K>,
    prepared: Prepared<L::Door>,
    input: &mut So,
    output: &mut Si,
    listener: &mut L,
) -> (Register<K>, Ran)
    requires place { prepared.place.items ≡ asked.now.bind }
    requires none_yet { (prepared.lanes.items ≡ []) × (prepared.readers.items ≡ []) }
    requires room { (asked.now.readers ≤ vec_capacity prepared.lanes) × (asked.now.readers ≤ vec_capacity prepared.readers) }
    requires shown { IsShown register.opening (map pair_of register.log) prepared.feed }
    requires none { prepared.feed.published ≡ [] }
    requires looks { All (λ look. IsNewLook prepared.feed look) prepared.looks.items }
    requires many { vec_len prepared.looks ≡ asked.now.readers }
    ensures ran { HasRun So.reads K.told K.faults asked.now register result.0 input.old input.new (told So.left So.faults input.old) (told So.left So.faults input.new)
        (told Si.written Si.faults output.old) (told Si.written Si.faults output.new) (listener_view L.bound L.lanes L.returned L.faults listener.old) (listener_view L.bound L.lanes L.returned L.faults listener.new) result.1 }
    ensures later { L.faults listener.old ≤ L.faults listener.new }
{
    let Prepared {
        place,
        lanes,
        readers,
        feed,
        looks,
    } = prepared;
    let Some(lanes) = open_lanes(listener, place, asked.connections, asked.readers, lanes) else {
        readers.destroy_empty();
        drop(looks);
        feed.close(rt);
        return (register, Ran::Placeless);
    };
    let Mirrored {
        register,
        lanes,
        end,
        is_whole,
    } = mirror_all(
        rt, alloc, register, feed, looks, lanes, readers, input, output,
    );
    let heard = give_back_lanes(listener, lanes);
    (register, Ran::Ended(end, is_whole, heard))
}

/// Mirrors a register that has accepted nothing: takes all memory, binds the listener and takes a lane for each reader, and then lets the
/// operator and the readers run. The register is given back.
pub(crate) fn mirror_register<
    R: Threads + Wait + Sync,
    K: Keeper,
    L: Listener,
    So: Source,
    Si: Sink,
>(
    rt: &R,
    alloc: Global,
    asked: &Mirroring,
    register: Register<K>,
    input: &mut So,
    output: &mut Si,
    listener: &mut L,
) -> (Register<K>, Ran)
    requires few { asked.now.readers ≤ 16 }
    requires fresh { register.log ≡ [] }
    ensures ran { HasRun So.reads K.told K.faults asked.now register result.0 input.old input.new (told So.left So.faults input.old) (told So.left So.faults input.new)
        (told Si.written Si.faults output.old) (told Si.written Si.faults output.new) (listener_view L.bound L.lanes L.returned L.faults listener.old) (listener_view L.bound L.lanes L.returned L.faults listener.new) result.1 }
    ensures later { L.faults listener.old ≤ L.faults listener.new }
{
    match prepare::<R, K, L::Door>(rt, alloc, asked, &register) {
        Ok(prepared) => mirror_prepared(
            rt, alloc, asked, register, prepared, input, output, listener,
        ),
        Err(_) => (register, Ran::Starved),
    }
}
