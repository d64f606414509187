//! The operator's session.

ghost use Rattle.std.specs.Prelude.{◌≡◌, ◌≤◌, ◌⊎◌, true, map};
ghost use Rattle.ipam_edge.specs.Faults.{Rose};
ghost use Rattle.machine_session.specs.Owned.{owned};
ghost use Rattle.machine_session.specs.Sessions.{IsOwnSession};
ghost use Rattle.register_core.specs.Machines.{pair_of, seen};
ghost use Rattle.rest_ipam.specs.Protocol.{seen_protocol};
ghost use Rattle.snapshot_operator.specs.Shown.{IsKept, IsShown};

use crate::publisher::Publisher;
use http_session::SessionEnd;
use ipam_edge::{Sink, Source};
use ipam_keeper::keeper::Keeper;
use machine_session::serve_own;
use register_core::Register;
use rest_ipam::RegisterService;
use snapshot_reads::Feed;
use std::alloc::Global;
use std::sync::Wait;

/// What is left of an operator's session.
pub struct Operated<K: Keeper> {
    pub register: Register<K>,
    pub feed: Feed,
    /// Whether the feed shows all accepted changes: it does but if memory ran out to publish one.
    pub is_whole: bool,
    pub end: SessionEnd,
}

/// Serves the operator's connection over its own register, from its first byte to its end, as `machine_session::serve_own` does, and
/// notes its changes under the number 0. Each accepted change is published by the feed before it is answered, which may wait for a reader to
/// leave a copy. If memory runs out to publish a change, the change is kept and its answer is lost; then no later change is published.
pub fn serve_operator<R: Wait, K: Keeper, So: Source, Si: Sink>(
    rt: &R,
    alloc: Global,
    register: Register<K>,
    feed: Feed,
    source: &mut So,
    sink: &mut Si,
) -> Operated<K>
    requires { IsShown register.opening (map pair_of register.log) feed }
    ensures session { IsOwnSession seen_protocol So.reads (owned (seen register.opening (K.told register.keeper)) (map pair_of register.log) (K.faults register.keeper))
        (owned (seen result.register.opening (K.told result.register.keeper)) (map pair_of result.register.log) (K.faults result.register.keeper))
        source.old source.new (So.left source.old) (So.left source.new) (Si.written sink.old) (Si.written sink.new) result.end }
    ensures kept { IsKept result.is_whole result.register.opening (map pair_of result.register.log) result.feed }
    ensures memory { (result.end ≡ SessionEnd.Memory) ⊎ (result.is_whole ≡ true) }
    ensures same { (result.feed.book ≡ feed.book) × (result.feed.opening ≡ feed.opening) }
    ensures source_later { So.faults source.old ≤ So.faults source.new }
    ensures source { result.end ≡ SessionEnd.SourceFault → Rose (So.faults source.old) (So.faults source.new) }
    ensures source_kept { (result.end ≡ SessionEnd.SourceFault) ⊎ (So.faults source.new ≡ So.faults source.old) }
    ensures sink_later { Si.faults sink.old ≤ Si.faults sink.new }
    ensures sink { result.end ≡ SessionEnd.SinkFault → Rose (Si.faults sink.old) (Si.faults sink.new) }
    ensures sink_kept { (result.end ≡ SessionEnd.SinkFault) ⊎ (Si.faults sink.new ≡ Si.faults sink.old) }
{
    let mut register = register;
    register.lend_updates();
    let (register, publisher, end) = serve_own::<
        Register<K>,
        RegisterService,
        Publisher<'_, R>,
        So,
        Si,
    >(alloc, register, Publisher::new(rt, feed), source, sink);
    let (feed, is_whole) = publisher.into_parts();
    Operated {
        register,
        feed,
        is_whole,
        end,
    }
}
