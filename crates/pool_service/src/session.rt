//! One connection over pools that many connections share.

ghost use Rattle.std.specs.Prelude.{◌≡◌, ◌≤◌, ◌⊎◌};
ghost use Rattle.ipam_edge.specs.Faults.{Rose};
ghost use Rattle.machine_session.specs.Sessions.{IsSharedSession};
ghost use Rattle.pool_service.specs.Protocol.{pool_protocol};

use crate::service::PoolService;
use history_lock::{Seat, Shared};
use http_session::SessionEnd;
use ipam_edge::{Sink, Source};
use machine_session::serve_session;
use pool_keeper::keeper::PoolKeeper;
use pool_register::Pools;
use std::alloc::Global;
use std::sync::Wait;

/// Serves one connection over shared pools, from its first byte to its end, and notes its changes under the seat's number.
///
/// `Closed` comes with all requests answered; `SourceFault` if a read failed, with all requests that lay whole in the bytes read
/// answered; `SinkFault` if a write failed, with a shorter prefix of the last answer written; `Memory` if memory ran out before
/// a call reached the pools, or for the text of a reply. The count of either end rises with its own fault alone.
pub fn serve_pools<R: Wait, K: PoolKeeper, So: Source, Si: Sink>(
    rt: &R,
    alloc: Global,
    shared: &Shared<Pools<K>>,
    seat: Seat<Pools<K>>,
    source: &mut So,
    sink: &mut Si,
) -> (Seat<Pools<K>>, SessionEnd)
    requires { seat.lock ≡ shared.now }
    ensures session { IsSharedSession pool_protocol So.reads seat result.0 source.old source.new (So.left source.old) (So.left source.new) (Si.written sink.old) (Si.written sink.new) result.1 }
    ensures source_later { So.faults source.old ≤ So.faults source.new }
    ensures source { result.1 ≡ SessionEnd.SourceFault → Rose (So.faults source.old) (So.faults source.new) }
    ensures source_kept { (result.1 ≡ SessionEnd.SourceFault) ⊎ (So.faults source.new ≡ So.faults source.old) }
    ensures sink_later { Si.faults sink.old ≤ Si.faults sink.new }
    ensures sink { result.1 ≡ SessionEnd.SinkFault → Rose (Si.faults sink.old) (Si.faults sink.new) }
    ensures sink_kept { (result.1 ≡ SessionEnd.SinkFault) ⊎ (Si.faults sink.new ≡ Si.faults sink.old) }
{
    serve_session::<R, Pools<K>, PoolService, So, Si>(rt, alloc, shared, seat, source, sink)
}
