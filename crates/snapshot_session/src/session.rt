//! One connection of a reader.

ghost use Rattle.std.specs.Prelude.{◌≡◌, ◌≤◌, ◌⊎◌};
ghost use Rattle.ipam_edge.specs.Faults.{Rose};
ghost use Rattle.http_session.specs.Ends.{IsSession};
ghost use Rattle.snapshot_reads.specs.Seen.{Grows};
ghost use Rattle.snapshot_session.specs.Reads.{answers_read};

use crate::handler::ReaderHandler;
use http_session::{SessionEnd, serve};
use ipam_edge::{Sink, Source};
use snapshot_reads::Look;
use std::alloc::Global;

/// Serves one connection of a reader, from its first byte to its end: each GET on the rows, or on one row, of VRFs or prefixes is answered
/// from one read of the look, and all else is refused. The look is given back.
///
/// `Closed` comes with all requests answered; `SourceFault` if a read failed, with all requests that lay whole in the bytes read
/// answered; `SinkFault` if a write failed, with a shorter prefix of the last answer written; `Memory` if memory ran out, or if the
/// look answered so.
pub fn serve_reader<So: Source, Si: Sink>(
    alloc: Global,
    look: Look,
    source: &mut So,
    sink: &mut Si,
) -> (Look, SessionEnd)
    ensures session { IsSession answers_read So.reads look result.0 source.old source.new (So.left source.old) (So.left source.new) (Si.written sink.old) (Si.written sink.new) result.1 }
    ensures grows { Grows look result.0 }
    ensures source_later { So.faults source.old ≤ So.faults source.new }
    ensures source { result.1 ≡ SessionEnd.SourceFault → Rose (So.faults source.old) (So.faults source.new) }
    ensures source_kept { (result.1 ≡ SessionEnd.SourceFault) ⊎ (So.faults source.new ≡ So.faults source.old) }
    ensures sink_later { Si.faults sink.old ≤ Si.faults sink.new }
    ensures sink { result.1 ≡ SessionEnd.SinkFault → Rose (Si.faults sink.old) (Si.faults sink.new) }
    ensures sink_kept { (result.1 ≡ SessionEnd.SinkFault) ⊎ (Si.faults sink.new ≡ Si.faults sink.old) }
{
    let handler = ReaderHandler::new(alloc);
    let served = serve(alloc, &handler, look, source, sink);
    drop(handler);
    served
}
