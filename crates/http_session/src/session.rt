//! One connection, from its first byte to its end.
ghost use Rattle.std.specs.Prelude.{◌≡◌, ◌⊎◌, ◌≤◌, ◌<◌, ℕ, Bool, true, List, [], Option, IfOk, OnErr, OnOk};
ghost use Rattle.ipam_edge.specs.Faults.{Rose};
ghost use Rattle.http_session.specs.Steps.{framed};
ghost use Rattle.http_session.specs.Talk.{May, is_head};
ghost use Rattle.http_session.specs.Ends.{IsLeft, IsSession};
ghost use Rattle.http_session.specs.Turns.{HasEndCause, IsLineSession};
ghost use Rattle.http_session.specs.Replies.{answer_of};

use crate::{Asked, Fault, HttpRequest, Inbox, PutEnd, Reply, next_request, put_answer};
use ipam_edge::{Both, Line, Sink, Source};
use std::alloc::{AllocError, Global};

/// What answers the requests of one connection, each with a seat that is taken and given back, and
/// the bytes that are refused in the place of a request.
pub trait Desk {
    /// What the desk works on for this connection.
    type Seat;

    /// What is seen of a seat.
    ghost View: { Type 0 };

    ghost view: { Self.Seat → View };

    /// From one view of a seat a request may be answered so, and the seat is then seen so; and bytes
    /// that are refused may be answered so.
    ghost may: { May View };

    /// Whether nothing that the seat promised is missing. With an answer it stays so; a session over a seat that has lost something ends
    /// as `Memory`.
    ghost whole: { Self.Seat → Bool };

    /// Answers a request. After `AllocError` the seat is seen as before, or the request was acted
    /// on and its answer is lost.
    fn answer(
        &self,
        alloc: Global,
        seat: Self::Seat,
        request: &HttpRequest,
    ) -> (Self::Seat, Result<Reply, AllocError>)
        ensures answer { IfOk result.1 (λ r. may.answers (view seat) (framed request.now) (answer_of r) (view result.0)) }
        ensures err { OnErr result.1 (IsLeft may (view seat) (framed request.now) (view result.0)) }
        ensures whole { whole seat ≡ true → OnOk result.1 (whole result.0 ≡ true) };

    /// Answers bytes that are refused in the place of a request, without a seat. It takes no memory.
    fn refuse(&self, fault: Fault) -> Reply
        ensures refused { may.refuses fault (answer_of result) };
}

/// How a session ended.
#[derive(Clone, Copy, Debug, PartialEq, Eq)]
pub enum SessionEnd {
    /// So many answers were written, and the last one closed the connection, or the input ended.
    Closed(u32),
    SourceFault,
    SinkFault,
    Memory,
}

/// Whether the method is HEAD, whose answers have no byte after their head.
fn is_head(method: &[u8]) -> bool
    ensures { result ≡ is_head method.now }
{
    method == b"HEAD".as_slice()
}

/// Serves one connection to its end, over a line. Each read is made while the bytes so far have no
/// whole item but those whose answers were written whole before, so that a client never waits
/// for an answer while the session waits for its bytes. The ends are those of `serve`.
pub fn serve_line<D: Desk, L: Line>(
    alloc: Global,
    desk: &D,
    seat: D::Seat,
    line: &mut L,
) -> (D::Seat, SessionEnd)
    ensures session { IsLineSession D.may L.reads L.writes L.left L.written (D.view seat) (D.view result.0) line.old line.new result.1 }
    ensures cause { HasEndCause (⟦<L as Source>⟧.faults line.old) (⟦<L as Source>⟧.faults line.new) (⟦<L as Sink>⟧.faults line.old) (⟦<L as Sink>⟧.faults line.new) result.1 }
    ensures whole { D.whole seat ≡ true → (result.1 ≡ SessionEnd.Memory) ⊎ (D.whole result.0 ≡ true) }
{
    let mut inbox = Inbox::new(alloc);
    let mut seat = seat;
    loop {
        match next_request(alloc, line, &mut inbox) {
            Asked::Request(request) => {
                let (next, reply) = desk.answer(alloc, seat, &request);
                seat = next;
                let Ok(reply) = reply else {
                    return (seat, SessionEnd::Memory);
                };
                match put_answer(line, &reply, request.close, is_head(&request.method)) {
                    PutEnd::SinkFault => return (seat, SessionEnd::SinkFault),
                    PutEnd::Whole => {}
                }
                if request.close {
                    return (seat, SessionEnd::Closed(inbox.number()));
                }
            }
            Asked::Bad(fault) => {
                let reply = desk.refuse(fault);
                match put_answer(line, &reply, true, false) {
                    PutEnd::SinkFault => return (seat, SessionEnd::SinkFault),
                    PutEnd::Whole => return (seat, SessionEnd::Closed(inbox.number())),
                }
            }
            Asked::End => return (seat, SessionEnd::Closed(inbox.number())),
            Asked::SourceFault => return (seat, SessionEnd::SourceFault),
            Asked::Memory => return (seat, SessionEnd::Memory),
        }
    }
}

/// Serves two objects as one line.
fn serve_both<D: Desk, R: Source, W: Sink>(
    alloc: Global,
    desk: &D,
    seat: D::Seat,
    line: &mut Both<'_, R, W>,
) -> (D::Seat, SessionEnd)
    ensures source_lent { line.new.source.ghost_name ≡ line.old.source.ghost_name }
    ensures sink_lent { line.new.sink.ghost_name ≡ line.old.sink.ghost_name }
    ensures session { IsSession D.may R.reads (D.view seat) (D.view result.0) line.old.source.now line.new.source.now (R.left line.old.source.now) (R.left line.new.source.now) (W.written line.old.sink.now) (W.written line.new.sink.now) result.1 }
    ensures source_later { R.faults line.old.source.now ≤ R.faults line.new.source.now }
    ensures source { result.1 ≡ SessionEnd.SourceFault → Rose (R.faults line.old.source.now) (R.faults line.new.source.now) }
    ensures source_kept { (result.1 ≡ SessionEnd.SourceFault) ⊎ (R.faults line.new.source.now ≡ R.faults line.old.source.now) }
    ensures sink_later { W.faults line.old.sink.now ≤ W.faults line.new.sink.now }
    ensures sink { result.1 ≡ SessionEnd.SinkFault → Rose (W.faults line.old.sink.now) (W.faults line.new.sink.now) }
    ensures sink_kept { (result.1 ≡ SessionEnd.SinkFault) ⊎ (W.faults line.new.sink.now ≡ W.faults line.old.sink.now) }
    ensures whole { D.whole seat ≡ true → (result.1 ≡ SessionEnd.Memory) ⊎ (D.whole result.0 ≡ true) }
{
    serve_line(alloc, desk, seat, line)
}

/// Serves one connection to its end: answers its requests in order, until one closes, or the bytes
/// are refused, or the input ends. The answer to HEAD is the head alone. `SourceFault` is returned if a read failed, with all requests that
/// lay whole in the bytes read answered; `SinkFault` if a write failed, with a prefix of the last
/// answer written; `Memory` if memory ran out. The count of either rises with its own fault alone. It serves the two as one line, as
/// `serve_line` does, which says which reads were before which writes.
pub fn serve<D: Desk, R: Source, W: Sink>(
    alloc: Global,
    desk: &D,
    seat: D::Seat,
    source: &mut R,
    sink: &mut W,
) -> (D::Seat, SessionEnd)
    ensures session { IsSession D.may R.reads (D.view seat) (D.view result.0) source.old source.new (R.left source.old) (R.left source.new) (W.written sink.old) (W.written sink.new) result.1 }
    ensures source_later { R.faults source.old ≤ R.faults source.new }
    ensures source { result.1 ≡ SessionEnd.SourceFault → Rose (R.faults source.old) (R.faults source.new) }
    ensures source_kept { (result.1 ≡ SessionEnd.SourceFault) ⊎ (R.faults source.new ≡ R.faults source.old) }
    ensures sink_later { W.faults sink.old ≤ W.faults sink.new }
    ensures sink { result.1 ≡ SessionEnd.SinkFault → Rose (W.faults sink.old) (W.faults sink.new) }
    ensures sink_kept { (result.1 ≡ SessionEnd.SinkFault) ⊎ (W.faults sink.new ≡ W.faults sink.old) }
    ensures whole { D.whole seat ≡ true → (result.1 ≡ SessionEnd.Memory) ⊎ (D.whole result.0 ≡ true) }
{
    let mut line = Both { source, sink };
    serve_both(alloc, desk, seat, &mut line)
}
