//! One connection over a machine that many connections share.

ghost use Rattle.std.specs.Prelude.{◌≡◌, ◌≤◌, ◌⊎◌, true, IfOk, OnErr, OnOk};
ghost use Rattle.ipam_edge.specs.Faults.{Rose};
ghost use Rattle.history_lock.specs.Seats.{SeatView};
ghost use Rattle.http_session.specs.Steps.{framed};
ghost use Rattle.http_session.specs.Ends.{IsLeft};
ghost use Rattle.http_session.specs.Replies.{answer_of};
ghost use Rattle.machine_session.specs.Protocols.{protocol};
ghost use Rattle.machine_session.specs.InTurn.{IsAsked, answers_in_turn};
ghost use Rattle.machine_session.specs.Sessions.{IsSharedSession};

use crate::service::{Service, Wanted, end_table, read_by};
use history_lock::{Machine, Seat, Shared};
use http_session::{Desk, Fault, HttpRequest, Reply, SessionEnd, serve};
use ipam_edge::{Sink, Source};
use std::alloc::{AllocError, Global};
use std::marker::PhantomData;
use std::sync::Wait;

/// A seat, with the machine that it belongs to and what its requests are read by: a table that is made for the first of them and stays. If
/// memory runs out for it, that request's session ends as `Memory`, and the next request tries again.
pub struct Sitting<'a, R: Wait + 'a, M: Machine + 'a, V: Service<M>> {
    rt: &'a R,
    table: Option<V::Table>,
    shared: &'a Shared<M>,
    seat: Seat<M>,
    ghost fits: { seat.lock ≡ shared.now },
}

impl<'a, R: Wait + 'a, M: Machine + 'a, V: Service<M>> Sitting<'a, R, M, V> {
    /// A seat that takes requests.
    pub fn new(rt: &'a R, shared: &'a Shared<M>, seat: Seat<M>) -> Sitting<'a, R, M, V>
        requires { seat.lock ≡ shared.now }
        ensures { result.seat ≡ seat }
    {
        Sitting {
            rt,
            table: None,
            shared,
            seat,
        }
    }

    /// The seat again.
    pub fn into_seat(self) -> Seat<M>
        ensures { result ≡ self.entry.seat }
    {
        let Sitting {
            rt: _,
            table,
            shared: _,
            seat,
        } = self;
        end_table::<M, V>(table);
        seat
    }
}

/// Makes a call through the seat, and writes its answer. The one error means out of memory for the answer, which is then lost.
fn ask<R: Wait, M: Machine, V: Service<M>>(
    rt: &R,
    alloc: Global,
    shared: &Shared<M>,
    seat: Seat<M>,
    call: M::Call,
    along: V::Along,
) -> (Seat<M>, Result<Reply, AllocError>)
    requires lock { seat.lock ≡ shared.now }
    requires takes { M.takes call }
    ensures lock { result.0.lock ≡ shared.now }
    ensures asked { (shown : V.Shown) → V.shows along (M.said call) shown
        → IsAsked (protocol M.step M.answer M.kind M.fallible V.asks V.tells V.refuses V.misread) seat (M.said call) shown result.1 result.0 }
{
    let (seat, reply, place) = shared.call(rt, seat, call);
    let answer = V::write(alloc, reply, along, place);
    (seat, answer)
}

/// The request handler of a shared machine: each request is answered through the seat.
pub struct SharedMachine<'a, R: Wait + 'a, M: Machine + 'a, V: Service<M>> {
    of: PhantomData<(&'a R, M, V)>,
}

impl<'a, R: Wait + 'a, M: Machine + 'a, V: Service<M>> SharedMachine<'a, R, M, V> {
    /// The request handler of all seats.
    pub fn new() -> SharedMachine<'a, R, M, V> {
        SharedMachine { of: PhantomData }
    }

    /// Lets it go.
    pub fn close(self) {
        let SharedMachine { of: _ } = self;
    }
}

impl<'a, R: Wait + 'a, M: Machine + 'a, V: Service<M>> Desk for SharedMachine<'a, R, M, V> {
    type Seat = Sitting<'a, R, M, V>;

    ghost View = { SeatView M.State M.Said };

    ghost view = { λ s. s.seat };

    ghost may = { answers_in_turn (protocol M.step M.answer M.kind M.fallible V.asks V.tells V.refuses V.misread) };

    ghost whole = { λ s. true };

    fn answer(
        &self,
        alloc: Global,
        seat: Sitting<'a, R, M, V>,
        request: &HttpRequest,
    ) -> (Sitting<'a, R, M, V>, Result<Reply, AllocError>)
        ensures answer { IfOk result.1 (λ r. (answers_in_turn (protocol M.step M.answer M.kind M.fallible V.asks V.tells V.refuses V.misread)).answers seat.entry.seat (framed request.now) (answer_of r) result.0.seat) }
        ensures err { OnErr result.1 (IsLeft (answers_in_turn (protocol M.step M.answer M.kind M.fallible V.asks V.tells V.refuses V.misread)) seat.entry.seat (framed request.now) result.0.seat) }
        ensures whole { true ≡ true → OnOk result.1 (true ≡ true) }
    {
        let Sitting {
            rt,
            table,
            shared,
            seat,
        } = seat;
        let (table, read) = read_by::<M, V>(alloc, table, request);
        match read {
            Ok(wanted) => match wanted {
                Wanted::Call(call, along) => {
                    let (seat, answer) = ask::<R, M, V>(rt, alloc, shared, seat, call, along);
                    (
                        Sitting {
                            rt,
                            table,
                            shared,
                            seat,
                        },
                        answer,
                    )
                }
                Wanted::Refused(answer) => (
                    Sitting {
                        rt,
                        table,
                        shared,
                        seat,
                    },
                    Ok(answer),
                ),
            },
            Err(error) => (
                Sitting {
                    rt,
                    table,
                    shared,
                    seat,
                },
                Err(error),
            ),
        }
    }

    fn refuse(&self, fault: Fault) -> Reply {
        V::refuse(fault)
    }
}

/// Serves one connection over the shared machine, from its first byte to its end, and notes its changes under the seat's number.
///
/// `Closed` comes with all requests answered; `SourceFault` if a read failed, with all requests that lay whole in the bytes read
/// answered; `SinkFault` if a write failed, with a shorter prefix of the last answer written; `Memory` if memory ran out before
/// a call reached the machine, or for the text of a reply.
pub fn serve_session<R: Wait, M: Machine, V: Service<M>, So: Source, Si: Sink>(
    rt: &R,
    alloc: Global,
    shared: &Shared<M>,
    seat: Seat<M>,
    source: &mut So,
    sink: &mut Si,
) -> (Seat<M>, SessionEnd)
    requires { seat.lock ≡ shared.now }
    ensures session { IsSharedSession (protocol M.step M.answer M.kind M.fallible V.asks V.tells V.refuses V.misread) So.reads seat result.0 source.old source.new (So.left source.old) (So.left source.new) (Si.written sink.old) (Si.written sink.new) result.1 }
    ensures source_later { So.faults source.old ≤ So.faults source.new }
    ensures source { result.1 ≡ SessionEnd.SourceFault → Rose (So.faults source.old) (So.faults source.new) }
    ensures source_kept { (result.1 ≡ SessionEnd.SourceFault) ⊎ (So.faults source.new ≡ So.faults source.old) }
    ensures sink_later { Si.faults sink.old ≤ Si.faults sink.new }
    ensures sink { result.1 ≡ SessionEnd.SinkFault → Rose (Si.faults sink.old) (Si.faults sink.new) }
    ensures sink_kept { (result.1 ≡ SessionEnd.SinkFault) ⊎ (Si.faults sink.new ≡ Si.faults sink.old) }
{
    let handler: SharedMachine<'_, R, M, V> = SharedMachine { of: PhantomData };
    let sitting: Sitting<'_, R, M, V> = Sitting {
        rt,
        table: None,
        shared,
        seat,
    };
    let (sitting, end) = serve(alloc, &handler, sitting, source, sink);
    let SharedMachine { of: _ } = handler;
    let Sitting {
        rt: _,
        table,
        shared: _,
        seat,
    } = sitting;
    end_table::<M, V>(table);
    (seat, end)
}
