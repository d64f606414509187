//! One connection that has a machine for itself.

ghost use Rattle.std.specs.Prelude.{◌≡◌, ◌≤◌, ◌⊎◌, true, IfOk, OnErr, OnOk};
ghost use Rattle.ipam_edge.specs.Faults.{Rose};
ghost use Rattle.history_lock.specs.Replay.{replay};
ghost use Rattle.http_session.specs.Steps.{framed};
ghost use Rattle.http_session.specs.Ends.{IsLeft};
ghost use Rattle.http_session.specs.Replies.{answer_of};
ghost use Rattle.machine_session.specs.Protocols.{protocol};
ghost use Rattle.machine_session.specs.Owned.{Owned, owned, tagged, IsActed, answers_alone};
ghost use Rattle.machine_session.specs.Sessions.{IsOwnSession};

use crate::follower::Follower;
use crate::service::{Service, Wanted};
use history_lock::Machine;
use http_session::{Desk, Fault, HttpRequest, Reply, SessionEnd, serve};
use ipam_edge::{Sink, Source};
use std::alloc::{AllocError, AllocFailed, Global};
use std::marker::PhantomData;

/// The number under which the one caller's changes are noted.
const CALLER: u32 = 0;

/// A machine, in a box so that it never moves, and what follows it.
pub struct OwnSeat<M: Machine, F: Follower<M>> {
    machine: Box<M>,
    follower: F,
    ghost kept: { F.keeps follower (M.opening machine.value) (M.log machine.value) } by { F.keeps_is_fact follower (M.opening machine.value) (M.log machine.value) },
}

/// Lets the machine answer a call, and writes the answer; an accepted change is then followed. The one error means out of memory for the
/// answer or for what follows: the answer is then lost.
fn act<M: Machine, V: Service<M>, F: Follower<M>>(
    alloc: Global,
    machine: &mut M,
    follower: F,
    call: M::Call,
    along: V::Along,
) -> (F, Result<Reply, AllocError>)
    requires takes { M.takes call }
    requires kept { F.keeps follower (M.opening machine.old) (M.log machine.old) }
    ensures kept { F.keeps result.0 (M.opening machine.new) (M.log machine.new) }
    ensures tag { F.tag result.0 ≡ F.tag follower }
    ensures whole { F.whole follower ≡ true → OnOk result.1 (F.whole result.0 ≡ true) }
    ensures acted { (shown : V.Shown) → V.shows along (M.said call) shown
        → IsActed (protocol M.step M.answer M.kind M.fallible V.asks V.tells V.refuses V.misread) (owned (M.opening machine.old) (M.log machine.old) (M.faults machine.old)) (M.said call) shown result.1
        (owned (M.opening machine.new) (M.log machine.new) (M.faults machine.new)) }
{
    let place = machine.entries();
    let reply = machine.act(CALLER, call);
    let answer = V::write(alloc, reply, along, place);
    if machine.entries() == place {
        return (follower, answer);
    }
    let (follower, followed) = follower.follow(alloc, machine);
    match followed {
        Ok(()) => (follower, answer),
        Err(error) => (follower, Err(error)),
    }
}

/// The request handler of a connection that has a machine for itself. What its requests are read by is lent to it.
pub struct OwnMachine<'a, M: Machine, V: Service<M>, F: Follower<M>> {
    table: &'a V::Table,
    of: PhantomData<(M, F)>,
}

impl<'a, M: Machine, V: Service<M>, F: Follower<M>> Desk for OwnMachine<'a, M, V, F> {
    type Seat = OwnSeat<M, F>;

    ghost View = { Owned M.State M.Said × F.Tag };

    ghost view = { λ s. (owned (M.opening s.machine.value) (M.log s.machine.value) (M.faults s.machine.value), F.tag s.follower) };

    ghost may = { tagged (answers_alone (protocol M.step M.answer M.kind M.fallible V.asks V.tells V.refuses V.misread)) };

    ghost whole = { λ s. F.whole s.follower };

    fn answer(
        &self,
        alloc: Global,
        seat: OwnSeat<M, F>,
        request: &HttpRequest,
    ) -> (OwnSeat<M, F>, Result<Reply, AllocError>) {
        let OwnSeat {
            mut machine,
            follower,
        } = seat;
        match V::read(alloc, self.table, request) {
            Ok(wanted) => match wanted {
                Wanted::Call(call, along) => {
                    let (follower, answer) = act::<M, V, F>(
                        alloc,
                        machine.as_mut(),
                        follower,
                        call,
                        along,
                    );
                    (OwnSeat { machine, follower }, answer)
                }
                Wanted::Refused(answer) => (OwnSeat { machine, follower }, Ok(answer)),
            },
            Err(error) => (OwnSeat { machine, follower }, Err(error)),
        }
    }

    fn refuse(&self, fault: Fault) -> Reply {
        V::refuse(fault)
    }
}

/// Serves one connection with its own machine, from its first byte to its end, and notes its changes under the number 0. What follows
/// the machine does so after each accepted change. The ends are those of `serve_session`, and `Memory` also if memory ran out for the
/// box that the machine is put into, with nothing read, or for what follows: with any other end the follower could follow every change. The
/// table is lent.
pub fn serve_own_by<M: Machine, V: Service<M>, F: Follower<M>, So: Source, Si: Sink>(
    alloc: Global,
    table: &V::Table,
    machine: M,
    follower: F,
    source: &mut So,
    sink: &mut Si,
) -> (M, F, SessionEnd)
    requires { F.keeps follower (M.opening machine) (M.log machine) }
    ensures session { IsOwnSession (protocol M.step M.answer M.kind M.fallible V.asks V.tells V.refuses V.misread) So.reads (owned (M.opening machine) (M.log machine) (M.faults machine)) (owned (M.opening result.0) (M.log result.0) (M.faults result.0)) source.old source.new (So.left source.old) (So.left source.new) (Si.written sink.old) (Si.written sink.new) result.2 }
    ensures kept { F.keeps result.1 (M.opening result.0) (M.log result.0) }
    ensures tag { F.tag result.1 ≡ F.tag follower }
    ensures whole { F.whole follower ≡ true → (result.2 ≡ SessionEnd.Memory) ⊎ (F.whole result.1 ≡ true) }
    ensures state { M.state result.0 ≡ replay M.step (M.opening result.0) (M.log result.0) }
    ensures source_later { So.faults source.old ≤ So.faults source.new }
    ensures source { result.2 ≡ SessionEnd.SourceFault → Rose (So.faults source.old) (So.faults source.new) }
    ensures source_kept { (result.2 ≡ SessionEnd.SourceFault) ⊎ (So.faults source.new ≡ So.faults source.old) }
    ensures sink_later { Si.faults sink.old ≤ Si.faults sink.new }
    ensures sink { result.2 ≡ SessionEnd.SinkFault → Rose (Si.faults sink.old) (Si.faults sink.new) }
    ensures sink_kept { (result.2 ≡ SessionEnd.SinkFault) ⊎ (Si.faults sink.new ≡ Si.faults sink.old) }
{
    match Box::new(alloc, machine) {
        Ok(machine) => {
            let handler: OwnMachine<'_, M, V, F> = OwnMachine {
                table,
                of: PhantomData,
            };
            let seat = OwnSeat { machine, follower };
            let (seat, end) = serve(alloc, &handler, seat, source, sink);
            let OwnMachine { table: _, of: _ } = handler;
            let OwnSeat { machine, follower } = seat;
            let machine = Box::into_inner(machine);
            // Its clauses say that the machine's state is the replay of its accepted changes.
            let _ = machine.entries();
            (machine, follower, end)
        }
        Err(AllocFailed { value: machine }) => {
            let _ = machine.entries();
            (machine, follower, SessionEnd::Memory)
        }
    }
}

/// The same with its own table, which is made before the first read: if memory runs out for it, the session ends
/// as `Memory` with nothing read.
pub fn serve_own<M: Machine, V: Service<M>, F: Follower<M>, So: Source, Si: Sink>(
    alloc: Global,
    machine: M,
    follower: F,
    source: &mut So,
    sink: &mut Si,
) -> (M, F, SessionEnd)
    requires { F.keeps follower (M.opening machine) (M.log machine) }
    ensures session { IsOwnSession (protocol M.step M.answer M.kind M.fallible V.asks V.tells V.refuses V.misread) So.reads (owned (M.opening machine) (M.log machine) (M.faults machine)) (owned (M.opening result.0) (M.log result.0) (M.faults result.0)) source.old source.new (So.left source.old) (So.left source.new) (Si.written sink.old) (Si.written sink.new) result.2 }
    ensures kept { F.keeps result.1 (M.opening result.0) (M.log result.0) }
    ensures tag { F.tag result.1 ≡ F.tag follower }
    ensures whole { F.whole follower ≡ true → (result.2 ≡ SessionEnd.Memory) ⊎ (F.whole result.1 ≡ true) }
    ensures state { M.state result.0 ≡ replay M.step (M.opening result.0) (M.log result.0) }
    ensures source_later { So.faults source.old ≤ So.faults source.new }
    ensures source { result.2 ≡ SessionEnd.SourceFault → Rose (So.faults source.old) (So.faults source.new) }
    ensures source_kept { (result.2 ≡ SessionEnd.SourceFault) ⊎ (So.faults source.new ≡ So.faults source.old) }
    ensures sink_later { Si.faults sink.old ≤ Si.faults sink.new }
    ensures sink { result.2 ≡ SessionEnd.SinkFault → Rose (Si.faults sink.old) (Si.faults sink.new) }
    ensures sink_kept { (result.2 ≡ SessionEnd.SinkFault) ⊎ (Si.faults sink.new ≡ Si.faults sink.old) }
{
    match V::table(alloc) {
        Ok(table) => {
            let served = serve_own_by::<M, V, F, So, Si>(
                alloc, &table, machine, follower, source, sink,
            );
            V::close(table);
            served
        }
        Err(_) => {
            let _ = machine.entries();
            (machine, follower, SessionEnd::Memory)
        }
    }
}
