//! What is between a machine and the requests of its connections.

ghost use Rattle.std.specs.Prelude.{◌≡◌, ℕ, Result, IfOk};
ghost use Rattle.http_session.specs.Requests.{Framed};
ghost use Rattle.http_session.specs.Replies.{answer_of};
ghost use Rattle.http_session.specs.Steps.{framed};
ghost use Rattle.http_session.specs.Talk.{Answer};
ghost use Rattle.http_session.specs.declared.request.Fault.{Fault as FaultSeen};
ghost use Rattle.machine_session.specs.Wanted.{IsWanted};

use history_lock::Machine;
use http_session::{Fault, HttpRequest, Reply};
use std::alloc::{AllocError, Global};

/// What a request asks for.
pub enum Wanted<C, G> {
    /// A call of the machine, and what its answer is written with besides the reply.
    Call(C, G),
    /// Nothing of the machine: this is its answer.
    Refused(Reply),
}

/// A machine as a web service: which call a request asks for, and which answer gives a reply.
///
/// A service is a type without values of its own: what it reads requests by is made anew in each thread, so it need not cross any.
pub trait Service<M: Machine> {
    /// What requests are read by, such as a table of routes.
    type Table;

    /// What is kept of a request until its answer is written.
    type Along;

    /// What an answer says besides the reply and its place, as contracts see it.
    ghost Shown: { Type 0 };

    /// Why a request is refused without the machine, as contracts see it.
    ghost Refused: { Type 0 };

    /// What a request asks for: a call, with what its answer shows besides the reply; or it is refused for this.
    ghost asks: { Framed → Result (M.Said × Shown) Refused → Type 0 };

    /// The answer that gives this reply to a call, which has this place.
    ghost tells: { M.Said → M.Reply → Shown → ℕ → Answer };

    /// The answer to a request that is refused.
    ghost refuses: { Framed → Refused → Answer → Type 0 };

    /// The answer to bytes that are refused in the place of a request.
    ghost misread: { FaultSeen → Answer → Type 0 };

    /// What is kept of the request shows this in the answer to its call.
    ghost shows: { Self.Along → M.Said → Shown → Type 0 };

    /// What requests are read by. The one error means out of memory.
    fn table(alloc: Global) -> Result<Self::Table, AllocError>;

    /// Reads what a request asks for. The one error means out of memory.
    fn read(
        alloc: Global,
        table: &Self::Table,
        request: &HttpRequest,
    ) -> Result<Wanted<M::Call, Self::Along>, AllocError>
        ensures { IfOk result (IsWanted M.takes M.said asks refuses shows (framed request.now)) };

    /// Writes the answer that gives a reply. The one error means out of memory.
    fn write(
        alloc: Global,
        reply: M::Reply,
        along: Self::Along,
        place: u64,
    ) -> Result<Reply, AllocError>
        ensures { (call : M.Said) (shown : Shown) → shows along call shown → IfOk result (λ a. answer_of a ≡ tells call reply shown place) };

    /// Answers bytes that are refused in the place of a request. It takes no memory.
    fn refuse(fault: Fault) -> Reply
        ensures { misread fault (answer_of result) };

    /// Lets a table go.
    fn close(table: Self::Table);
}

/// Reads what a request asks for by the table, or if there is none yet by one that is made and stays. The one error means out of memory.
pub(crate) fn read_by<M: Machine, V: Service<M>>(
    alloc: Global,
    table: Option<V::Table>,
    request: &HttpRequest,
) -> (
    Option<V::Table>,
    Result<Wanted<M::Call, V::Along>, AllocError>,
)
    ensures { IfOk result.1 (IsWanted M.takes M.said V.asks V.refuses V.shows (framed request.now)) }
{
    let table = match table {
        Some(table) => table,
        None => match V::table(alloc) {
            Ok(table) => table,
            Err(error) => return (None, Err(error)),
        },
    };
    let wanted = V::read(alloc, &table, request);
    (Some(table), wanted)
}

/// Lets a table go, if there is one.
pub(crate) fn end_table<M: Machine, V: Service<M>>(table: Option<V::Table>) {
    match table {
        Some(table) => V::close(table),
        None => {}
    }
}
