//! What is between number pools and the requests of their connections.

ghost use Rattle.std.specs.Prelude.{◌≡◌, ◌≢◌, IfOk, MatchBool};
ghost use Rattle.http_session.specs.Replies.{answer_of};
ghost use Rattle.pool_rest.specs.Answers.{IsRefusedAnswer};

use http_session::{Fault, HttpRequest, Reply as Answer};
use ipam_data::replies::Refusal;
use machine_session::{Service, Wanted};
use number_pools::{PoolCall, PoolReply};
use pool_json::{RequestRefusal, Shape};
use pool_keeper::keeper::PoolKeeper;
use pool_register::Pools;
use pool_rest::{Routes, answer_of_fault, answer_of_refusal_by, answer_of_reply, read_call_by};
use std::alloc::{AllocError, Global};

/// Whether a refusal means out of memory.
fn is_want(refusal: &RequestRefusal) -> bool
    ensures { MatchBool result (refusal.now ≡ RequestRefusal.Common Refusal.Memory) (refusal.now ≢ RequestRefusal.Common Refusal.Memory) }
{
    match refusal {
        RequestRefusal::Common(refusal) => matches!(refusal, Refusal::Memory),
        RequestRefusal::Start => false,
        RequestRefusal::End => false,
        RequestRefusal::Number(_) => false,
        RequestRefusal::Range(_) => false,
    }
}

/// Writes the answer to a refused request of this target. The one error means out of memory, in this call or as what was refused.
fn refuse(
    alloc: Global,
    routes: &Routes,
    target: &[u8],
    refusal: &RequestRefusal,
) -> Result<Answer, AllocError>
    ensures { IfOk result (λ answer. (refusal.now ≢ RequestRefusal.Common Refusal.Memory) × IsRefusedAnswer target.now refusal.now (answer_of answer)) }
{
    if is_want(refusal) {
        return Err(AllocError);
    }
    answer_of_refusal_by(alloc, routes, target, refusal)
}

/// The service of number pools. Requests are read by a table of routes, and how a reply is written is kept of each.
pub struct PoolService;

impl<K: PoolKeeper> Service<Pools<K>> for PoolService {
    ghost use Rattle.pool_json.specs.declared.bodies.RequestRefusal.{RequestRefusal as RefusalSeen};
    ghost use Rattle.pool_json.specs.declared.replies.Shape.{Shape as ShapeSeen};
    ghost use Rattle.pool_rest.specs.Answers.{IsFramingAnswer, IsRefusedAnswer, reply_answer};
    ghost use Rattle.pool_rest.specs.Requests.{IsRequest};

    type Table = Routes;

    type Along = Shape;

    ghost Shown = { ShapeSeen };

    ghost Refused = { RefusalSeen };

    ghost asks = { λ request asked. IsRequest request.method request.target request.body asked };

    ghost tells = { λ call reply shape place. reply_answer shape reply place };

    ghost refuses = { λ request refusal answer. IsRefusedAnswer request.target refusal answer };

    ghost misread = { IsFramingAnswer };

    ghost shows = { λ along call shape. along ≡ shape };

    fn table(alloc: Global) -> Result<Routes, AllocError> {
        Routes::new(alloc)
    }

    fn read(
        alloc: Global,
        table: &Routes,
        request: &HttpRequest,
    ) -> Result<Wanted<PoolCall, Shape>, AllocError> {
        match read_call_by(
            alloc,
            table,
            &request.method,
            &request.target,
            &request.body,
        ) {
            Ok((call, shape)) => Ok(Wanted::Call(call, shape)),
            Err(refusal) => match refuse(alloc, table, &request.target, &refusal) {
                Ok(answer) => Ok(Wanted::Refused(answer)),
                Err(error) => Err(error),
            },
        }
    }

    fn write(
        alloc: Global,
        reply: PoolReply,
        along: Shape,
        place: u64,
    ) -> Result<Answer, AllocError> {
        let answer = answer_of_reply(alloc, along, &reply, place);
        drop(reply);
        answer
    }

    fn refuse(fault: Fault) -> Answer {
        answer_of_fault(fault)
    }

    fn close(table: Routes) {
        drop(table);
    }
}
