//! What is between the register and the requests of its connections.

ghost use Rattle.std.specs.Prelude.{◌≡◌, ◌≢◌, IfOk};
ghost use Rattle.http_session.specs.Replies.{answer_of};
ghost use Rattle.rest_routes.specs.Answers.{IsRefusedAnswer};

use http_session::{Fault, HttpRequest, Reply as Answer};
use ipam_data::calls::Call;
use ipam_data::replies::{Refusal, Reply};
use ipam_json::Links;
use ipam_keeper::keeper::Keeper;
use machine_session::{Service, Wanted};
use register_core::Register;
use rest_answers::answer_to;
use rest_routes::{Routes, answer_of_fault, answer_of_refusal_by, page_end, read_call_by};
use std::alloc::{AllocError, Global};

/// What is kept of a request until its answer is written: the links of its page, and the number of rows up to the page's end.
#[derive(Drop)]
pub struct Page {
    pub links: Links,
    pub end: u64,
}

/// Writes the answer to a refused request of this target. The one error means out of memory, in this call or as what was refused.
fn refuse(
    alloc: Global,
    routes: &Routes,
    target: &[u8],
    refusal: &Refusal,
) -> Result<Answer, AllocError>
    ensures { IfOk result (λ answer. (refusal.now ≢ Refusal.Memory) × IsRefusedAnswer target.now refusal.now (answer_of answer)) }
{
    match refusal {
        Refusal::Memory => Err(AllocError),
        _ => answer_of_refusal_by(alloc, routes, target, refusal),
    }
}

/// The service of a register. Its requests are read by a table of routes.
pub struct RegisterService;

impl<K: Keeper> Service<Register<K>> for RegisterService {
    ghost use Rattle.std.specs.Prelude.{◌≡◌};
    ghost use Rattle.ipam_data.specs.declared.replies.Refusal.{Refusal as RefusalSeen};
    ghost use Rattle.ipam_json.specs.declared.replies.Links.{Links as LinksSeen};
    ghost use Rattle.rest_ipam.specs.Protocol.{IsAskedInBounds};
    ghost use Rattle.rest_routes.specs.Answers.{IsFramingAnswer, IsRefusedAnswer, end_of};
    ghost use Rattle.rest_answers.specs.Told.{told_answer};

    type Table = Routes;

    type Along = Page;

    ghost Shown = { LinksSeen };

    ghost Refused = { RefusalSeen };

    ghost asks = { IsAskedInBounds };

    ghost tells = { told_answer };

    ghost refuses = { λ request refusal answer. IsRefusedAnswer request.target refusal answer };

    ghost misread = { IsFramingAnswer };

    ghost shows = { λ along call links. (along.links ≡ links) × (along.end ≡ end_of call) };

    fn table(alloc: Global) -> Result<Routes, AllocError> {
        Routes::new(alloc)
    }

    fn read(
        alloc: Global,
        table: &Routes,
        request: &HttpRequest,
    ) -> Result<Wanted<Call, Page>, AllocError> {
        match read_call_by(
            alloc,
            table,
            &request.method,
            &request.target,
            &request.body,
        ) {
            Ok((call, links)) => {
                call.bounds();
                let end = page_end(&call);
                Ok(Wanted::Call(call, Page { links, end }))
            }
            Err(refusal) => match refuse(alloc, table, &request.target, &refusal) {
                Ok(answer) => Ok(Wanted::Refused(answer)),
                Err(error) => Err(error),
            },
        }
    }

    fn write(alloc: Global, reply: Reply, along: Page, place: u64) -> Result<Answer, AllocError> {
        let Page { links, end } = along;
        let answer = answer_to(alloc, &reply, end, links, place);
        drop(reply);
        answer
    }

    fn refuse(fault: Fault) -> Answer {
        answer_of_fault(fault)
    }

    fn close(table: Routes) {
        drop(table);
    }
}
