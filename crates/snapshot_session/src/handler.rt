//! The request handler of a reader.

ghost use Rattle.std.specs.Prelude.{◌≡◌, ◌⊎◌, true, IfOk, OnErr};
ghost use Rattle.http_session.specs.Ends.{IsLeft};
ghost use Rattle.http_session.specs.Replies.{answer_of};
ghost use Rattle.http_session.specs.Steps.{framed};
ghost use Rattle.http_session.specs.Talk.{Answer as AnswerSeen};
ghost use Rattle.snapshot_session.specs.Reads.{IsAnswerTo, IsReadAnswer, answers_read};

use http_session::{Desk, Fault, HttpRequest, Reply as Answer};
use ipam_data::calls::Call;
use ipam_json::Links;
use rest_answers::answer_to;
use rest_routes::{Routes, answer_of_fault, page_end};
use snapshot_reads::{Look, Looked};
use snapshot_routes::{Question, behind_answer, read_question, unread_answer};
use std::alloc::{AllocError, Global};

/// Asks the look, and writes what it answers. The one error means out of memory, of the look or for the answer, which is then lost.
fn answer_read(
    alloc: Global,
    look: &mut Look,
    call: &Call,
    links: Links,
    least: u64,
) -> Result<Answer, AllocError>
    ensures answer { IfOk result (λ a. IsReadAnswer look.old call.now links least (answer_of a) look.new) }
    ensures err { OnErr result ((look.new ≡ look.old) ⊎ ((a : AnswerSeen) × IsReadAnswer look.old call.now links least a look.new)) }
{
    match look.read(call, least) {
        Looked::Given(reply, number) => {
            let answer = answer_to(alloc, &reply, page_end(call), links, number);
            drop(reply);
            answer
        }
        Looked::Behind(number) => {
            drop(links);
            behind_answer(alloc, number)
        }
        Looked::Memory => {
            drop(links);
            Err(AllocError)
        }
    }
}

/// Answers what a request asks for. The one error means out of memory; after a look was asked the answer is lost.
fn answer_question(alloc: Global, look: &mut Look, question: Question) -> Result<Answer, AllocError>
    ensures answer { IfOk result (λ a. IsAnswerTo look.old question (answer_of a) look.new) }
    ensures err { OnErr result ((look.new ≡ look.old) ⊎ ((a : AnswerSeen) × IsAnswerTo look.old question a look.new)) }
{
    match question {
        Question::Reads { call, links, least } => {
            let answer = answer_read(alloc, look, &call, links, least);
            drop(call);
            answer
        }
        Question::Refused(why) => {
            let answer = unread_answer(alloc, &why);
            drop(why);
            answer
        }
    }
}

/// Answers a request, by a table of the routes that is lent. The one error means out of memory.
fn answer_request(
    alloc: Global,
    routes: &Routes,
    look: &mut Look,
    request: &HttpRequest,
) -> Result<Answer, AllocError>
    ensures answer { IfOk result (λ a. answers_read.answers look.old (framed request.now) (answer_of a) look.new) }
    ensures err { OnErr result (IsLeft answers_read look.old (framed request.now) look.new) }
{
    match read_question(alloc, routes, request) {
        Ok(question) => answer_question(alloc, look, question),
        Err(error) => Err(error),
    }
}

/// What answers the requests of a reader, each from a look. Its paths are read by a table of routes; if memory was out for it, each request
/// makes its own.
#[derive(Drop)]
pub struct ReaderHandler {
    routes: Option<Routes>,
}

impl ReaderHandler {
    /// A handler for the connections of one reader.
    pub fn new(alloc: Global) -> ReaderHandler {
        ReaderHandler {
            routes: Routes::new(alloc).ok(),
        }
    }

    /// Answers a request from a look.
    fn answered(
        &self,
        alloc: Global,
        look: &mut Look,
        request: &HttpRequest,
    ) -> Result<Answer, AllocError>
        ensures answer { IfOk result (λ a. answers_read.answers look.old (framed request.now) (answer_of a) look.new) }
        ensures err { OnErr result (IsLeft answers_read look.old (framed request.now) look.new) }
    {
        if let Some(routes) = &self.routes {
            return answer_request(alloc, routes, look, request);
        }
        match Routes::new(alloc) {
            Ok(routes) => answer_request(alloc, &routes, look, request),
            Err(error) => Err(error),
        }
    }
}

impl Desk for ReaderHandler {
    ghost use Rattle.ipam_data.specs.declared.update.Update.{Update as UpdateSeen};
    ghost use Rattle.snapshot_reads.specs.Seen.{LookView};
    ghost use Rattle.snapshot_rows.specs.Lists.{Lists};

    type Seat = Look;

    ghost View = { LookView Lists UpdateSeen };

    ghost view = { λ look. look };

    ghost may = { answers_read };

    ghost whole = { λ s. true };

    fn answer(
        &self,
        alloc: Global,
        seat: Look,
        request: &HttpRequest,
    ) -> (Look, Result<Answer, AllocError>) {
        let mut look = seat;
        let answer = self.answered(alloc, &mut look, request);
        (look, answer)
    }

    fn refuse(&self, fault: Fault) -> Answer {
        answer_of_fault(fault)
    }
}
