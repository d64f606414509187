//! What the callers of a machine were answered, as one flat list for each: definitions, and a law that gives them for what a server and a
//! session ensure.
#![tactic(auto)]

ghost use Rattle.machine_session.specs.Protocols.{protocol};
ghost use Rattle.machine_answers.specs.Laws.{AnswersAreListed};

use history_lock::Machine;
use machine_session::Service;

/// A law: what a server and a session ensure of the answers of a service gives a list for each caller, and each entry of their history is
/// a change that its caller asked for.
pub fn answers_are_listed<M: Machine, V: Service<M>>()
    ensures { AnswersAreListed (protocol M.step M.answer M.kind M.fallible V.asks V.tells V.refuses V.misread) }
{}
