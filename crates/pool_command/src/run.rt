//! The run of a command.

ghost use Rattle.std.specs.Prelude.{◌≡◌, ◌≤◌, List, map, ℕ};
ghost use Rattle.command_streams.specs.Streams.{Told, streams, told};
ghost use Rattle.machine_command.specs.Outside.{outside, stores};
ghost use Rattle.machine_serving.specs.Views.{listener_view};
ghost use Rattle.pool_words.specs.Asked.{Asks};
ghost use Rattle.pool_command.specs.Headline.{HasHeadlines};
ghost use Rattle.pool_command.specs.Runs.{Answers, IsUsage, Runs};

use crate::about::run_about;
use crate::print::print_words;
use crate::session::{run_session, serve_words};
use command_streams::{MEMORY, USAGE, end_with};
use ipam_edge::{Sink, Source};
use ipam_listen::Listener;
use number_laws::{claims_are_new, edits_are_as_asked, numbers_never_meet, records_are_chosen};
use number_pools::laws::steps_keep_lawful;
use pool_keeper::keeper::PoolOpener;
use pool_words::{Command, read_words};
use std::alloc::Global;
use std::marker::Sync;
use std::sync::Wait;
use std::thread::Threads;

/// What is said if the arguments ask for no command.
const USAGE_TEXT: &[u8] = b"usage: poold COMMAND\n";

/// Says the usage line; nothing else is used.
pub(crate) fn say_usage<Se: Sink>(errors: &mut Se) -> u8
    ensures { (input output : Told) → IsUsage (streams input output (told Se.written Se.faults errors.old)) (streams input output (told Se.written Se.faults errors.new)) result }
{
    end_with(errors, USAGE_TEXT, USAGE)
}

/// Runs a command that was read.
fn run_command<
    R: Threads + Wait + Sync,
    So: Source,
    Si: Sink,
    Se: Sink,
    L: Listener,
    O: PoolOpener,
>(
    rt: &R,
    alloc: Global,
    command: &Command,
    input: &mut So,
    output: &mut Si,
    errors: &mut Se,
    listener: &mut L,
    opener: &mut O,
) -> u8
    requires asked { (words : List (List ℕ)) × Asks words command.now }
    ensures { Answers command.now
        (outside (streams (told So.left So.faults input.old) (told Si.written Si.faults output.old) (told Se.written Se.faults errors.old)) (stores O.stored O.faults opener.old))
        (outside (streams (told So.left So.faults input.new) (told Si.written Si.faults output.new) (told Se.written Se.faults errors.new)) (stores O.stored O.faults opener.new))
        (listener_view L.bound L.lanes L.returned L.faults listener.old) (listener_view L.bound L.lanes L.returned L.faults listener.new) result }
{
    match command {
        Command::Print(listing, db) => { print_words(alloc, *listing, db, output, errors, opener) }
        Command::About(topic) => run_about(*topic, output),
        Command::Session(db) => run_session(alloc, db, input, output, errors, opener),
        Command::Serve(serving) => {
            serve_words(rt, alloc, serving, output, errors, listener, opener)
        }
    }
}

/// Runs the command that the arguments ask for.
fn run_read<R: Threads + Wait + Sync, So: Source, Si: Sink, Se: Sink, L: Listener, O: PoolOpener>(
    rt: &R,
    alloc: Global,
    words: &[&str],
    input: &mut So,
    output: &mut Si,
    errors: &mut Se,
    listener: &mut L,
    opener: &mut O,
) -> u8
    ensures { Runs (map (λ w. w.now) words.now)
        (outside (streams (told So.left So.faults input.old) (told Si.written Si.faults output.old) (told Se.written Se.faults errors.old)) (stores O.stored O.faults opener.old))
        (outside (streams (told So.left So.faults input.new) (told Si.written Si.faults output.new) (told Se.written Se.faults errors.new)) (stores O.stored O.faults opener.new))
        (listener_view L.bound L.lanes L.returned L.faults listener.old) (listener_view L.bound L.lanes L.returned L.faults listener.new) result }
{
    match read_words(alloc, words) {
        Ok(Some(command)) => run_command(
            rt, alloc, &command, input, output, errors, listener, opener,
        ),
        Ok(None) => say_usage(errors),
        Err(_) => MEMORY,
    }
}

/// Runs the program: the arguments after its name, the input, the output, where messages go, a listener, and what opens stores. It gives the
/// status: 0 done, 1 a loaded table breaks a stated rule, 2 the words are no command, 3 the input, the output, the messages or the listener
/// failed, 4 the store failed, 5 out of memory. Callers that were served had one history.
pub fn run_pools<
    R: Threads + Wait + Sync,
    So: Source,
    Si: Sink,
    Se: Sink,
    L: Listener,
    O: PoolOpener,
>(
    rt: &R,
    alloc: Global,
    words: &[&str],
    input: &mut So,
    output: &mut Si,
    errors: &mut Se,
    listener: &mut L,
    opener: &mut O,
) -> u8
    ensures runs { Runs (map (λ w. w.now) words.now)
        (outside (streams (told So.left So.faults input.old) (told Si.written Si.faults output.old) (told Se.written Se.faults errors.old)) (stores O.stored O.faults opener.old))
        (outside (streams (told So.left So.faults input.new) (told Si.written Si.faults output.new) (told Se.written Se.faults errors.new)) (stores O.stored O.faults opener.new))
        (listener_view L.bound L.lanes L.returned L.faults listener.old) (listener_view L.bound L.lanes L.returned L.faults listener.new) result }
    ensures headline { HasHeadlines (map (λ w. w.now) words.now)
        (outside (streams (told So.left So.faults input.old) (told Si.written Si.faults output.old) (told Se.written Se.faults errors.old)) (stores O.stored O.faults opener.old))
        (outside (streams (told So.left So.faults input.new) (told Si.written Si.faults output.new) (told Se.written Se.faults errors.new)) (stores O.stored O.faults opener.new))
        (listener_view L.bound L.lanes L.returned L.faults listener.old) (listener_view L.bound L.lanes L.returned L.faults listener.new) result }
{
    numbers_never_meet();
    claims_are_new();
    records_are_chosen();
    edits_are_as_asked();
    steps_keep_lawful();
    run_read(rt, alloc, words, input, output, errors, listener, opener)
}
