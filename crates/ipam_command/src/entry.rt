//! The program: its real objects, and the arguments after its name.

ghost use Rattle.std.specs.Prelude.{map};
ghost use Rattle.std.specs.Process.{exit_status};
ghost use Rattle.command_store.specs.Outside.{outside, stores};
ghost use Rattle.machine_serving.specs.Views.{listener_view};
ghost use Rattle.ipam_command.specs.Program.{IsEnding};
ghost use Rattle.ipam_command.specs.Runs.{Runs};

use crate::run;
use command_streams::say_usage;
use ipam_edge::Sink;
use ipam_keeper::keeper::KeeperOpener;
use ipam_listen::Listener;
use program_entry::{Program, Standard, arguments, standard, words};
use std::alloc::Global;
use std::env::Args;
use std::io;
use std::marker::Sync;
use std::process::ExitCode;
use std::sync::Wait;
use std::thread::Threads;

/// The program `ipamd`.
struct Ipamd;

impl Program for Ipamd {
    ghost use Rattle.std.proofs.Common.{inr, refl};
    ghost use Rattle.command_streams.specs.Streams.{IsUsage};
    ghost use Rattle.command_store.specs.Outside.{Stores};
    ghost use Rattle.machine_serving.specs.Views.{ListenerView};
    ghost use Rattle.ipam_command.specs.Program.{RunsUsing};

    ghost Used = { Stores × ListenerView };

    ghost runs = { RunsUsing };

    ghost says_usage = { IsUsage };

    fn say_usage<Se: Sink>(errors: &mut Se) -> u8 {
        say_usage(errors)
    }

    ghost not_begun = { λ words seen kept. inr (inr (refl, refl, refl)) };
}

/// Runs words over the standard streams. Their types say which is which: what `run` writes as messages goes to standard error. The process
/// is to end with the status of the run.
fn run_words<R: Threads + Wait + Sync, L: Listener, O: KeeperOpener>(
    threads: &R,
    alloc: Global,
    words: &[&str],
    streams: &mut Standard<'_>,
    listener: &mut L,
    opener: &mut O,
) -> ExitCode
    ensures { Runs (map (λ w. w.now) words.now) (outside streams.old (stores O.stored O.faults opener.old)) (outside streams.new (stores O.stored O.faults opener.new))
        (listener_view L.bound L.lanes L.returned L.faults listener.old) (listener_view L.bound L.lanes L.returned L.faults listener.new) (exit_status result) }
{
    let status = run(
        threads,
        alloc,
        words,
        &mut streams.input,
        &mut streams.output,
        &mut streams.errors,
        listener,
        opener,
    );
    ExitCode::from(status)
}

/// Runs the program over its arguments, as `std::env::args` gives them, the standard streams, a listener and an opener of stores. The process is
/// to end with the status of the run. Arguments that are no UTF-8 are no arguments of a command; if memory runs out to read them the status is
/// that of out of memory. `threads` is what workers are started by: the runtime once more, which only `main` may hand out as such.
pub fn program<R: Threads + Wait + Sync, L: Listener, O: KeeperOpener>(
    rt: &HostRuntime,
    threads: &R,
    given: io::Result<Args>,
    listener: &mut L,
    opener: &mut O,
) -> ExitCode
    ensures { IsEnding given (stores O.stored O.faults opener.old) (stores O.stored O.faults opener.new)
        (listener_view L.bound L.lanes L.returned L.faults listener.old) (listener_view L.bound L.lanes L.returned L.faults listener.new) (exit_status result) }
{
    let args = match arguments::<Ipamd>(rt, given) {
        Ok(args) => args,
        Err(ended) => return ended,
    };
    match words::<Ipamd>(rt.alloc(), &args) {
        Ok(words) => run_words(
            threads,
            rt.alloc(),
            &words,
            &mut standard(rt),
            listener,
            opener,
        ),
        Err(ended) => ended,
    }
}
