//! `ipamd free` as its own program, which is built in minutes: the same answers and statuses as `ipamd` has for `free`, and for
//! words that ask for nothing. It has no other command.
#![tactic(auto)]

ghost use Rattle.std.specs.Prelude.{◌≡◌};
ghost use Rattle.inet_num.specs.Net.{Cidr};
ghost use Rattle.command_words.specs.declared.asked.Command.TheVariants.{Free};
ghost use Rattle.command_streams.specs.Streams.{IsUsage, streams, told};
ghost use Rattle.command_free.specs.Run.{IsFree};

use command_free::run_free;
use command_streams::{MEMORY, NoArguments, say_usage, words_given};
use command_words::{Command, read_words};
use ipam_edge::{Sink, Source, standard_error, standard_input, standard_output};
use std::alloc::Global;
use std::env;
use std::process::ExitCode;

/// Runs `free`; for another command it says the usage line. It gives the status: 0 done, 1 a line is refused, 2 the command is another one,
/// 3 the input, the output or the messages failed, 5 out of memory.
fn run_command<So: Source, Si: Sink, Se: Sink>(
    alloc: Global,
    command: &Command,
    input: &mut So,
    output: &mut Si,
    errors: &mut Se,
) -> u8
    ensures free { (within : Cidr) → command.now ≡ Free within
        → IsFree within
        (streams (told So.left So.faults input.old) (told Si.written Si.faults output.old) (told Se.written Se.faults errors.old))
        (streams (told So.left So.faults input.new) (told Si.written Si.faults output.new) (told Se.written Se.faults errors.new)) result }
    ensures usage { ((within : Cidr) → ¬ (command.now ≡ Free within))
        → IsUsage
        (streams (told So.left So.faults input.old) (told Si.written Si.faults output.old) (told Se.written Se.faults errors.old))
        (streams (told So.left So.faults input.new) (told Si.written Si.faults output.new) (told Se.written Se.faults errors.new)) result }
{
    match command {
        Command::Free(within) => run_free(alloc, within, input, output, errors),
        Command::Session(_) => say_usage(errors),
        Command::Serve(_) => say_usage(errors),
        Command::Mirror(_) => say_usage(errors),
        Command::Import(_, _) => say_usage(errors),
        Command::Export(_, _) => say_usage(errors),
        Command::Report(_, _) => say_usage(errors),
        Command::PrefixList(_) => say_usage(errors),
        Command::PrefixCheck(_) => say_usage(errors),
        Command::Reverse(_, _) => say_usage(errors),
        Command::ReverseRead => say_usage(errors),
        Command::About(_) => say_usage(errors),
        Command::Migrate { .. } => say_usage(errors),
        Command::Load {
            count: _,
            workers: _,
        } => say_usage(errors),
    }
}

/// Runs the command that the arguments ask for; if they ask for none it says the usage line.
fn run<So: Source, Si: Sink, Se: Sink>(
    alloc: Global,
    words: &[&str],
    input: &mut So,
    output: &mut Si,
    errors: &mut Se,
) -> u8 {
    match read_words(alloc, words) {
        Ok(Some(command)) => run_command(alloc, &command, input, output, errors),
        Ok(None) => say_usage(errors),
        Err(_) => MEMORY,
    }
}

/// Runs the words over the standard streams.
fn run_words(rt: &HostRuntime, given: &[String]) -> u8 {
    let mut words = Vec::new(rt.alloc());
    for word in given {
        if words.push(word.as_str()).is_err() {
            return MEMORY;
        }
    }
    run(
        rt.alloc(),
        &words,
        &mut standard_input(rt),
        &mut standard_output(rt),
        &mut standard_error(rt),
    )
}

fn main(rt: HostRuntime) -> ExitCode {
    let status = match words_given(rt.alloc(), env::args(&rt)) {
        Ok(given) => run_words(&rt, &given),
        Err(NoArguments::NoText) => say_usage(&mut standard_error(&rt)),
        Err(NoArguments::Memory) => MEMORY,
    };
    ExitCode::from(status)
}
