//! What comes before a run: the arguments of the process, and the words among them.

ghost use Rattle.std.specs.Prelude.{◌≡◌, IfErr, IfOk, map, string_bytes};
ghost use Rattle.std.specs.Process.{exit_status};
ghost use Rattle.command_streams.specs.Arguments.{AreWords};
ghost use Rattle.program_entry.specs.Ending.{EndsWithout, IsEnding, RunsOver};

use crate::promise::Program;
use command_streams::{MEMORY, NoArguments, words_given, words_of};
use ipam_edge::standard_error;
use std::alloc::Global;
use std::env::Args;
use std::io;
use std::process::ExitCode;

/// Ends if there are no arguments: with the usage line if one of them is no text.
fn end_without<P: Program>(rt: &HostRuntime, why: NoArguments) -> ExitCode
    ensures { EndsWithout P.says_usage why (exit_status result) }
{
    match why {
        NoArguments::NoText => ExitCode::from(P::say_usage(&mut standard_error(rt))),
        NoArguments::Memory => ExitCode::from(MEMORY),
    }
}

/// The arguments after the program's name, of those that the system gave, as `std::env::args` answers. `Err` has what the process ends with:
/// the status of the usage line, if one of them is no UTF-8, or that of out of memory.
pub fn arguments<P: Program>(
    rt: &HostRuntime,
    given: io::Result<Args>,
) -> Result<Vec<String>, ExitCode>
    ensures words { IfOk result (λ args. AreWords given (Ok args)) }
    ensures ended { IfErr result (λ code. (kept : P.Used) → IsEnding P.runs P.says_usage given kept kept (exit_status code)) }
{
    match words_given(rt.alloc(), given) {
        Ok(args) => Ok(args),
        Err(why) => Err(end_without::<P>(rt, why)),
    }
}

/// The arguments as words. `Err` has what the process ends with if memory runs out.
pub fn words<P: Program>(alloc: Global, args: &[String]) -> Result<Vec<&str>, ExitCode>
    ensures words { IfOk result (λ words. map (λ w. w.now) words.items ≡ map string_bytes args.now) }
    ensures ended { IfErr result (λ code. (kept : P.Used) → RunsOver P.runs (map string_bytes args.now) kept kept (exit_status code)) }
{
    match words_of(alloc, args) {
        Ok(words) => Ok(words),
        Err(_) => Err(ExitCode::from(MEMORY)),
    }
}
