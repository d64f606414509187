//! The command `session`.

ghost use Rattle.std.specs.Prelude.{◌≡◌, ◌≤◌};
ghost use Rattle.command_streams.specs.Streams.{streams, told};
ghost use Rattle.machine_session.specs.Protocols.{protocol};
ghost use Rattle.machine_command.specs.Openers.{opener_meaning};
ghost use Rattle.machine_command.specs.Outside.{outside, stores};
ghost use Rattle.machine_command.specs.Session.{IsSession, end_status};

use crate::opener::MachineOpener;
use command_streams::{DONE, FAULT, MEMORY};
use history_lock::Machine;
use http_session::SessionEnd;
use ipam_edge::{Sink, Source};
use machine_session::{NoFollower, Service, serve_own};
use std::alloc::Global;

/// The status of the command by the end of its session: 0 if all requests were answered, 3 if the input or the output failed, 5 if
/// memory ran out.
pub fn status_of(end: SessionEnd) -> u8
    ensures { result ≡ end_status end }
{
    match end {
        SessionEnd::Closed(_) => DONE,
        SessionEnd::SourceFault => FAULT,
        SessionEnd::SinkFault => FAULT,
        SessionEnd::Memory => MEMORY,
    }
}

/// Runs `session`: answers the requests of the input on the output, by a machine that the opener opens and gets back. Why an opening was
/// refused goes to the messages.
pub fn run_session<M: Machine, V: Service<M>, O: MachineOpener<M>, So: Source, Si: Sink, Se: Sink>(
    alloc: Global,
    input: &mut So,
    output: &mut Si,
    errors: &mut Se,
    opener: &mut O,
) -> u8
    ensures session { IsSession (protocol M.step M.answer M.kind M.fallible V.asks V.tells V.refuses V.misread) (opener_meaning O.loads O.holds O.refuses O.says) (O.asked opener.old)
        (outside (streams (told So.left So.faults input.old) (told Si.written Si.faults output.old) (told Se.written Se.faults errors.old)) (stores O.stored O.faults opener.old))
        (outside (streams (told So.left So.faults input.new) (told Si.written Si.faults output.new) (told Se.written Se.faults errors.new)) (stores O.stored O.faults opener.new)) result }
    ensures loan { O.loan opener.new ≡ O.loan opener.old }
{
    match opener.open(alloc) {
        Ok(machine) => {
            let (machine, _, end) = serve_own::<M, V, NoFollower, So, Si>(
                alloc, machine, NoFollower, input, output,
            );
            opener.done(machine);
            status_of(end)
        }
        Err(fault) => O::say(alloc, fault, errors),
    }
}
