//! What is said if nobody was served.

ghost use Rattle.std.specs.Prelude.{◌≡◌, ◌≤◌};
ghost use Rattle.command_streams.specs.Streams.{told};
ghost use Rattle.machine_serving.specs.Begun.{IsSayable, IsUnservedSaid};

use crate::ending::Unserved;
use command_streams::{FAULT, MEMORY};
use history_lock::Machine;
use ipam_edge::Sink;
use machine_command::MachineOpener;
use std::alloc::Global;

/// Says why nobody was served, and gives the status of that: of a refused opening its own, 5 if memory ran out, and 3 if it could not
/// bind. Of these two nothing is said.
pub fn say_unserved<M: Machine, O: MachineOpener<M>, Se: Sink>(
    alloc: Global,
    why: Unserved<O::Fault>,
    errors: &mut Se,
) -> u8
    ensures said { IsUnservedSaid O.says why (told Se.written Se.faults errors.old) (told Se.written Se.faults errors.new) result }
    ensures quiet { result ≡ 5 → IsSayable O.fails why × (Se.faults errors.new ≡ Se.faults errors.old) }
    ensures later { Se.faults errors.old ≤ Se.faults errors.new }
{
    match why {
        Unserved::Opening(fault) => O::say(alloc, fault, errors),
        Unserved::Memory => MEMORY,
        Unserved::Place => FAULT,
    }
}
