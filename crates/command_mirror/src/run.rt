//! The command `mirror`.

ghost use Rattle.std.specs.Prelude.{◌≤◌};
ghost use Rattle.command_streams.specs.Streams.{streams, told};
ghost use Rattle.command_store.specs.Outside.{outside, stores};
ghost use Rattle.machine_serving.specs.Views.{listener_view};
ghost use Rattle.command_mirror.specs.Mirror.{IsMirror};

use crate::register::mirror_opened;
use command_store::{open_store, say_fault};
use command_words::Mirroring;
use ipam_edge::{Sink, Source};
use ipam_keeper::keeper::KeeperOpener;
use ipam_listen::Listener;
use std::alloc::Global;
use std::marker::Sync;
use std::sync::Wait;
use std::thread::Threads;

/// Runs `mirror`: opens the register of the store, binds the listener and takes a lane for each reader. Then the operator's requests are
/// read from the input and answered on the output, each change being published before it is answered; and next to it each reader, in
/// its own thread, answers the connections of its lane from what is published. If the listener can't be bound, or a lane is not handed out,
/// neither runs. What a refused opening says goes to the messages.
pub fn run_mirror<
    R: Threads + Wait + Sync,
    So: Source,
    Si: Sink,
    Se: Sink,
    L: Listener,
    O: KeeperOpener,
>(
    rt: &R,
    alloc: Global,
    asked: &Mirroring,
    input: &mut So,
    output: &mut Si,
    errors: &mut Se,
    listener: &mut L,
    opener: &mut O,
) -> u8
    requires few { asked.now.readers ≤ 16 }
    ensures { IsMirror asked.now
        (outside (streams (told So.left So.faults input.old) (told Si.written Si.faults output.old) (told Se.written Se.faults errors.old)) (stores O.stored O.faults opener.old))
        (outside (streams (told So.left So.faults input.new) (told Si.written Si.faults output.new) (told Se.written Se.faults errors.new)) (stores O.stored O.faults opener.new))
        (listener_view L.bound L.lanes L.returned L.faults listener.old) (listener_view L.bound L.lanes L.returned L.faults listener.new) result }
{
    match open_store(alloc, &asked.store, opener) {
        Ok(register) => mirror_opened(rt, alloc, asked, register, input, output, listener, opener),
        Err(fault) => say_fault(alloc, &fault, errors),
    }
}
