//! A mirror of a register that was opened over a store, whose keeper goes back at the end.

ghost use Rattle.std.specs.Prelude.{◌≡◌, ◌≤◌, [], Some};
ghost use Rattle.ipam_keeper.specs.Keeping.{started};
ghost use Rattle.register_core.specs.Opened.{IsOpened};
ghost use Rattle.command_streams.specs.Streams.{Told, streams, told};
ghost use Rattle.command_store.specs.Outside.{Stores, outside, stores};
ghost use Rattle.machine_serving.specs.Serve.{listening_status as heard_status};
ghost use Rattle.machine_serving.specs.Views.{listener_view};
ghost use Rattle.command_mirror.specs.Mirror.{IsMirror};
ghost use Rattle.command_mirror.specs.Ran.{ran_status};

use crate::mirrored::{Ran, mirror_register};
use command_streams::{DONE, FAULT, MEMORY};
use command_words::Mirroring;
use http_lanes::Listening;
use http_session::SessionEnd;
use ipam_edge::{Sink, Source};
use ipam_keeper::keeper::KeeperOpener;
use ipam_listen::Listener;
use register_core::Register;
use std::alloc::Global;
use std::marker::Sync;
use std::sync::Wait;
use std::thread::Threads;

/// The status of a listening that ended so.
fn listening_status(heard: Listening) -> u8
    ensures { result ≡ heard_status heard }
{
    match heard {
        Listening::Whole => DONE,
        Listening::Broken => FAULT,
    }
}

/// The status of the command by how its mirror ended.
fn status_of(ran: Ran) -> u8
    ensures { result ≡ ran_status ran }
{
    match ran {
        Ran::Starved => MEMORY,
        Ran::Placeless => FAULT,
        Ran::Ended(end, is_whole, heard) => {
            if !is_whole {
                return MEMORY;
            }
            match end {
                SessionEnd::Closed(_) => listening_status(heard),
                SessionEnd::SourceFault => FAULT,
                SessionEnd::SinkFault => FAULT,
                SessionEnd::Memory => MEMORY,
            }
        }
    }
}

/// Mirrors a register that was opened, gives its keeper back, and gives the status of the command.
pub(crate) fn mirror_opened<
    R: Threads + Wait + Sync,
    So: Source,
    Si: Sink,
    L: Listener,
    O: KeeperOpener,
>(
    rt: &R,
    alloc: Global,
    asked: &Mirroring,
    register: Register<O::Kept>,
    input: &mut So,
    output: &mut Si,
    listener: &mut L,
    opener: &mut O,
) -> u8
    requires few { asked.now.readers ≤ 16 }
    requires fresh { register.log ≡ [] }
    ensures mirror { (first : Stores) (errors : Told) → O.lent opener.old ≡ Some asked.now.store.db → first.stored ≡ O.stored opener.old → O.faults opener.old ≡ first.faults → O.Kept.faults register.keeper ≡ 0
        → IsOpened (started first.stored asked.now.store.db) asked.now.store.global_unique register.state
        → O.Kept.told register.keeper ≡ started first.stored asked.now.store.db
        → IsMirror asked.now (outside (streams (told So.left So.faults input.old) (told Si.written Si.faults output.old) errors) first)
        (outside (streams (told So.left So.faults input.new) (told Si.written Si.faults output.new) errors) (stores O.stored O.faults opener.new))
        (listener_view L.bound L.lanes L.returned L.faults listener.old) (listener_view L.bound L.lanes L.returned L.faults listener.new) result }
{
    // Hints to the prover: what holds of every register.
    register.replayed();
    let (register, ran) = mirror_register::<R, O::Kept, L, So, Si>(
        rt, alloc, asked, register, input, output, listener,
    );
    register.told();
    register.replayed();
    opener.done(register.into_keeper());
    status_of(ran)
}
