//! The command `serve`.

ghost use Rattle.std.specs.Prelude.{◌≡◌, ◌≤◌};
ghost use Rattle.command_streams.specs.Streams.{Told, streams, told};
ghost use Rattle.command_store.specs.Outside.{outside, stores};
ghost use Rattle.machine_command.specs.Outside.{outside as any_outside, stores as any_stores};
ghost use Rattle.machine_serving.specs.Serve.{IsServe as IsAnyServe, serving as serving_of};
ghost use Rattle.machine_serving.specs.Views.{listener_view};
ghost use Rattle.register_store.specs.Meaning.{register_opener};
ghost use Rattle.rest_ipam.specs.Protocol.{seen_protocol};
ghost use Rattle.command_serve.specs.Serve.{IsServe};

use crate::workers::work_all;
use command_words::Serving;
use ipam_edge::Sink;
use ipam_keeper::keeper::KeeperOpener;
use ipam_listen::Listener;
use machine_serving::{Begun, begin_serve, finish_serve, say_entries, say_unserved};
use register_core::Register;
use register_store::RegisterStore;
use rest_ipam::RegisterService;
use std::alloc::Global;
use std::marker::Sync;
use std::sync::Wait;
use std::thread::Threads;

/// Opens the register of the store, binds the listener to the place, serves all that connect by as many workers as are asked for, one
/// connection of each at a time, and prints how many changes were accepted. What a refused opening says goes to the messages.
fn serve_by<R: Threads + Wait + Sync, Si: Sink, Se: Sink, L: Listener, O: KeeperOpener>(
    rt: &R,
    alloc: Global,
    place: &str,
    workers: u32,
    connections: u32,
    output: &mut Si,
    errors: &mut Se,
    listener: &mut L,
    store: &mut RegisterStore<'_, '_, O>,
) -> u8
    requires few { workers ≤ 1000 }
    ensures serve { (input : Told) → IsAnyServe seen_protocol register_opener store.old.store.now (serving_of place.now workers connections)
        (any_outside (streams input (told Si.written Si.faults output.old) (told Se.written Se.faults errors.old)) (any_stores O.stored O.faults store.old.opener.now))
        (any_outside (streams input (told Si.written Si.faults output.new) (told Se.written Se.faults errors.new)) (any_stores O.stored O.faults store.new.opener.now))
        (listener_view L.bound L.lanes L.returned L.faults listener.old) (listener_view L.bound L.lanes L.returned L.faults listener.new) result }
    ensures lent { store.new.opener.ghost_name ≡ store.old.opener.ghost_name }
{
    match begin_serve::<Register<O::Kept>, RegisterService, RegisterStore<'_, '_, O>, L>(
        alloc,
        place,
        workers,
        connections,
        store,
        listener,
    ) {
        Ok(begun) => {
            let Begun {
                shared,
                seat,
                lanes,
                mut hired,
                came,
            } = begun;
            work_all(rt, alloc, &shared, hired.as_mut_slice(), workers);
            let worked = Begun {
                shared,
                seat,
                lanes,
                hired,
                came,
            };
            let served = finish_serve::<
                Register<O::Kept>,
                RegisterService,
                RegisterStore<'_, '_, O>,
                L,
            >(worked, store, listener);
            say_entries(served, output)
        }
        Err(why) => {
            say_unserved::<Register<O::Kept>, RegisterStore<'_, '_, O>, Se>(alloc, why, errors)
        }
    }
}

/// The same with the arguments of the command. The store keeps the opener that is lent to it.
fn serve_of<R: Threads + Wait + Sync, Si: Sink, Se: Sink, L: Listener, O: KeeperOpener>(
    rt: &R,
    alloc: Global,
    serving: &Serving,
    output: &mut Si,
    errors: &mut Se,
    listener: &mut L,
    store: &mut RegisterStore<'_, '_, O>,
) -> u8
    requires few { serving.now.workers ≤ 32 }
    ensures serve { (input : Told) → IsAnyServe seen_protocol register_opener store.old.store.now (serving_of serving.now.bind serving.now.workers serving.now.connections)
        (any_outside (streams input (told Si.written Si.faults output.old) (told Se.written Se.faults errors.old)) (any_stores O.stored O.faults store.old.opener.now))
        (any_outside (streams input (told Si.written Si.faults output.new) (told Se.written Se.faults errors.new)) (any_stores O.stored O.faults store.new.opener.now))
        (listener_view L.bound L.lanes L.returned L.faults listener.old) (listener_view L.bound L.lanes L.returned L.faults listener.new) result }
    ensures lent { store.new.opener.ghost_name ≡ store.old.opener.ghost_name }
{
    serve_by(
        rt,
        alloc,
        serving.bind.as_str(),
        serving.workers,
        serving.connections,
        output,
        errors,
        listener,
        store,
    )
}

/// The same by the store of the words.
fn serve_at<R: Threads + Wait + Sync, Si: Sink, Se: Sink, L: Listener, O: KeeperOpener>(
    rt: &R,
    alloc: Global,
    serving: &Serving,
    output: &mut Si,
    errors: &mut Se,
    listener: &mut L,
    opener: &mut O,
) -> u8
    requires few { serving.now.workers ≤ 32 }
    ensures { (input : Told) → IsAnyServe seen_protocol register_opener serving.now.store (serving_of serving.now.bind serving.now.workers serving.now.connections)
        (any_outside (streams input (told Si.written Si.faults output.old) (told Se.written Se.faults errors.old)) (any_stores O.stored O.faults opener.old))
        (any_outside (streams input (told Si.written Si.faults output.new) (told Se.written Se.faults errors.new)) (any_stores O.stored O.faults opener.new))
        (listener_view L.bound L.lanes L.returned L.faults listener.old) (listener_view L.bound L.lanes L.returned L.faults listener.new) result }
{
    let store = &serving.store;
    let mut lent = RegisterStore { opener, store };
    serve_of(rt, alloc, serving, output, errors, listener, &mut lent)
}

/// Runs `serve`: opens the register of the store, binds the listener, serves all that connect by as many workers as are asked for, one
/// connection of each at a time, and prints how many changes were accepted. What a refused opening says goes to the messages.
pub fn run_serve<R: Threads + Wait + Sync, Si: Sink, Se: Sink, L: Listener, O: KeeperOpener>(
    rt: &R,
    alloc: Global,
    serving: &Serving,
    output: &mut Si,
    errors: &mut Se,
    listener: &mut L,
    opener: &mut O,
) -> u8
    requires few { (1 ≤ serving.now.workers) × (serving.now.workers ≤ 32) }
    ensures { (input : Told) → IsServe serving.now
        (outside (streams input (told Si.written Si.faults output.old) (told Se.written Se.faults errors.old)) (stores O.stored O.faults opener.old))
        (outside (streams input (told Si.written Si.faults output.new) (told Se.written Se.faults errors.new)) (stores O.stored O.faults opener.new))
        (listener_view L.bound L.lanes L.returned L.faults listener.old) (listener_view L.bound L.lanes L.returned L.faults listener.new) result }
{
    serve_at(rt, alloc, serving, output, errors, listener, opener)
}
