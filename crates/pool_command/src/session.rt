//! The commands over the store that their words name.

ghost use Rattle.std.specs.Prelude.{◌≡◌, ◌≤◌, IfOk};
ghost use Rattle.command_streams.specs.Streams.{Told, streams, told};
ghost use Rattle.machine_command.specs.Outside.{outside, stores};
ghost use Rattle.machine_command.specs.Session.{IsSession};
ghost use Rattle.machine_serving.specs.Serve.{IsServe, serving as serving_of};
ghost use Rattle.machine_serving.specs.Views.{listener_view};
ghost use Rattle.pool_service.specs.Protocol.{pool_protocol};
ghost use Rattle.pool_store.specs.Meaning.{pool_opener};

use crate::serve::run_serve;
use command_streams::MEMORY;
use ipam_edge::{Sink, Source};
use ipam_listen::Listener;
use pool_keeper::keeper::PoolOpener;
use pool_register::Pools;
use pool_service::PoolService;
use pool_store::PoolStore;
use pool_words::Serving;
use std::alloc::{AllocError, Global};
use std::marker::Sync;
use std::sync::Wait;
use std::thread::Threads;
use stored_tables::tables::Text;
use word_values::WordText;

/// The path that was given, if any. `Err` means out of memory.
pub(crate) fn path_of(alloc: Global, word: &Option<WordText>) -> Result<Option<Text>, AllocError>
    ensures { IfOk result (λ path. path ≡ word.now) }
{
    match word {
        Some(word) => Ok(Some(Text::of(String::from_str(alloc, word.as_str())?))),
        None => Ok(None),
    }
}

/// Answers the requests of the input on the output, by pools of the store. The store keeps the opener that is lent to it.
fn session_of<So: Source, Si: Sink, Se: Sink, O: PoolOpener>(
    alloc: Global,
    input: &mut So,
    output: &mut Si,
    errors: &mut Se,
    store: &mut PoolStore<'_, '_, O>,
) -> u8
    ensures session { IsSession pool_protocol pool_opener store.old.path.now
        (outside (streams (told So.left So.faults input.old) (told Si.written Si.faults output.old) (told Se.written Se.faults errors.old)) (stores O.stored O.faults store.old.opener.now))
        (outside (streams (told So.left So.faults input.new) (told Si.written Si.faults output.new) (told Se.written Se.faults errors.new)) (stores O.stored O.faults store.new.opener.now)) result }
    ensures lent { store.new.opener.ghost_name ≡ store.old.opener.ghost_name }
{
    machine_command::run_session::<Pools<O::Kept>, PoolService, PoolStore<'_, '_, O>, So, Si, Se>(
        alloc, input, output, errors, store,
    )
}

/// The same by the store under the path, or of none.
fn session_at<So: Source, Si: Sink, Se: Sink, O: PoolOpener>(
    alloc: Global,
    path: &Option<Text>,
    input: &mut So,
    output: &mut Si,
    errors: &mut Se,
    opener: &mut O,
) -> u8
    ensures { IsSession pool_protocol pool_opener path.now
        (outside (streams (told So.left So.faults input.old) (told Si.written Si.faults output.old) (told Se.written Se.faults errors.old)) (stores O.stored O.faults opener.old))
        (outside (streams (told So.left So.faults input.new) (told Si.written Si.faults output.new) (told Se.written Se.faults errors.new)) (stores O.stored O.faults opener.new)) result }
{
    let mut store = PoolStore { opener, path };
    session_of(alloc, input, output, errors, &mut store)
}

/// Runs `session`: the requests of the input, by pools of the file that is named, or else of none. What a refused opening says goes to the
/// messages.
pub(crate) fn run_session<So: Source, Si: Sink, Se: Sink, O: PoolOpener>(
    alloc: Global,
    db: &Option<WordText>,
    input: &mut So,
    output: &mut Si,
    errors: &mut Se,
    opener: &mut O,
) -> u8
    ensures { IsSession pool_protocol pool_opener db.now
        (outside (streams (told So.left So.faults input.old) (told Si.written Si.faults output.old) (told Se.written Se.faults errors.old)) (stores O.stored O.faults opener.old))
        (outside (streams (told So.left So.faults input.new) (told Si.written Si.faults output.new) (told Se.written Se.faults errors.new)) (stores O.stored O.faults opener.new)) result }
{
    match path_of(alloc, db) {
        Ok(path) => session_at(alloc, &path, input, output, errors, opener),
        Err(_) => MEMORY,
    }
}

/// Serves the pools of the store, as the arguments say. The store keeps the opener that is lent to it.
fn serve_of<R: Threads + Wait + Sync, Si: Sink, Se: Sink, L: Listener, O: PoolOpener>(
    rt: &R,
    alloc: Global,
    serving: &Serving,
    output: &mut Si,
    errors: &mut Se,
    listener: &mut L,
    store: &mut PoolStore<'_, '_, O>,
) -> u8
    requires few { serving.now.workers ≤ 32 }
    ensures serve { (input : Told) → IsServe pool_protocol pool_opener store.old.path.now (serving_of serving.now.bind serving.now.workers serving.now.connections)
        (outside (streams input (told Si.written Si.faults output.old) (told Se.written Se.faults errors.old)) (stores O.stored O.faults store.old.opener.now))
        (outside (streams input (told Si.written Si.faults output.new) (told Se.written Se.faults errors.new)) (stores O.stored O.faults store.new.opener.now))
        (listener_view L.bound L.lanes L.returned L.faults listener.old) (listener_view L.bound L.lanes L.returned L.faults listener.new) result }
    ensures lent { store.new.opener.ghost_name ≡ store.old.opener.ghost_name }
{
    run_serve(
        rt,
        alloc,
        serving.bind.as_str(),
        serving.workers,
        serving.connections,
        output,
        errors,
        listener,
        store,
    )
}

/// The same by the store under the path, or of none.
fn serve_at<R: Threads + Wait + Sync, Si: Sink, Se: Sink, L: Listener, O: PoolOpener>(
    rt: &R,
    alloc: Global,
    path: &Option<Text>,
    serving: &Serving,
    output: &mut Si,
    errors: &mut Se,
    listener: &mut L,
    opener: &mut O,
) -> u8
    requires few { serving.now.workers ≤ 32 }
    ensures { (input : Told) → IsServe pool_protocol pool_opener path.now (serving_of serving.now.bind serving.now.workers serving.now.connections)
        (outside (streams input (told Si.written Si.faults output.old) (told Se.written Se.faults errors.old)) (stores O.stored O.faults opener.old))
        (outside (streams input (told Si.written Si.faults output.new) (told Se.written Se.faults errors.new)) (stores O.stored O.faults opener.new))
        (listener_view L.bound L.lanes L.returned L.faults listener.old) (listener_view L.bound L.lanes L.returned L.faults listener.new) result }
{
    let mut store = PoolStore { opener, path };
    serve_of(rt, alloc, serving, output, errors, listener, &mut store)
}

/// Runs `serve`: serves the pools of the file that is named, or else of none, to all that connect to the place of the words.
pub(crate) fn serve_words<R: Threads + Wait + Sync, Si: Sink, Se: Sink, L: Listener, O: PoolOpener>(
    rt: &R,
    alloc: Global,
    serving: &Serving,
    output: &mut Si,
    errors: &mut Se,
    listener: &mut L,
    opener: &mut O,
) -> u8
    requires few { serving.now.workers ≤ 32 }
    ensures { (input : Told) → IsServe pool_protocol pool_opener serving.now.db (serving_of serving.now.bind serving.now.workers serving.now.connections)
        (outside (streams input (told Si.written Si.faults output.old) (told Se.written Se.faults errors.old)) (stores O.stored O.faults opener.old))
        (outside (streams input (told Si.written Si.faults output.new) (told Se.written Se.faults errors.new)) (stores O.stored O.faults opener.new))
        (listener_view L.bound L.lanes L.returned L.faults listener.old) (listener_view L.bound L.lanes L.returned L.faults listener.new) result }
{
    match path_of(alloc, &serving.db) {
        Ok(path) => serve_at(rt, alloc, &path, serving, output, errors, listener, opener),
        Err(_) => MEMORY,
    }
}
