//! The command `session`.

ghost use Rattle.std.specs.Prelude.{◌≡◌};
ghost use Rattle.command_streams.specs.Streams.{streams, told};
ghost use Rattle.command_store.specs.Outside.{outside, stores};
ghost use Rattle.command_session.specs.Session.{IsSession};
ghost use Rattle.machine_command.specs.Outside.{outside as any_outside, stores as any_stores};
ghost use Rattle.machine_command.specs.Session.{IsSession as IsAnySession};
ghost use Rattle.register_store.specs.Meaning.{register_opener};
ghost use Rattle.rest_ipam.specs.Protocol.{seen_protocol};

use command_words::Store;
use ipam_edge::{Sink, Source};
use ipam_keeper::keeper::KeeperOpener;
use register_core::Register;
use register_store::RegisterStore;
use rest_ipam::RegisterService;
use std::alloc::Global;

/// Answers the requests of the input on the output, by a register of the store. The store keeps the opener that is lent to it.
fn session_of<So: Source, Si: Sink, Se: Sink, O: KeeperOpener>(
    alloc: Global,
    input: &mut So,
    output: &mut Si,
    errors: &mut Se,
    store: &mut RegisterStore<'_, '_, O>,
) -> u8
    ensures session { IsAnySession seen_protocol register_opener store.old.store.now
        (any_outside (streams (told So.left So.faults input.old) (told Si.written Si.faults output.old) (told Se.written Se.faults errors.old)) (any_stores O.stored O.faults store.old.opener.now))
        (any_outside (streams (told So.left So.faults input.new) (told Si.written Si.faults output.new) (told Se.written Se.faults errors.new)) (any_stores O.stored O.faults store.new.opener.now)) result }
    ensures lent { store.new.opener.ghost_name ≡ store.old.opener.ghost_name }
{
    machine_command::run_session::<
        Register<O::Kept>,
        RegisterService,
        RegisterStore<'_, '_, O>,
        So,
        Si,
        Se,
    >(alloc, input, output, errors, store)
}

/// The same by the store of the words.
fn session_at<So: Source, Si: Sink, Se: Sink, O: KeeperOpener>(
    alloc: Global,
    store: &Store,
    input: &mut So,
    output: &mut Si,
    errors: &mut Se,
    opener: &mut O,
) -> u8
    ensures { IsAnySession seen_protocol register_opener store.now
        (any_outside (streams (told So.left So.faults input.old) (told Si.written Si.faults output.old) (told Se.written Se.faults errors.old)) (any_stores O.stored O.faults opener.old))
        (any_outside (streams (told So.left So.faults input.new) (told Si.written Si.faults output.new) (told Se.written Se.faults errors.new)) (any_stores O.stored O.faults opener.new)) result }
{
    let mut lent = RegisterStore { opener, store };
    session_of(alloc, input, output, errors, &mut lent)
}

/// Runs `session`: answers the requests of the input on the output, by a register over the store. What a refused opening says goes to the
/// messages.
pub fn run_session<So: Source, Si: Sink, Se: Sink, O: KeeperOpener>(
    alloc: Global,
    store: &Store,
    input: &mut So,
    output: &mut Si,
    errors: &mut Se,
    opener: &mut O,
) -> u8
    ensures { IsSession store.now
        (outside (streams (told So.left So.faults input.old) (told Si.written Si.faults output.old) (told Se.written Se.faults errors.old)) (stores O.stored O.faults opener.old))
        (outside (streams (told So.left So.faults input.new) (told Si.written Si.faults output.new) (told Se.written Se.faults errors.new)) (stores O.stored O.faults opener.new)) result }
{
    session_at(alloc, store, input, output, errors, opener)
}
