//! The operator in the caller's thread, and readers next to it in others.

ghost use Rattle.std.specs.Prelude.{◌≡◌, All, length};
ghost use Rattle.std.specs.Thread.{IsSync};
ghost use Rattle.command_mirror.specs.Readers.{AllHaveRead, IsReady};
ghost use Rattle.command_mirror.specs.Together.{HasOperated, IsHeld};

use crate::readers::{ReaderLane, serve_readers};
use ipam_edge::{Sink, Source};
use ipam_keeper::keeper::Keeper;
use ipam_listen::Lane;
use snapshot_operator::{Operated, serve_operator};
use std::alloc::Global;
use std::marker::{Send, Sync};
use std::sync::Wait;
use std::thread::{Threads, join_mut};

/// The operator's session, with the register and the feed that are held; what is left of it is held then.
fn operate<R: Wait, K: Keeper, So: Source, Si: Sink>(
    rt: &R,
    alloc: Global,
    held: &mut Option<Operated<K>>,
    input: &mut So,
    output: &mut Si,
)
    requires { IsHeld (λ o. o.register) (λ o. o.feed) held.old }
    ensures { HasOperated So.reads K.told K.faults (λ o. o.register) (λ o. o.feed) (λ o. o.is_whole) (λ o. o.end) held.old held.new input.old input.new
        (So.left input.old) (So.left input.new) (Si.written output.old) (Si.written output.new) (So.faults input.old) (So.faults input.new) (Si.faults output.old) (Si.faults output.new) }
{
    let Some(begun) = held.take() else {
        unreachable!()
    };
    let Operated {
        register,
        feed,
        is_whole: _,
        end: _,
    } = begun;
    let ended = serve_operator(rt, alloc, register, feed, input, output);
    let before = std::mem::replace(held, Some(ended));
    let None = before else { unreachable!() };
}

/// Lets the operator serve its session in this thread, and the readers the connections of their lanes in others. If no thread can be started
/// they run before the operator.
pub(crate) fn mirror<R: Threads + Wait + Sync, K: Keeper, A: Lane + Send, So: Source, Si: Sink>(
    rt: &R,
    alloc: Global,
    held: &mut Option<Operated<K>>,
    input: &mut So,
    output: &mut Si,
    readers: &mut [ReaderLane<A>],
)
    requires held { IsHeld (λ o. o.register) (λ o. o.feed) held.old }
    requires ready { All (λ r. IsReady A.told r.look r.lane) readers.old }
    ensures read { AllHaveRead A.told A.accepts A.faults (λ r. r.look) (λ r. r.lane) readers.old readers.new }
    ensures all { length readers.new ≡ length readers.old }
    ensures operated { HasOperated So.reads K.told K.faults (λ o. o.register) (λ o. o.feed) (λ o. o.is_whole) (λ o. o.end) held.old held.new input.old input.new
        (So.left input.old) (So.left input.new) (Si.written output.old) (Si.written output.new) (So.faults input.old) (So.faults input.new) (Si.faults output.old) (Si.faults output.new) }
{
    join_mut(
        rt,
        &mut ||
            requires { IsSync R.row × All (λ r. IsReady A.told r.look r.lane) readers.now }
            ensures { AllHaveRead A.told A.accepts A.faults (λ r. r.look) (λ r. r.lane) readers.entry.now readers.exit.now × (length readers.exit.now ≡ length readers.entry.now) }
        { serve_readers(rt, alloc, readers) },
        &mut ||
            requires { IsHeld (λ o. o.register) (λ o. o.feed) held.now }
            ensures { HasOperated So.reads K.told K.faults (λ o. o.register) (λ o. o.feed) (λ o. o.is_whole) (λ o. o.end) held.entry.now held.exit.now input.entry.now input.exit.now
                (So.left input.entry.now) (So.left input.exit.now) (Si.written output.entry.now) (Si.written output.exit.now) (So.faults input.entry.now) (So.faults input.exit.now) (Si.faults output.entry.now) (Si.faults output.exit.now) }
        { operate(rt, alloc, held, input, output) },
    );
}
