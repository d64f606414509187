//! A machine that was served goes back to its opener.

ghost use Rattle.std.specs.Prelude.{◌≡◌, ◌≤◌, ◌+◌, [], All, length, vec_len, vec_capacity};
ghost use Rattle.history_lock.specs.Replay.{own_entries};
ghost use Rattle.machine_session.specs.Protocols.{protocol};
ghost use Rattle.machine_server.specs.Hired.{AreHired};
ghost use Rattle.machine_command.specs.Openers.{opener_meaning};
ghost use Rattle.machine_command.specs.Outside.{stores};
ghost use Rattle.machine_serving.specs.Finished.{IsFinished};
ghost use Rattle.machine_serving.specs.Views.{listener_view};

use crate::begin::Begun;
use crate::ending::Served;
use history_lock::Machine;
use ipam_listen::Listener;
use machine_command::MachineOpener;
use machine_server::close_all;
use machine_session::Service;

/// Dismisses the workers after their work, closes the lock, and gives the machine back to its opener. It takes no memory.
pub fn finish_serve<M: Machine, V: Service<M>, O: MachineOpener<M>, L: Listener>(
    begun: Begun<M, L::Door>,
    opener: &mut O,
    listener: &mut L,
) -> Served
    requires seat { (begun.seat.lock ≡ begun.shared) × (begun.seat.weight + vec_len begun.hired ≡ 65536) }
    requires first { (begun.seat.ended ≡ []) × (own_entries begun.seat.number begun.seat.seen ≡ []) × (begun.seat.faults ≡ 0) }
    requires crew { AreHired (protocol M.step M.answer M.kind M.fallible V.asks V.tells V.refuses V.misread) L.Door.told begun.seat.opening begun.seat.base begun.shared (λ w. w.seat) (λ w. w.lane) begun.hired.items }
    requires none_yet { begun.lanes.items ≡ [] }
    requires room { vec_len begun.hired ≤ vec_capacity begun.lanes }
    requires out { length (L.returned listener.old) + vec_len begun.hired ≤ L.lanes listener.old }
    ensures finished { IsFinished (protocol M.step M.answer M.kind M.fallible V.asks V.tells V.refuses V.misread) (opener_meaning O.loads O.holds O.refuses O.says) (O.asked opener.old) (O.lends opener.old)
        begun.seat.opening begun.seat.base (O.faults opener.old) (stores O.stored O.faults opener.new)
        (listener_view L.bound L.lanes L.returned L.faults listener.old) (listener_view L.bound L.lanes L.returned L.faults listener.new)
        (All (λ w. L.Door.accepts w.lane ≡ 0) begun.hired.items) (vec_len begun.hired) begun.came result }
    ensures asked { O.asked opener.new ≡ O.asked opener.old }
    ensures loan { O.loan opener.new ≡ O.loan opener.old }
{
    let Begun {
        shared,
        seat,
        lanes,
        hired,
        came,
    } = begun;
    let (machine, heard) = close_all::<M, V, L>(shared, seat, lanes, hired, listener);
    let entries = machine.entries();
    opener.done(machine);
    Served {
        entries,
        listening: came.and(heard),
    }
}
