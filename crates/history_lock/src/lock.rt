//! The lock, and the seats through which its callers call.
ghost use Rattle.std.specs.Prelude.{◌≡◌, ℕ, ◌+◌, ◌^◌, ◌<◌, ◌≤◌, [], ◌∷◌, length, IfOk, IfErr, Some};
ghost use Rattle.history_lock.specs.Seats.{SeatView, seat_view, IsResting, first_seat, IsCall, IsSplit, IsJoined, IsClosed};
ghost use Rattle.history_lock.specs.Machines.{meaning};
ghost use Rattle.atomic_table.specs.Seated.{TableId};

use crate::machine::Machine;
use crate::plays::Rule;
use crate::steps;
use crate::views::View;
use atomic_table::{Refused, Table};
use std::alloc::{AllocFailed, Global};
use std::marker::Model;
use std::snapshot::Snapshot;
use std::sync::Wait;

/// A machine that callers take turns with, and the one history of the changes that it accepted.
///
/// A contract sees it as the identity that its seats know as their `lock`.
#[derive(Drop)]
pub struct Shared<M: Machine> {
    table: Table<Option<Box<M>>, View<M::State, M::Said>, Snapshot<Box<M>>, Rule, Global>,
}

impl<M: Machine> Model for Shared<M> {
    ghost Value = { TableId };

    ghost view = { λ s. s.table.shared.table_id };

    ghost invariant = { λ s. (s.table.shared.table_id.words ≡ 19) × (s.table.shared.table_id.slots ≡ 1) };
}

/// The right to call under its own number.
///
/// A contract sees it as a `SeatView`: the lock, the number, the spare and the weight, the machine's opening state and count of faults when the lock was made, the beginning of the history that it has seen, how many faults its calls met, and the ended numbers that it keeps. A seat that is dropped leaves its entries in the history, but then the lock cannot be closed, as the seat's weight is gone.
#[derive(Drop)]
pub struct Seat<M: Machine> {
    who: u32,
    spare: u32,
    weight: u32,
    place: atomic_table::Seat<Option<Box<M>>, View<M::State, M::Said>>,
}

impl<M: Machine> Model for Seat<M> {
    ghost Value = { SeatView M.State M.Said };

    ghost view = { λ s. seat_view s.place };

    ghost invariant = { λ s. IsResting s.place × (s.who ≡ s.place.me.0.number) × (s.spare ≡ s.place.me.0.spare) × (s.weight ≡ s.place.me.0.weight) };
}

impl<M: Machine> Shared<M> {
    /// A lock over this machine, which has accepted no change yet, and the first seat, with the number 0, a spare of 65,536 and a weight of 65,536.
    ///
    /// For out of memory, and for nothing else, the machine is given back unchanged.
    pub fn new(alloc: Global, machine: M) -> Result<(Shared<M>, Seat<M>), M>
        requires { M.log machine ≡ [] }
        ensures ok { IfOk result (λ r. r.1 ≡ first_seat r.0 (M.opening machine) (M.faults machine)) }
        ensures err { IfErr result (λ m. m ≡ machine) }
    {
        // In a box, so that it never moves.
        match Box::new(alloc, machine) {
            Ok(machine) => match Shared::over(alloc, machine) {
                Ok(made) => Ok(made),
                Err(machine) => Err(Box::into_inner(machine)),
            },
            Err(AllocFailed { value }) => Err(value),
        }
    }

    /// The same over a machine in a box.
    fn over(alloc: Global, machine: Box<M>) -> Result<(Shared<M>, Seat<M>), Box<M>>
        requires { M.log machine.value ≡ [] }
        ensures ok { IfOk result (λ r. r.1 ≡ first_seat r.0 (M.opening machine.value) (M.faults machine.value)) }
        ensures err { IfErr result (λ m. m ≡ machine) }
    {
        // Its clauses say that the machine's state is the replay of its accepted changes.
        let _ = machine.entries();
        let about = Snapshot::of(&machine);
        let mut slots = Vec::new(alloc);
        if let Err(failed) = slots.push(Some(machine)) {
            let AllocFailed { value } = failed;
            slots.destroy_empty();
            return Err(machine_of(value));
        }
        match Table::new(
            alloc,
            &[0, 0, 0, 0, 0, 0, 0, 0, 0, 0, 0, 0, 0, 0, 0, 0, 0, 0, 0],
            slots,
            &about,
        ) {
            Ok((table, place)) => Ok((
                Shared { table },
                Seat {
                    who: 0,
                    spare: 65_536,
                    weight: 65_536,
                    place,
                },
            )),
            Err(refused) => {
                let Refused { mut slots } = refused;
                let Some(slot) = slots.pop() else {
                    unreachable!()
                };
                slots.destroy_empty();
                Err(machine_of(slot))
            }
        }
    }

    /// Waits for the seat's turn, and lets the machine answer the call. Gives the seat back, with the reply and its place, the number of accepted changes before it.
    ///
    /// It takes no memory besides what the machine takes, and has no answer of its own.
    pub fn call<R: Wait>(&self, rt: &R, seat: Seat<M>, call: M::Call) -> (Seat<M>, M::Reply, u64)
        requires lock { seat.lock ≡ self.now }
        requires call { M.takes call }
        ensures { IsCall M.step M.fallible seat result.0 (M.said call) (M.answer result.1) (M.kind result.1) result.2 }
    {
        let Seat {
            who,
            spare,
            weight,
            mut place,
        } = seat;
        let said = Snapshot::of(&call);
        let mut machine = steps::take_turn(rt, &self.table.shared, &mut place);
        let before = machine.entries();
        let reply = machine.act(who, call);
        // Says that the state is the replay of what is accepted now, which the next caller rests on.
        let after = machine.entries();
        steps::finish(
            &self.table.shared,
            &mut place,
            &said,
            &reply,
            after - before,
            machine,
        );
        (
            Seat {
                who,
                spare,
                weight,
                place,
            },
            reply,
            before,
        )
    }

    /// Gives `share` of the seat's numbers and of its weight to a new seat, whose number nobody has called under. Gives the old seat back first. It takes no memory.
    pub fn split(&self, seat: Seat<M>, share: u32) -> (Seat<M>, Seat<M>)
        requires lock { seat.lock ≡ self.now }
        requires share { (1 ≤ share) × (share < seat.spare) }
        ensures { IsSplit seat share result.0 result.1 }
    {
        let Seat {
            who,
            spare,
            weight,
            mut place,
        } = seat;
        let other = steps::split(&self.table.shared, &mut place, share);
        (
            Seat {
                who,
                spare: spare - share,
                weight: weight - share,
                place,
            },
            Seat {
                who: who + (spare - share),
                spare: share,
                weight: share,
                place: other,
            },
        )
    }

    /// Ends the right seat. The left one keeps its number and spare, gets the weight of both, and has seen what both had seen. It takes no memory.
    pub fn join(&self, left: Seat<M>, right: Seat<M>) -> Seat<M>
        requires lock { (left.lock ≡ self.now) × (right.lock ≡ self.now) }
        ensures { IsJoined left right result }
    {
        let Seat {
            who,
            spare,
            weight,
            mut place,
        } = left;
        let Seat {
            who: _,
            spare: _,
            weight: more,
            place: other,
        } = right;
        steps::join(&self.table.shared, &mut place, other);
        Seat {
            who,
            spare,
            weight: weight + more,
            place,
        }
    }

    /// Ends the lock with its last seat, and gives the machine back, whose accepted changes are the history. It takes no memory.
    pub fn close(self, seat: Seat<M>) -> M
        requires lock { seat.lock ≡ self }
        requires whole { seat.weight ≡ 65536 }
        ensures { IsClosed (meaning M.opening M.state M.log M.faults M.step) seat result }
    {
        let Shared { table } = self;
        let Seat {
            who: _,
            spare: _,
            weight: _,
            place,
        } = seat;
        let mut closed = table.close_with(place);
        let slot = closed.take(0);
        closed.free();
        Box::into_inner(machine_of(slot))
    }
}

/// The machine in a full slot.
fn machine_of<M>(slot: Option<M>) -> M
    requires { (x : M) × (slot ≡ Some x) }
    ensures { slot ≡ Some result }
{
    match slot {
        Some(machine) => machine,
        None => unreachable!(),
    }
}

impl<M: Machine> Seat<M> {
    /// The number under which its accepted changes are in the history.
    pub fn who(&self) -> u32
        ensures { result ≡ self.now.number }
    {
        self.who
    }

    /// How many numbers it owns, its own with those that it can give to new seats: a split needs a share of at least 1 that is smaller.
    pub fn spare(&self) -> u32
        ensures { result ≡ self.now.spare }
    {
        self.spare
    }

    /// Its part of the 65,536 that all live seats weigh together: with the whole of it no other seat is live.
    pub fn weight(&self) -> u32
        ensures { result ≡ self.now.weight }
    {
        self.weight
    }
}
