//! A machine is opened and shared, a listener is bound, and workers are hired.

ghost use Rattle.std.specs.Prelude.{◌≡◌, ◌≤◌, [], IfOk, IfErr, vec_len, vec_capacity};
ghost use Rattle.history_lock.specs.Seats.{first_seat};
ghost use Rattle.machine_session.specs.Protocols.{protocol};
ghost use Rattle.machine_command.specs.Openers.{opener_meaning};
ghost use Rattle.machine_command.specs.Outside.{stores};
ghost use Rattle.machine_serving.specs.Begun.{HasNoPlace, IsCalm, IsManned, IsUnserved};
ghost use Rattle.machine_serving.specs.Serve.{serving};
ghost use Rattle.machine_serving.specs.Views.{listener_view};

use crate::ending::Unserved;
use history_lock::{Machine, Seat, Shared};
use http_lanes::Listening;
use ipam_listen::Listener;
use machine_command::MachineOpener;
use machine_server::open_all;
use machine_session::Service;
use machine_workers::Worker;
use std::alloc::Global;

/// A machine that is shared, with its first seat, and the workers that were hired. There is room for their lanes.
pub struct Begun<M: Machine, D> {
    pub shared: Shared<M>,
    pub seat: Seat<M>,
    pub lanes: Vec<D>,
    pub hired: Vec<Worker<M, D>>,
    /// How the taking of lanes went.
    pub came: Listening,
}

/// Shares a machine, and takes the memory for so many workers and their lanes. `Err` means out of memory, and gives the machine back.
fn share<M: Machine, D>(
    alloc: Global,
    machine: M,
    workers: u32,
) -> Result<(Shared<M>, Seat<M>, Vec<D>, Vec<Worker<M, D>>), M>
    requires { M.log machine ≡ [] }
    ensures seat { IfOk result (λ r. r.1 ≡ first_seat r.0 (M.opening machine) (M.faults machine)) }
    ensures none_yet { IfOk result (λ r. (r.2.items ≡ []) × (r.3.items ≡ [])) }
    ensures room { IfOk result (λ r. (workers ≤ vec_capacity r.2) × (workers ≤ vec_capacity r.3)) }
    ensures err { IfErr result (λ m. m ≡ machine) }
    ensures state { M.state machine ≡ M.opening machine }
{
    // Its clauses say that the machine's state is the replay of its accepted changes, of which there are none.
    let _ = machine.entries();
    let Ok(lanes) = Vec::with_capacity(alloc, workers as usize) else {
        return Err(machine);
    };
    let Ok(hired) = Vec::with_capacity(alloc, workers as usize) else {
        lanes.destroy_empty();
        return Err(machine);
    };
    match Shared::new(alloc, machine) {
        Ok((shared, seat)) => Ok((shared, seat, lanes, hired)),
        Err(machine) => {
            lanes.destroy_empty();
            hired.destroy_empty();
            Err(machine)
        }
    }
}

/// Binds a listener, and hires a worker for each lane that is handed out, up to so many. If it can't be bound the lock is closed: `Err` has the
/// machine.
fn hire<M: Machine, V: Service<M>, L: Listener>(
    place: Vec<u8>,
    workers: u32,
    connections: u32,
    shared: Shared<M>,
    seat: Seat<M>,
    lanes: Vec<L::Door>,
    hired: Vec<Worker<M, L::Door>>,
    listener: &mut L,
) -> Result<Begun<M, L::Door>, M>
    requires seat { (seat.lock ≡ shared) × (seat.weight ≡ 65536) × (seat.spare ≡ 65536) }
    requires first { (seat.ended ≡ []) × (seat.seen ≡ []) × (seat.faults ≡ 0) }
    requires first_number { seat.number ≡ 0 }
    requires none_yet { (lanes.items ≡ []) × (hired.items ≡ []) }
    requires few { workers ≤ 1000 }
    requires room { (workers ≤ vec_capacity lanes) × (workers ≤ vec_capacity hired) }
    ensures opening { IfOk result (λ b. (b.seat.opening ≡ seat.opening) × (b.seat.base ≡ seat.base)) }
    ensures manned { IfOk result (λ b. IsManned (protocol M.step M.answer M.kind M.fallible V.asks V.tells V.refuses V.misread) L.Door.told (serving place.items workers connections)
        (listener_view L.bound L.lanes L.returned L.faults listener.old) (listener_view L.bound L.lanes L.returned L.faults listener.new) b.shared b.seat (λ w. w.seat) (λ w. w.lane) b.hired.items b.came) }
    ensures room { IfOk result (λ b. (b.lanes.items ≡ []) × (vec_len b.hired ≤ vec_capacity b.lanes)) }
    ensures state { IfErr result (λ m. M.state m ≡ seat.opening) }
    ensures failed { IfErr result (λ m. HasNoPlace (listener_view L.bound L.lanes L.returned L.faults listener.old) (listener_view L.bound L.lanes L.returned L.faults listener.new)) }
    ensures later { L.faults listener.old ≤ L.faults listener.new }
{
    match listener.bind(place, connections) {
        Ok(()) => {
            let mut lanes = lanes;
            let mut hired = hired;
            let (seat, came) = open_all::<M, V, L>(
                &shared, seat, workers, &mut lanes, &mut hired, listener,
            );
            Ok(Begun {
                shared,
                seat,
                lanes,
                hired,
                came,
            })
        }
        Err(_) => {
            lanes.destroy_empty();
            hired.destroy_empty();
            Err(shared.close(seat))
        }
    }
}

/// Opens a machine, shares it, binds the listener to the place, and hires so many workers. If that fails the machine goes back to its
/// opener, if it was opened, and nobody was served: `Err` says why. The memory is taken before the listener is used.
pub fn begin_serve<M: Machine, V: Service<M>, O: MachineOpener<M>, L: Listener>(
    alloc: Global,
    place: &str,
    workers: u32,
    connections: u32,
    opener: &mut O,
    listener: &mut L,
) -> Result<Begun<M, L::Door>, Unserved<O::Fault>>
    requires few { workers ≤ 1000 }
    ensures loaded { IfOk result (λ b. O.loads (O.asked opener.old) (O.stored opener.old) b.seat.opening) }
    ensures base { IfOk result (λ b. b.seat.base ≡ 0) }
    ensures lent { IfOk result (λ b. O.lends opener.new (O.stored opener.old)) }
    ensures kept { IfOk result (λ b. O.faults opener.new ≡ O.faults opener.old) }
    ensures manned { IfOk result (λ b. IsManned (protocol M.step M.answer M.kind M.fallible V.asks V.tells V.refuses V.misread) L.Door.told (serving place.now workers connections)
        (listener_view L.bound L.lanes L.returned L.faults listener.old) (listener_view L.bound L.lanes L.returned L.faults listener.new) b.shared b.seat (λ w. w.seat) (λ w. w.lane) b.hired.items b.came) }
    ensures room { IfOk result (λ b. (b.lanes.items ≡ []) × (vec_len b.hired ≤ vec_capacity b.lanes)) }
    ensures why { IfErr result (IsUnserved (opener_meaning O.loads O.holds O.refuses O.says) (O.asked opener.old) (stores O.stored O.faults opener.old) (stores O.stored O.faults opener.new)
        (listener_view L.bound L.lanes L.returned L.faults listener.old) (listener_view L.bound L.lanes L.returned L.faults listener.new)) }
    ensures calm { IfErr result (IsCalm O.fails (O.faults opener.old) (O.faults opener.new)) }
    ensures asked { O.asked opener.new ≡ O.asked opener.old }
    ensures loan { O.loan opener.new ≡ O.loan opener.old }
    ensures later { O.faults opener.old ≤ O.faults opener.new }
    ensures listener_later { L.faults listener.old ≤ L.faults listener.new }
{
    let Ok(place) = Vec::from_slice(alloc, place.as_bytes()) else {
        return Err(Unserved::Memory);
    };
    let machine = match opener.open(alloc) {
        Ok(machine) => machine,
        Err(fault) => return Err(Unserved::Opening(fault)),
    };
    let (shared, seat, lanes, hired) = match share::<M, L::Door>(alloc, machine, workers) {
        Ok(parts) => parts,
        Err(machine) => {
            opener.done(machine);
            return Err(Unserved::Memory);
        }
    };
    match hire::<M, V, L>(
        place,
        workers,
        connections,
        shared,
        seat,
        lanes,
        hired,
        listener,
    ) {
        Ok(begun) => Ok(begun),
        Err(machine) => {
            opener.done(machine);
            Err(Unserved::Place)
        }
    }
}
