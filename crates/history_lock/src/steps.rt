//! The steps of a call, of a split and of a join.
//!
//! A call waits at the door while a ticket is out, draws a ticket, waits until the turn is that ticket, takes the machine out of the slot, publishes what the machine did, puts it back, and passes the turn to the next ticket. Tickets and turns are words that wrap: no more than 65,536 tickets are ever out, so two of them are never mistaken for one.
//!
//! The door keeps the line of tickets short. A ticket is served in its order alone, so each holder that sleeps holds up all behind it; with the door nearly every holder is a thread that runs. This restricts who may queue, as in D. Dice and A. Kogan, "Avoiding Scalability Collapse by Restricting Concurrency", Euro-Par 2019, and D. Dice, "Malthusian Locks", EuroSys 2017. The door is no part of the rule: a look at it needs no seat, and its bell is one that the rule says nothing of.
ghost use Rattle.std.specs.Prelude.{◌≡◌, ℕ, ◌%◌, ◌^◌, ◌<◌, ◌≤◌, ◌+◌, [], ◌∷◌, length, true, None};
ghost use Rattle.history_lock.specs.Views.{waiting, leading, rested, told, offering, kept_part, new_part, joined, IsSoundView};
ghost use Rattle.history_lock.specs.Moves.{IsTaken};
ghost use Rattle.history_lock.specs.Machines.{meaning, Reaches};
ghost use Rattle.history_lock.specs.Replay.{replay};
ghost use Rattle.history_lock.specs.Replies.{grown, rise_of, failures_of};
ghost use Rattle.history_lock.specs.declared.views.Stage.TheVariants.{Idle, Turns};

use crate::machine::Machine;
use crate::plays::{
    Cut, Draw, JoinSeats, Learn, Look, Offer, Pass, Place, Publish, Recorded, RingBell, Top,
};
use crossbeam_utils::Backoff;
use std::marker::Brand;
use std::snapshot::Snapshot;
use std::sync::Wait;

/// The word from which tickets are drawn.
const TICKET: usize = 0;

/// The word with the ticket whose turn it is.
const TURN: usize = 1;

/// The word with the number of accepted changes.
const COUNT: usize = 2;

/// The first of the words that waiting seats sleep on.
const BELLS: usize = 3;

const BELL_COUNT: u64 = 15;

/// The bell of the door: the word on which callers without a ticket sleep.
const DOOR: usize = 18;

/// While so many tickets are out, a caller waits at the door.
const MOST_OUT: u64 = 1;

/// How often a caller looks before it sleeps at the door.
const LOOKS: u32 = 12;

/// A caller that has slept so often at the door draws a ticket, however many are out. So none waits for ever behind newcomers.
const MOST_SLEEPS: u32 = 4;

/// The word on which the seat with this ticket sleeps.
fn bell_of(ticket: u64) -> usize
    ensures { (i : ℕ) × (result ≡ 3 + i) × (result < 19) }
{
    BELLS + (ticket % BELL_COUNT) as usize
}

/// Whether a caller has to wait at the door.
fn is_crowded<M: Machine>(top: &Top<M>) -> bool
    requires words { top.now.table_id.words ≡ 19 }
{
    let turn = top.peek(TURN);
    top.peek(TICKET).wrapping_sub(turn) >= MOST_OUT
}

/// Waits at the door while tickets are out: looks a few times, then sleeps on the door's bell.
///
/// More than `MOST_OUT` tickets may still be drawn, since two callers can pass at once.
fn wait_at_door<M: Machine, R: Wait>(rt: &R, top: &Top<M>, place: &mut Place<M>)
    requires table { (place.old.table_id ≡ top.now.table_id) × (top.now.table_id.words ≡ 19) }
    ensures table { (place.new.table_id ≡ place.old.table_id) × (place.new.id ≡ place.old.id) }
    ensures view { place.new.me ≡ place.old.me }
{
    let backoff = Backoff::new();
    let mut looks = 0u32;
    let mut sleeps = 0u32;
    let mut rung = false;
    for _ in rt.forever() {
        if sleeps >= MOST_SLEEPS || !is_crowded(top) {
            if sleeps > 0 {
                // Only one was woken, and its waker took the bell down: others may sleep there still.
                top.swap::<RingBell>(place, DOOR, 1);
            }
            return;
        }
        if looks < LOOKS {
            looks += 1;
            backoff.spin();
        } else if rung {
            top.park(rt, DOOR, 1);
            rung = false;
            sleeps += 1;
        } else {
            // Whoever passes the turn on sees the bell, or the next look sees that no ticket is out.
            top.swap::<RingBell>(place, DOOR, 1);
            rung = true;
        }
    }
    unreachable!()
}

/// Wakes one caller that sleeps at the door. Costs no system call if nobody has rung there.
fn wake_at_door<M: Machine>(top: &Top<M>, place: &mut Place<M>)
    requires table { (place.old.table_id ≡ top.now.table_id) × (top.now.table_id.words ≡ 19) }
    ensures table { (place.new.table_id ≡ place.old.table_id) × (place.new.id ≡ place.old.id) }
    ensures view { place.new.me ≡ place.old.me }
{
    if top.peek(DOOR) != 0 && top.swap::<RingBell>(place, DOOR, 0) != 0 {
        top.wake_one(DOOR);
    }
}

/// Draws a ticket.
fn draw<M: Machine>(top: &Top<M>, place: &mut Place<M>) -> u64
    requires table { (place.old.table_id ≡ top.now.table_id) × (top.now.table_id.words ≡ 19) }
    requires idle { (place.old.me.0.stage ≡ Idle) × (0 < place.old.me.0.weight) × (place.old.me.1 ≡ []) }
    ensures table { (place.new.table_id ≡ place.old.table_id) × (place.new.id ≡ place.old.id) }
    ensures drawn { (t : ℕ) × (result ≡ t % 2 ^ 64) × (place.new.me ≡ (waiting t place.old.me.0, [])) }
{
    top.fetch_add::<Draw>(place, TICKET, 1)
}

/// Draws a ticket, waits for its turn, and takes the machine out of the slot.
///
/// It spins, then yields, then sleeps on the bell of its ticket, so that a waiting thread costs no processor while the machine is slow.
fn await_turn<M: Machine, R: Wait>(rt: &R, top: &Top<M>, place: &mut Place<M>) -> M
    requires table { (place.old.table_id ≡ top.now.table_id) × (top.now.table_id.words ≡ 19) }
    requires idle { (place.old.me.0.stage ≡ Idle) × (0 < place.old.me.0.weight) × (place.old.me.1 ≡ []) }
    ensures table { (place.new.table_id ≡ place.old.table_id) × (place.new.id ≡ place.old.id) }
    ensures machine { IsTaken (meaning M.opening M.state M.log M.faults M.step) place.old.me.0 result }
    ensures view { (t : ℕ) × (place.new.me ≡ (leading (meaning M.opening M.state M.log M.faults M.step) t result place.old.me.0, (0, None) ∷ [])) }
{
    let ticket = draw(top, place);
    let backoff = Backoff::new();
    let bell = bell_of(ticket);
    let mut rung = false;
    for _ in rt.forever() {
        let turn = top.load::<Look>(place, TURN);
        if turn == ticket {
            match top.exchange(place, 0, None) {
                Some(machine) => return machine,
                None => unreachable!(),
            }
        }
        if !backoff.is_completed() {
            backoff.snooze();
        } else if rung {
            top.park(rt, bell, 1);
            rung = false;
        } else {
            // Whoever passes the turn on sees the bell, or the next look sees the turn.
            top.swap::<RingBell>(place, bell, 1);
            rung = true;
        }
    }
    unreachable!()
}

/// Waits at the door and then for the seat's turn, and takes the machine out of the slot.
pub(crate) fn take_turn<M: Machine, R: Wait>(rt: &R, top: &Top<M>, place: &mut Place<M>) -> M
    requires table { (place.old.table_id ≡ top.now.table_id) × (top.now.table_id.words ≡ 19) }
    requires idle { (place.old.me.0.stage ≡ Idle) × (0 < place.old.me.0.weight) × (place.old.me.1 ≡ []) }
    ensures table { (place.new.table_id ≡ place.old.table_id) × (place.new.id ≡ place.old.id) }
    ensures machine { IsTaken (meaning M.opening M.state M.log M.faults M.step) place.old.me.0 result }
    ensures view { (t : ℕ) × (place.new.me ≡ (leading (meaning M.opening M.state M.log M.faults M.step) t result place.old.me.0, (0, None) ∷ [])) }
{
    wait_at_door(rt, top, place);
    await_turn(rt, top, place)
}

/// Wakes the seat with this ticket if it sleeps. Costs no system call if nobody sleeps on its bell.
fn wake<M: Machine>(top: &Top<M>, place: &mut Place<M>, ticket: u64)
    requires table { (place.old.table_id ≡ top.now.table_id) × (top.now.table_id.words ≡ 19) }
    ensures table { (place.new.table_id ≡ place.old.table_id) × (place.new.id ≡ place.old.id) }
    ensures view { place.new.me ≡ place.old.me }
{
    let bell = bell_of(ticket);
    if top.swap::<RingBell>(place, bell, 0) != 0 {
        top.wake_all(bell);
    }
}

/// Raises the count by what the machine accepted, which makes the call part of the history.
fn publish<M: Machine, B: Recorded<M::Said>>(
    top: &Top<M>,
    place: &mut Place<M>,
    call: &Snapshot<M::Call>,
    reply: &M::Reply,
    rose: u64,
)
    requires done { B.done ≡ (M.kind reply.now, M.said call.now.value) ∷ [] }
    requires table { (place.old.table_id ≡ top.now.table_id) × (top.now.table_id.words ≡ 19) }
    requires turn { (t : ℕ) × (place.old.me.0.stage ≡ Turns t) }
    requires rose { (rose ≡ rise_of (M.kind reply.now)) × (length place.old.me.0.seen + rose < 2 ^ 64) }
    ensures table { (place.new.table_id ≡ place.old.table_id) × (place.new.id ≡ place.old.id) }
    ensures view { place.new.me ≡ (told (M.kind reply.now) (M.said call.now.value) place.old.me.0, place.old.me.1) }
{
    top.fetch_add::<Publish<B>>(place, COUNT, rose);
}

/// Publishes what the machine did, puts the machine back and passes the turn.
pub(crate) fn finish<M: Machine>(
    top: &Top<M>,
    place: &mut Place<M>,
    call: &Snapshot<M::Call>,
    reply: &M::Reply,
    rose: u64,
    machine: M,
)
    requires table { (place.old.table_id ≡ top.now.table_id) × (top.now.table_id.words ≡ 19) }
    requires turn { (t : ℕ) × (place.old.me.0.stage ≡ Turns t) }
    requires empty { place.old.me.1 ≡ (0, None) ∷ [] }
    requires rose { (rose ≡ rise_of (M.kind reply.now)) × (length place.old.me.0.seen + rose < 2 ^ 64) }
    requires same { M.opening machine ≡ place.old.me.0.opening.value }
    requires list { M.log machine ≡ grown (M.kind reply.now) (place.old.me.0.number, M.said call.now.value) place.old.me.0.seen }
    requires replayed { M.state machine ≡ replay M.step (M.opening machine) (M.log machine) }
    requires count { Reaches (place.old.me.0.total + failures_of (M.kind reply.now)) (M.faults machine) }
    ensures table { (place.new.table_id ≡ place.old.table_id) × (place.new.id ≡ place.old.id) }
    ensures view { place.new.me ≡ (rested (told (M.kind reply.now) (M.said call.now.value) place.old.me.0), []) }
{
    publish::<M, Brand>(top, place, call, reply, rose);
    let held = top.exchange(place, 0, Some(machine));
    let None = held else { unreachable!() };
    let turn = top.fetch_add::<Pass>(place, TURN, 1);
    wake(top, place, turn.wrapping_add(1));
    wake_at_door(top, place);
}

/// Gives a share of the seat's numbers and of its weight to a new seat.
pub(crate) fn split<M: Machine>(top: &Top<M>, place: &mut Place<M>, share: u32) -> Place<M>
    requires table { (place.old.table_id ≡ top.now.table_id) × (top.now.table_id.words ≡ 19) }
    requires idle { (place.old.me.0.live ≡ true) × (place.old.me.0.stage ≡ Idle) × (place.old.me.1 ≡ []) }
    requires share { (1 ≤ share) × (share < place.old.me.0.spare) }
    ensures table { (place.new.table_id ≡ place.old.table_id) × (place.new.id ≡ place.old.id) × (result.table_id ≡ place.old.table_id) }
    ensures views { (place.new.me ≡ (kept_part (offering share place.old.me.0), [])) × (result.me ≡ (new_part (offering share place.old.me.0), [])) × IsSoundView result.me.0 }
{
    top.compare_exchange::<Offer>(place, TICKET, share as u64, share as u64);
    let mut other = top.split_seat::<Cut>(place);
    top.load::<Learn>(&mut other, TICKET);
    other
}

/// Takes in what another seat has, which is spent.
pub(crate) fn join<M: Machine>(top: &Top<M>, place: &mut Place<M>, other: Place<M>)
    requires table { (place.old.table_id ≡ top.now.table_id) × (other.table_id ≡ top.now.table_id) × (top.now.table_id.words ≡ 19) }
    requires idle { (place.old.me.0.live ≡ true) × (place.old.me.0.stage ≡ Idle) × (place.old.me.1 ≡ []) }
    requires idle_too { (other.me.0.live ≡ true) × (other.me.0.stage ≡ Idle) × (other.me.1 ≡ []) }
    ensures table { (place.new.table_id ≡ place.old.table_id) × (place.new.id ≡ place.old.id) }
    ensures views { (place.new.me ≡ (joined place.old.me.0 other.me.0, [])) × IsSoundView place.new.me.0 }
{
    top.join_seat::<JoinSeats<M>>(place, other);
    top.load::<Learn>(place, TICKET);
}
