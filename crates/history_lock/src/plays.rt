//! The rule of the lock, and what each kind of step on its words shows the seat that makes it.
ghost use Rattle.history_lock.specs.Machines.{meaning};
ghost use Rattle.history_lock.specs.LockRule.{KeepsOneHistory};
ghost use Rattle.history_lock.specs.Views.{first_view, kept_part, new_part, joined, spent_view};
ghost use Rattle.history_lock.specs.Moves.{HasDrawn, HasLooked, HasPublished, HasPassed, HasRung, HasOffered, HasLearned};

use crate::machine::Machine;
use crate::views::View;
use atomic_table::{Join, Play, Seat, Shared, Split, TableRule};
use std::marker::{Brand, PhantomData};
use std::snapshot::Snapshot;

/// The rule, which each step on the lock's words keeps. See `specs/LockRule.antt`.
pub struct Rule;

impl<M: Machine> TableRule<Option<M>, View<M::State, M::Said>, Snapshot<M>> for Rule {
    ghost holds = { λ key. KeepsOneHistory (meaning M.opening M.state M.log M.faults M.step) key.value };

    ghost first = { λ key. first_view (meaning M.opening M.state M.log M.faults M.step) key.value };
}

/// The lock's words, its slot and the views of its seats.
pub(crate) type Top<M> = Shared<
    Option<M>,
    View<<M as Machine>::State, <M as Machine>::Said>,
    Snapshot<M>,
    Rule,
>;

/// A seat's part in these.
pub(crate) type Place<M> = Seat<Option<M>, View<<M as Machine>::State, <M as Machine>::Said>>;

/// Draws a ticket.
pub(crate) struct Draw;

impl<M: Machine> Play<Option<M>, View<M::State, M::Said>> for Draw {
    ghost then = { HasDrawn };
}

/// Looks at the turn, and takes the slot if the turn is the seat's ticket.
pub(crate) struct Look;

impl<M: Machine> Play<Option<M>, View<M::State, M::Said>> for Look {
    ghost then = { HasLooked (meaning M.opening M.state M.log M.faults M.step) };
}

/// What the step that publishes is given: at most one call, and of which kind its reply was.
/// A step has no parameters of its own, so this is given as a brand, which its caller picks.
pub(crate) trait Recorded<C> {
    ghost use Rattle.std.specs.Prelude.{List};
    ghost use Rattle.history_lock.specs.Replies.{ReplyKind};

    ghost done: { List (ReplyKind × C) };
}

impl<C> Recorded<C> for Brand {
    ghost use Rattle.std.specs.Prelude.{[]};

    ghost done = { [] };
}

/// Adds the accepted change to the count.
pub(crate) struct Publish<B> {
    of: PhantomData<B>,
}

impl<M: Machine, B: Recorded<M::Said>> Play<Option<M>, View<M::State, M::Said>> for Publish<B> {
    ghost then = { HasPublished B.done };
}

/// Passes the turn on, and gives the slot back.
pub(crate) struct Pass;

impl<M: Machine> Play<Option<M>, View<M::State, M::Said>> for Pass {
    ghost then = { HasPassed };
}

/// Sets a bell, on which a waiting seat sleeps, or takes it down.
pub(crate) struct RingBell;

impl<M: Machine> Play<Option<M>, View<M::State, M::Said>> for RingBell {
    ghost then = { HasRung };
}

/// Notes the share of the split that follows, as a split has no parameters of its own.
pub(crate) struct Offer;

impl<M: Machine> Play<Option<M>, View<M::State, M::Said>> for Offer {
    ghost then = { HasOffered };
}

/// Shows a seat what the rule says of its view.
pub(crate) struct Learn;

impl<M: Machine> Play<Option<M>, View<M::State, M::Said>> for Learn {
    ghost then = { HasLearned };
}

/// Cuts a view in two by the share that was noted.
pub(crate) struct Cut;

impl<S, C> Split<View<S, C>> for Cut {
    ghost left = { kept_part };

    ghost right = { new_part };
}

/// Puts two views together.
pub(crate) struct JoinSeats<M> {
    of: PhantomData<M>,
}

impl<M: Machine> Join<View<M::State, M::Said>> for JoinSeats<M> {
    ghost both = { joined };

    ghost spent = { spent_view M.blank };
}
