//! What publishes the changes of a register.

ghost use Rattle.std.specs.Prelude.{◌≡◌, ◌^◌, ◌<◌, length, map, true, OnErr, OnOk};
ghost use Rattle.machine_session.specs.Owned.{IsBehind};
ghost use Rattle.register_core.specs.Machines.{pair_of};
ghost use Rattle.snapshot_operator.specs.Shown.{IsFeedOf, HasPublished, IsShown};

use history_lock::Machine;
use ipam_data::update::Update;
use ipam_keeper::keeper::Keeper;
use machine_session::Follower;
use register_core::Register;
use snapshot_reads::Feed;
use snapshot_rows::listed;
use std::alloc::{AllocError, Global};
use std::sync::Wait;

/// Publishes what an update does to the lists. It may wait for a reader to leave a copy. The one error means out of memory, or a change
/// that no copy takes in (`Feed::publish`).
fn publish<R: Wait>(
    rt: &R,
    alloc: Global,
    update: &Update,
    feed: &mut Feed,
) -> Result<(), AllocError>
    requires live { feed.old.live ≡ true }
    requires few { length feed.old.published < 2 ^ 63 }
    ensures same { (feed.new.book ≡ feed.old.book) × (feed.new.opening ≡ feed.old.opening) }
    ensures live { OnOk result (feed.new.live ≡ true) }
    ensures published { OnOk result (HasPublished update.now feed.old.published feed.new.published) }
    ensures err { OnErr result (feed.new.published ≡ feed.old.published) }
{
    let change = listed(alloc, update)?;
    let _number = feed.publish(rt, change)?;
    Ok(())
}

/// Publishes the change that a register accepted last, as `publish` does: of one that keeps no update (`lend_updates`) it publishes nothing.
fn publish_last<R: Wait, K: Keeper>(
    rt: &R,
    alloc: Global,
    register: &Register<K>,
    feed: &mut Feed,
) -> Result<(), AllocError>
    requires { IsBehind (λ log. IsShown register.now.opening log feed.old) (map pair_of register.now.log) }
    ensures same { (feed.new.book ≡ feed.old.book) × (feed.new.opening ≡ feed.old.opening) }
    ensures follows { IsFeedOf register.now.opening (map pair_of register.now.log) feed.new }
    ensures shown { OnOk result (IsShown register.now.opening (map pair_of register.now.log) feed.new) }
    ensures lacks { OnErr result (length feed.new.published < length (map pair_of register.now.log)) }
{
    // Hints to the prover: the state is the replay of the accepted changes, which are fewer than 2^63.
    register.replayed();
    let _entries = Machine::entries(register);
    match register.last_update() {
        Some(update) => publish(rt, alloc, update, feed),
        None => Err(AllocError),
    }
}

/// Publishes each accepted change of a register, before it is answered.
pub struct Publisher<'a, R: Wait> {
    rt: &'a R,
    feed: Feed,
    /// Whether the feed shows all changes. Once memory ran out for one, it does not.
    is_whole: bool,
}

impl<'a, R: Wait + 'a> Publisher<'a, R> {
    /// Publishes by a feed that shows all changes so far.
    pub fn new(rt: &'a R, feed: Feed) -> Publisher<'a, R>
        ensures { (result.feed ≡ feed) × (result.is_whole ≡ true) }
    {
        Publisher {
            rt,
            feed,
            is_whole: true,
        }
    }

    /// The feed again, and whether it shows all changes.
    pub fn into_parts(self) -> (Feed, bool)
        ensures { (result.0 ≡ self.entry.feed) × (result.1 ≡ self.entry.is_whole) }
    {
        let Publisher {
            rt: _,
            feed,
            is_whole,
        } = self;
        (feed, is_whole)
    }
}

impl<'a, R: Wait + 'a, K: Keeper> Follower<Register<K>> for Publisher<'a, R> {
    ghost use Rattle.std.specs.Prelude.{Option};
    ghost use Rattle.std.proofs.Props.{props};
    ghost use Rattle.logbook.specs.Pages.{Book};
    ghost use Rattle.snapshot_rows.specs.Lists.{Lists};
    ghost use Rattle.snapshot_operator.specs.Sets.{Lists-set};
    ghost use Rattle.snapshot_operator.specs.Shown.{IsKept};

    ghost keeps = { λ p opening log. IsKept p.is_whole opening.state log p.feed };

    ghost keeps_is_fact = { λ p opening log. Prim.hlevel (props, Lists-set) };

    ghost Tag = { Book × Option Lists };

    ghost tag = { λ p. (p.feed.book, p.feed.opening) };

    ghost whole = { λ p. p.is_whole };

    fn follow(
        self,
        alloc: Global,
        machine: &Register<K>,
    ) -> (Publisher<'a, R>, Result<(), AllocError>) {
        let Publisher {
            rt,
            mut feed,
            is_whole,
        } = self;
        if !is_whole {
            return (Publisher { rt, feed, is_whole }, Err(AllocError));
        }
        let published = publish_last(rt, alloc, machine, &mut feed);
        let is_whole = published.is_ok();
        (Publisher { rt, feed, is_whole }, published)
    }
}
