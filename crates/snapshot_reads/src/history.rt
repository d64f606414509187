//! The one history of changes, of which each thread knows a beginning. It takes no memory when the program runs: its changes are
//! known to the proof alone, and what remains is a word with their number.
ghost use Rattle.std.specs.Prelude.{◌≡◌, ◌+◌, ◌≤◌, ◌^◌, ◌<◌, ◌++◌, ◌∷◌, [], length, true, MatchBool};
ghost use mathlib.Core.List.{IsPrefix};
ghost use Rattle.snapshot_reads.specs.History.{head_of};

use logbook::{Gain, Offer, Plain, Play, Rule, Seen, Start, Word};

/// The rule of the history: its word is its length.
pub struct HistoryRule;

impl<C> Rule<C, u64> for HistoryRule {
    ghost use Rattle.std.specs.Prelude.{[]};
    ghost use base.Fml.{ftrue};
    ghost use Rattle.snapshot_reads.specs.History.{IsKept};

    ghost holds = { λ cells log. IsKept cells log };

    ghost first = { [] };

    ghost hinted = { λ n log. Unit {0} };

    ghost shows = { λ log. [] };

    ghost keeps = { λ names log. ftrue };

    ghost moves = { λ ask before after answer. Unit {0} };
}

/// What a caller trades in a step: nothing.
pub struct NoTrade;

impl<C> Gain<C, u64> for NoTrade {
    ghost use base.Fml.{ftrue};

    ghost after = { λ names about answer. ftrue };
}

/// A step that adds a change.
pub struct Add;

impl<C> Play<C, u64> for Add {
    ghost use Rattle.snapshot_reads.specs.History.{Adds};

    ghost then = { Adds };
}

/// What a step asks for: the change.
impl<C> Plain<C, C, u64> for Add {
    ghost use Rattle.std.specs.Prelude.{None};

    ghost ask = { λ change. change };

    ghost state = { λ change. None };
}

/// A history without changes, with its word.
pub(crate) fn begin<C>() -> (Word<C, u64, HistoryRule>, Seen<C, u64, HistoryRule>)
    ensures { (result.1.log ≡ []) × (result.0 ≡ head_of result.1.book) }
{
    let (seen, mut first, _second) = Seen::open(Start::alone(), 0, 0);
    (Word::tracked(0, &mut first), seen)
}

/// Adds a change to the history that was seen. If the history is longer it does not, and gives false; then nothing is known of
/// `seen` but its book.
pub(crate) fn extend<C>(
    head: &Word<C, u64, HistoryRule>,
    seen: &mut Seen<C, u64, HistoryRule>,
    count: u64,
    change: &C,
) -> bool
    requires head { head.now ≡ head_of seen.old.book }
    requires count { (count ≡ length seen.old.log) × (count < 2 ^ 63) }
    ensures book { seen.new.book ≡ seen.old.book }
    ensures added { result ≡ true → seen.new.log ≡ seen.old.log ++ change.now ∷ [] }
{
    let mut offer: Offer<C, u64, HistoryRule, NoTrade> = seen.plain::<NoTrade, C, Add>(change);
    let mut pen = seen.no_pen();
    let found = head.compare_exchange::<Add, NoTrade>(count, count + 1, seen, &mut offer, &mut pen);
    found == count
}

/// Of two beginnings of one history the shorter begins the longer. A law, for callers.
pub(crate) fn begins<C>(first: &Seen<C, u64, HistoryRule>, second: &Seen<C, u64, HistoryRule>)
    requires book { second.now.book ≡ first.now.book }
    requires count { length first.now.log ≤ length second.now.log }
    ensures { IsPrefix first.now.log second.now.log }
{
    let mut both = first.again();
    both.learn(second);
}
