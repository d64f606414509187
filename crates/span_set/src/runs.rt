//! Runs of numbers, and a list of them as a set of numbers.

ghost use Rattle.std.specs.Prelude.{◌≡◌, ℕ, ◌+◌, ◌-◌, ◌^◌, ◌<◌, ◌≤◌, ◌↔◌, ◌⊎◌, ◌++◌, ◌∷◌, OnOk, OnErr, IsTrue, take, drop, length, vec_len, sum_by};
ghost use Rattle.std.specs.List.{AllByRecursion};
ghost use Rattle.std.specs.Option.{option_to_list};
ghost use Rattle.span_set.specs.Runs.{in_runs, IsBetween, AreApart, EndBelow, left_part, right_part, shared};

use std::alloc::AllocError;

/// The numbers from the first to the last, both among them.
#[derive(Clone, Copy, Debug)]
pub struct Run {
    pub first: u128,
    pub last: u128,
}

/// How many of the runs end more than the gap before the number: they come first.
fn ending_before(runs: &[Run], first: u128, gap: u128) -> usize
    requires { AreApart 0 runs.now }
    ensures bound { result ≤ length runs.now }
    ensures below { AllByRecursion (λ run. run.last + gap < first) (take result runs.now) }
    ensures others { AllByRecursion (λ run. first ≤ run.last + gap) (drop result runs.now) }
{
    let before = first.saturating_sub(gap);
    runs.partition_point(|run| run.last < before)
}

/// How many of the runs do not begin more than the gap after the number: they come first.
fn beginning_by(runs: &[Run], last: u128, gap: u128) -> usize
    requires { AreApart 0 runs.now }
    ensures bound { result ≤ length runs.now }
    ensures below { AllByRecursion (λ run. run.first ≤ last + gap) (take result runs.now) }
    ensures others { AllByRecursion (λ run. last + gap < run.first) (drop result runs.now) }
{
    runs.partition_point(|run| run.first.saturating_sub(gap) <= last)
}

/// Which runs the numbers from the first to the last meet, or come within the gap of: those from the first index up to
/// the second.
fn touched(runs: &[Run], first: u128, last: u128, gap: u128) -> (usize, usize)
    requires order { first ≤ last }
    requires apart { AreApart 0 runs.now }
    ensures order { result.0 ≤ result.1 }
    ensures bound { result.1 ≤ length runs.now }
    ensures before { AllByRecursion (λ run. run.last + gap < first) (take result.0 runs.now) }
    ensures reached { AllByRecursion (λ run. first ≤ run.last + gap) (drop result.0 runs.now) }
    ensures begun { AllByRecursion (λ run. run.first ≤ last + gap) (take result.1 runs.now) }
    ensures behind { AllByRecursion (λ run. last + gap < run.first) (drop result.1 runs.now) }
{
    let from = ending_before(runs, first, gap);
    let to = beginning_by(runs, last, gap);
    (from, to)
}

/// Takes the runs from one index up to another out.
fn cut(runs: &mut Vec<Run>, from: usize, to: usize)
    requires order { from ≤ to }
    requires bound { to ≤ vec_len runs.old }
    ensures { runs.new.items ≡ take from runs.old.items ++ drop to runs.old.items }
{
    if from < to {
        let len = runs.len();
        runs.copy_within(to..len, from);
        runs.truncate(len - (to - from));
    }
}

/// Puts one run in the place of those from one index up to another. After out of memory the list is as before.
fn put_over(runs: &mut Vec<Run>, from: usize, to: usize, run: Run) -> Result<(), AllocError>
    requires order { from ≤ to }
    requires bound { to ≤ vec_len runs.old }
    ensures ok { OnOk result (runs.new.items ≡ take from runs.old.items ++ run ∷ drop to runs.old.items) }
    ensures err { OnErr result (runs.new.items ≡ runs.old.items) }
{
    if from == to {
        runs.insert(from, run)?;
    } else {
        runs[from] = run;
        cut(runs, from + 1, to);
    }
    Ok(())
}

/// Puts what is left of some runs in their place. After out of memory the list is as before.
fn put_rests(
    runs: &mut Vec<Run>,
    from: usize,
    to: usize,
    left: Option<Run>,
    right: Option<Run>,
) -> Result<(), AllocError>
    requires order { from < to }
    requires bound { to ≤ vec_len runs.old }
    ensures ok { OnOk result (runs.new.items ≡ take from runs.old.items ++ (option_to_list left ++ (option_to_list right ++ drop to runs.old.items))) }
    ensures err { OnErr result (runs.new.items ≡ runs.old.items) }
{
    match (left, right) {
        (Some(left), Some(right)) => {
            put_over(runs, from + 1, to, right)?;
            runs[from] = left;
            Ok(())
        }
        (Some(rest), None) => put_over(runs, from, to, rest),
        (None, Some(rest)) => put_over(runs, from, to, rest),
        (None, None) => {
            cut(runs, from, to);
            Ok(())
        }
    }
}

/// Adds the numbers from the first to the last. After out of memory the list is as before.
pub fn add_run(runs: &mut Vec<Run>, first: u128, last: u128) -> Result<(), AllocError>
    requires order { first ≤ last }
    requires apart { AreApart 0 runs.old.items }
    ensures added { OnOk result ((a : ℕ) → IsTrue (in_runs runs.new.items a) ↔ (IsTrue (in_runs runs.old.items a) ⊎ IsBetween first last a)) }
    ensures apart { OnOk result (AreApart 0 runs.new.items) }
    ensures within { OnOk result ((limit : ℕ) → last < limit → EndBelow limit runs.old.items → EndBelow limit runs.new.items) }
    ensures err { OnErr result (runs.new.items ≡ runs.old.items) }
{
    let (from, to) = touched(runs, first, last, 1);
    if from == to {
        return put_over(runs, from, to, Run { first, last });
    }
    let joined = Run {
        first: first.min(runs[from].first),
        last: last.max(runs[to - 1].last),
    };
    put_over(runs, from, to, joined)
}

/// What a run has before the number.
fn left_of(run: Run, first: u128) -> Option<Run>
    ensures { option_to_list result ≡ left_part first run }
{
    if run.first < first {
        Some(Run {
            first: run.first,
            last: first - 1,
        })
    } else {
        None
    }
}

/// What a run has after the number.
fn right_of(run: Run, last: u128) -> Option<Run>
    ensures { option_to_list result ≡ right_part last run }
{
    if last < run.last {
        Some(Run {
            first: last + 1,
            last: run.last,
        })
    } else {
        None
    }
}

/// Takes the numbers from the first to the last away. After out of memory the list is as before.
pub fn subtract_run(runs: &mut Vec<Run>, first: u128, last: u128) -> Result<(), AllocError>
    requires order { first ≤ last }
    requires apart { AreApart 0 runs.old.items }
    ensures taken { OnOk result ((a : ℕ) → IsTrue (in_runs runs.new.items a) ↔ (IsTrue (in_runs runs.old.items a) × ¬ IsBetween first last a)) }
    ensures apart { OnOk result (AreApart 0 runs.new.items) }
    ensures within { OnOk result ((limit : ℕ) → EndBelow limit runs.old.items → EndBelow limit runs.new.items) }
    ensures err { OnErr result (runs.new.items ≡ runs.old.items) }
{
    let (from, to) = touched(runs, first, last, 0);
    if from == to {
        return Ok(());
    }
    let left = left_of(runs[from], first);
    let right = right_of(runs[to - 1], last);
    put_rests(runs, from, to, left, right)
}

/// How many of the numbers from the first to the last, fewer than two to the 128, the runs have.
pub fn count_between(runs: &[Run], first: u128, last: u128) -> u128
    requires order { first ≤ last }
    requires few { last - first + 1 < 2 ^ 128 }
    requires apart { AreApart 0 runs.now }
    ensures { result ≡ sum_by (shared first last) runs.now }
{
    let (from, to) = touched(runs, first, last, 0);
    let mut total = 0;
    'met: for run in &runs[from..to] {
        total += run.last.min(last) - run.first.max(first) + 1;
    }
    total
}
