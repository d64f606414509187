//! Sets of addresses of one family as spans: addresses are added and taken away, counted within a block, and given as the
//! fewest aligned blocks.
#![tactic(auto)]

ghost use Rattle.std.specs.Prelude.{◌≡◌, ℕ, ◌<◌, ◌≤◌, ◌↔◌, ◌⊎◌, [], OnOk, OnErr, IfOk, IfSome, IsTrue};
ghost use Rattle.std.specs.List.{AllByRecursion};
ghost use Rattle.inet_num.specs.Net.{IsBlock, first_of, last_of};
ghost use Rattle.inet_num.specs.Count.{count_of};
ghost use Rattle.inet_num.specs.Free.{is_taken};
ghost use Rattle.span_set.specs.Runs.{IsBetween};
ghost use Rattle.span_set.specs.Spans.{IsSpans, is_in, IsIn};
ghost use Rattle.span_set.specs.Blocks.{ListsLargest, NoneIsShorter, FewestAreAvailable};

mod blocks;
mod runs;

use blocks::push_blocks;
use inet_num::{Block, Family, Span};
pub use runs::{Run, count_between};
use runs::{add_run, subtract_run};
use std::alloc::{AllocError, Global};
use std::marker::Model;

/// A set of addresses of one family. It keeps the runs of their numbers in order, with at least one number that is not in
/// the set between two of them, so a change at the end of the set touches only its last run.
#[derive(Drop)]
pub struct SpanSet {
    alloc: Global,
    family: Family,
    runs: Vec<Run>,
}

impl Model for SpanSet {
    ghost use Rattle.span_set.specs.Spans.{Spans, IsSpans};

    ghost Value = { Spans };

    ghost view = { λ s. record { family = s.family; runs = s.runs.items } };

    ghost invariant = { λ s. IsSpans (record { family = s.family; runs = s.runs.items }) };
}

impl SpanSet {
    /// The empty set of this family's addresses. It takes no memory; the set keeps the allocator for what is added.
    pub fn new(alloc: Global, family: Family) -> SpanSet
        ensures { result ≡ record { family = family; runs = [] } }
    {
        SpanSet {
            alloc,
            family,
            runs: Vec::new(alloc),
        }
    }

    /// The family of the set's addresses.
    pub fn family(&self) -> Family
        ensures family { result ≡ self.now.family }
        ensures lawful { IsSpans self.now }
    {
        self.family
    }

    /// The runs of the set's numbers, in order: between two of them at least one number is left out.
    pub fn runs(&self) -> &[Run]
        ensures { result.now ≡ self.now.runs }
    {
        self.runs.as_slice()
    }

    /// Adds the addresses of a span of the set's family, whose first is not above its last: the set then has an address
    /// exactly if it had it or the span has it. The one error means out of memory, and the set is then as before.
    pub fn add(&mut self, span: Span) -> Result<(), AllocError>
        requires first_family { span.first.family ≡ self.old.family }
        requires last_family { span.last.family ≡ self.old.family }
        requires order { span.first.value ≤ span.last.value }
        ensures family { self.new.family ≡ self.old.family }
        ensures added { OnOk result ((a : ℕ) → IsIn self.new a ↔ (IsIn self.old a ⊎ IsBetween span.first.value span.last.value a)) }
        ensures unchanged { OnErr result (self.new ≡ self.old) }
    {
        add_run(&mut self.runs, span.first.value(), span.last.value())
    }

    /// Takes the addresses of a span of the set's family, whose first is not above its last, away: the set then has an
    /// address exactly if it had it and the span does not have it. The one error means out of memory (a run falls into
    /// two), and the set is then as before.
    pub fn subtract(&mut self, span: Span) -> Result<(), AllocError>
        requires first_family { span.first.family ≡ self.old.family }
        requires last_family { span.last.family ≡ self.old.family }
        requires order { span.first.value ≤ span.last.value }
        ensures family { self.new.family ≡ self.old.family }
        ensures taken { OnOk result ((a : ℕ) → IsIn self.new a ↔ (IsIn self.old a × ¬ IsBetween span.first.value span.last.value a)) }
        ensures unchanged { OnErr result (self.new ≡ self.old) }
    {
        subtract_run(&mut self.runs, span.first.value(), span.last.value())
    }

    /// How many addresses of the block are in the set. The block is one of the set's family, and has a length of at least
    /// 1, since no integer counts all addresses of IPv6. It takes no memory.
    pub fn count(&self, within: Block) -> u128
        requires family { within.family ≡ self.now.family }
        requires long { 1 ≤ within.len }
        ensures { result ≡ count_of (is_in self.now) within }
    {
        count_between(&self.runs, within.first().value(), within.last().value())
    }

    /// The fewest aligned blocks that have just the set's addresses, in address order: no list of blocks with these addresses
    /// is shorter. The one error means out of memory.
    pub fn blocks(&self) -> Result<Vec<Block>, AllocError>
        ensures fewest { IfOk result (λ v. ListsLargest self.now.family (IsIn self.now) v.items) }
        ensures shortest { IfOk result (λ v. NoneIsShorter self.now.family (IsIn self.now) v.items) }
        ensures members { IfOk result (λ v. (a : ℕ) → IsIn self.now a ↔ IsTrue (is_taken v.items a)) }
        ensures lawful { IfOk result (λ v. AllByRecursion IsBlock v.items) }
        ensures family { IfOk result (λ v. AllByRecursion (λ b. b.family ≡ self.now.family) v.items) }
    {
        let mut out = Vec::new(self.alloc);
        'runs: for run in &self.runs {
            push_blocks(self.family, run.first, run.last, &mut out)?;
        }
        Ok(out)
    }
}

/// A law: if a set has just the addresses of a block that a list of blocks does not take, the fewest blocks of the set
/// are the block's available ones given that list.
pub fn fewest_are_available()
    ensures { FewestAreAvailable }
{}

/// The span of a block's addresses.
pub fn span_of(block: &Block) -> Span
    ensures first { result.first ≡ first_of block.now }
    ensures last { result.last ≡ last_of block.now }
    ensures order { result.first.value ≤ result.last.value }
{
    Span {
        first: block.first(),
        last: block.last(),
    }
}
