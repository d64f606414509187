//! The spans of ranges in order, each in the lane of its table and family.

ghost use Rattle.std.specs.Prelude.{◌≡◌, ℕ, ◌+◌, ◌^◌, ◌<◌, ◌≤◌, [], Bool, IsTrue, IsFalse, IfSome, IfNone, OnOk, OnErr, length, slice_index_or, count_by, nat_lt, insert, vec_len, vec_capacity};
ghost use Rattle.std.specs.List.Sorted.{IsNonDecreasingBy};
ghost use Rattle.ip_ranges.specs.declared.tracks.Entry.{Entry as SeenEntry};
ghost use Rattle.ip_ranges.specs.Tracks.{lane_of, number, low, high, is_met, is_same, lane_spans, AreSeparate, FitsAt, BeginBefore, EndBefore, one};

use inet_num::{Family, Span, is_one_address};
use ipam_data::kinds::Table;
use std::alloc::{AllocError, Global};
use std::marker::Model;

/// The number of the lane of a table and a family, which no other has.
pub fn lane_of(table: Table, family: Family) -> u64
    ensures lane { result ≡ lane_of table family }
    ensures bound { result < 2 ^ 63 }
{
    match (table, family) {
        (Table::Global, Family::V4) => 0,
        (Table::Global, Family::V6) => 1,
        (Table::Of(id), Family::V4) => 2 * (id as u64 + 1),
        (Table::Of(id), Family::V6) => 2 * (id as u64 + 1) + 1,
    }
}

/// The span of a range, in the lane of its table and family.
#[derive(Clone, Copy)]
pub struct Entry {
    pub lane: u64,
    pub span: Span,
}

/// An address in a lane, by its number.
#[derive(Clone, Copy)]
struct Place {
    lane: u64,
    value: u128,
}

/// Where an entry begins.
fn low(entry: &Entry) -> Place
    ensures lane { result.lane ≡ entry.now.lane }
    ensures value { result.value ≡ entry.now.span.first.value }
    ensures bound { result.value < 2 ^ 128 }
{
    Place {
        lane: entry.lane,
        value: entry.span.first.value(),
    }
}

/// Where it ends.
fn high(entry: &Entry) -> Place
    ensures lane { result.lane ≡ entry.now.lane }
    ensures value { result.value ≡ entry.now.span.last.value }
{
    Place {
        lane: entry.lane,
        value: entry.span.last.value(),
    }
}

/// Whether one place is before another.
fn is_before(a: Place, b: Place) -> bool
    ensures { result ≡ nat_lt (number a.lane a.value) (number b.lane b.value) }
{
    a.lane < b.lane || (a.lane == b.lane && a.value < b.value)
}

/// Whether the two are one.
pub fn is_same(a: &Entry, b: &Entry) -> bool
    ensures { result ≡ is_same a.now b.now }
{
    a.lane == b.lane
        && is_one_address(a.span.first, b.span.first)
        && is_one_address(a.span.last, b.span.last)
}

/// How many entries begin before the place: they come first.
fn beginning_before(entries: &[Entry], place: Place) -> usize
    requires { IsNonDecreasingBy low entries.now }
    ensures point { BeginBefore (number place.lane place.value) entries.now result }
    ensures bound { result ≤ length entries.now }
{
    entries.partition_point(|entry| is_before(low(entry), place))
}

/// How many entries end before the place: they come first.
fn ending_before(entries: &[Entry], place: Place) -> usize
    requires { AreSeparate 0 entries.now }
    ensures point { EndBefore (number place.lane place.value) entries.now result }
    ensures bound { result ≤ length entries.now }
{
    entries.partition_point(|entry| is_before(high(entry), place))
}

/// Between which indexes the entries of a lane are.
fn lane_bounds(entries: &[Entry], lane: u64) -> (usize, usize)
    requires rises { IsNonDecreasingBy low entries.now }
    requires few { lane < 2 ^ 63 }
    ensures order { result.0 ≤ result.1 }
    ensures bound { result.1 ≤ length entries.now }
    ensures from { BeginBefore (number lane 0) entries.now result.0 }
    ensures to { BeginBefore (number (lane + 1) 0) entries.now result.1 }
{
    let from = beginning_before(entries, Place { lane, value: 0 });
    let next = Place {
        lane: lane + 1,
        value: 0,
    };
    let to = beginning_before(entries, next);
    (from, to)
}

/// The index of an entry.
fn index_of(entries: &[Entry], entry: &Entry) -> Option<usize>
    requires { IsNonDecreasingBy low entries.now }
    ensures at { IfSome result (λ k. (k < length entries.now) × ((d : SeenEntry) → slice_index_or entries.now k d ≡ entry.now)) }
    ensures none { IfNone result (count_by (is_same entry.now) entries.now ≡ 0) }
{
    let from = beginning_before(entries, low(entry));
    'scan: for at in from..entries.len() {
        if is_same(entry, &entries[at]) {
            return Some(at);
        }
    }
    None
}

/// Whether entries that are separate, if it is so, stay so when one is put in at an index.
fn stay_separate(separate: bool, entries: &[Entry], at: usize, entry: &Entry) -> bool
    requires { at ≤ length entries.now }
    ensures { IsTrue result → IsTrue separate × FitsAt entries.now at entry.now }
{
    if !separate {
        return false;
    }
    if is_before(high(entry), low(entry)) {
        return false;
    }
    if at > 0 && !is_before(high(&entries[at - 1]), low(entry)) {
        return false;
    }
    if at < entries.len() && !is_before(high(entry), low(&entries[at])) {
        return false;
    }
    true
}

/// Puts an item in at an index, into room that was reserved.
fn put_in<T: Copy>(items: &mut Vec<T>, at: usize, item: T)
    requires bound { at ≤ vec_len items.old }
    requires room { vec_len items.old < vec_capacity items.old }
    ensures items { items.new.items ≡ insert items.old.items at item }
    ensures len { vec_len items.new ≡ vec_len items.old + 1 }
    ensures capacity { vec_capacity items.old ≤ vec_capacity items.new }
{
    match items.insert(at, item) {
        Ok(()) => {}
        Err(_) => unreachable!(),
    }
}

/// Spans in the order of their lanes and first addresses, with room for more. It also keeps whether they are known to be separate, so
/// that what meets a span is found by halving. A contract sees the entries and the spare.
#[derive(Drop)]
pub struct Track {
    entries: Vec<Entry>,
    spans: Vec<Span>,
    separate: bool,
    spare: u32,
}

impl Model for Track {
    ghost use Rattle.std.specs.Prelude.{◌≡◌, ◌+◌, ◌≤◌, true, map, count_by, vec_len, vec_capacity};
    ghost use Rattle.std.specs.List.Sorted.{IsNonDecreasingBy};
    ghost use Rattle.ip_ranges.specs.Tracks.{Listed, low, is_wild, AreSeparate};

    ghost Value = { Listed };

    ghost view = { λ t. record { entries = t.entries.items; spare = t.spare } };

    ghost invariant = { λ t. IsNonDecreasingBy low t.entries.items × (t.spans.items ≡ map (λ e. e.span) t.entries.items) × (t.separate ≡ true → AreSeparate 0 t.entries.items) × (count_by is_wild t.entries.items ≡ 0) × (vec_len t.spans ≡ vec_len t.entries) × (vec_len t.entries + t.spare ≤ vec_capacity t.entries) × (vec_len t.spans + t.spare ≤ vec_capacity t.spans) };
}

impl Track {
    /// A track without entries and without room. It takes no memory.
    pub fn new(alloc: Global) -> Track
        ensures { result ≡ record { entries = []; spare = 0 } }
    {
        Track {
            entries: Vec::new(alloc),
            spans: Vec::new(alloc),
            separate: true,
            spare: 0,
        }
    }

    /// Makes room for `n` more entries. `Err` means out of memory, and does not change the track.
    pub fn reserve(&mut self, n: u32) -> Result<(), AllocError>
        ensures entries { self.new.entries ≡ self.old.entries }
        ensures ok { OnOk result (n ≤ self.new.spare) }
        ensures kept { self.old.spare ≤ self.new.spare }
        ensures err { OnErr result (self.new ≡ self.old) }
    {
        self.entries.reserve(n as usize)?;
        self.spans.reserve(n as usize)?;
        if self.spare < n {
            self.spare = n;
        }
        Ok(())
    }

    /// Puts an entry in its place. It takes no memory, and uses up the room of one.
    pub fn insert(&mut self, entry: Entry)
        requires room { 1 ≤ self.old.spare }
        ensures counts { (p : SeenEntry → Bool) → count_by p self.new.entries ≡ count_by p self.old.entries + one (p entry) }
        ensures spare { self.new.spare + 1 ≡ self.old.spare }
    {
        let at = beginning_before(self.entries.as_slice(), low(&entry));
        let separate = stay_separate(self.separate, self.entries.as_slice(), at, &entry);
        self.separate = separate;
        put_in(&mut self.entries, at, entry);
        put_in(&mut self.spans, at, entry.span);
        self.spare -= 1;
    }

    /// Takes an entry out that exists, once. It leaves the room.
    pub fn remove(&mut self, entry: Entry)
        requires there { 1 ≤ count_by (is_same entry) self.old.entries }
        ensures counts { (p : SeenEntry → Bool) → count_by p self.new.entries + one (p entry) ≡ count_by p self.old.entries }
        ensures spare { self.new.spare ≡ self.old.spare }
    {
        match index_of(self.entries.as_slice(), &entry) {
            Some(at) => {
                self.entries.remove(at);
                self.spans.remove(at);
            }
            None => unreachable!(),
        }
    }

    /// The spans of a lane, in the order of their first addresses.
    pub fn lane(&self, lane: u64) -> &[Span]
        requires { lane < 2 ^ 63 }
        ensures spans { result.now ≡ lane_spans lane self.now.entries }
        ensures rises { IsNonDecreasingBy (λ s. s.first.value) result.now }
    {
        let (from, to) = lane_bounds(self.entries.as_slice(), lane);
        &self.spans[from..to]
    }

    /// Whether an entry of the lane of this one may share an address with it. If all are known to be separate it is asked by
    /// halving.
    pub fn may_meet(&self, entry: &Entry) -> bool
        ensures { IsFalse result → count_by (is_met entry.now) self.now.entries ≡ 0 }
    {
        if !self.separate {
            return true;
        }
        let from = ending_before(self.entries.as_slice(), low(entry));
        from < self.entries.len() && !is_before(high(entry), low(&self.entries[from]))
    }
}
