//! The ranges of the register: a book of rows that also keeps their spans in order, and the rules that it answers of ranges.
#![tactic(auto)]

ghost use Rattle.std.specs.Prelude.{◌≡◌, ℕ, ◌+◌, ◌≤◌, ◌&&◌, [], Bool, Some, IfOk, IsSome, IsTrue, count_by};
ghost use Rattle.ipam_data.specs.RowList.{AllAre, IsApart, IsFitting, Rises, least_rival, row_at, with_row};
ghost use Rattle.ipam_data.specs.Rows.{range_id};
ghost use Rattle.ipam_data.specs.Ranges.{crosses, populated_at, range_fault, ShareAddress};
ghost use Rattle.ipam_data.specs.Lawful.{IsRange};
ghost use Rattle.ip_ranges.specs.declared.SpanKind.TheVariants.{All as EachOne, Utilized as UtilizedOnes, Populated as PopulatedOnes};
ghost use Rattle.ip_ranges.specs.declared.tracks.Entry.{Entry as SeenEntry};
ghost use Rattle.ipam_data.specs.declared.range.IpRange.{IpRange as SeenRange};
ghost use Rattle.ip_ranges.specs.Pieces.{ArePieces};
ghost use Rattle.ip_ranges.specs.Spans.{AreSpansOf, is_meant};
ghost use Rattle.ip_ranges.specs.Tracks.{entry_of, spot_of, passes, one, one_of, IsKept, IsTrackOf};

mod crossing;
mod pieces;
mod tracks;

use crate::crossing::{least_crossing, least_populated, own_fault};
use crate::pieces::pieces_of;
use crate::tracks::{Entry, Track, is_same, lane_of};
use inet_num::{Addr, Block, Family, Span};
use ipam_data::kinds::Table;
use ipam_data::range::IpRange;
use ipam_data::replies::Rule;
use placed_book::{Book, RowBook, in_order};
use std::alloc::{AllocError, Global};
use std::marker::Model;

/// Which ranges are meant: all, those that count as full, or those that somebody else fills.
#[derive(Clone, Copy, Debug)]
pub enum SpanKind {
    All,
    Utilized,
    Populated,
}

/// The entry of a range in a track.
fn entry(row: &IpRange) -> Entry
    ensures { result ≡ entry_of row.now }
{
    Entry {
        lane: lane_of(Table::of(row.vrf), row.ends.start().family()),
        span: Span {
            first: row.ends.start(),
            last: row.ends.end(),
        },
    }
}

/// The entry of a range of one address.
fn spot(table: Table, host: Addr) -> Entry
    ensures { result ≡ spot_of table host }
{
    Entry {
        lane: lane_of(table, host.family()),
        span: Span {
            first: host,
            last: host,
        },
    }
}

/// Takes the entry of the row of an id out of a track, if there is such a row and it is meant.
fn forget(rows: &RowBook<IpRange>, which: SpanKind, track: &mut Track, id: u32)
    requires { IsTrackOf which rows.now.rows track.old.entries }
    ensures counts { (p : SeenEntry → Bool) → count_by p track.new.entries + one_of (passes which p) (row_at range_id rows.now.rows id) ≡ count_by p track.old.entries }
    ensures spare { track.new.spare ≡ track.old.spare }
{
    match rows.get(id) {
        Some(row) => {
            if is_meant(which, row) {
                track.remove(entry(row));
            }
        }
        None => {}
    }
}

/// Whether the range is one of those that are meant.
fn is_meant(which: SpanKind, row: &IpRange) -> bool
    ensures { result ≡ is_meant which row.now }
{
    match which {
        SpanKind::All => true,
        SpanKind::Utilized => row.mark_utilized,
        SpanKind::Populated => row.mark_populated,
    }
}

/// Puts the entry of a row into a track, if it is meant.
fn note(which: SpanKind, track: &mut Track, row: &IpRange)
    requires { 1 ≤ track.old.spare }
    ensures counts { (p : SeenEntry → Bool) → count_by p track.new.entries ≡ count_by p track.old.entries + one (passes which p row.now) }
    ensures spare { track.old.spare ≤ track.new.spare + 1 }
{
    if is_meant(which, row) {
        track.insert(entry(row));
    }
}

/// Whether the row of the row's id exists, with its span, its table and its marks.
fn is_kept(rows: &RowBook<IpRange>, row: &IpRange) -> bool
    ensures { IsTrue result → IsKept rows.now.rows row.now }
{
    match rows.get(row.id) {
        Some(old) => is_same(&entry(old), &entry(row))
            && is_meant(SpanKind::Utilized, old) == is_meant(SpanKind::Utilized, row)
            && is_meant(SpanKind::Populated, old) == is_meant(SpanKind::Populated, row),
        None => false,
    }
}

/// Ranges in the order of their ids, each id once, with room for more, and their spans in address order: those of all, those of the
/// ranges that count as full, and those of the ranges that somebody else fills.
///
/// A contract sees the rows and the spare: how many more rows can be put without taking memory.
#[derive(Drop)]
pub struct RangeBook {
    alloc: Global,
    rows: RowBook<IpRange>,
    all: Track,
    utilized: Track,
    populated: Track,
    spare: u32,
}

impl Model for RangeBook {
    ghost use Rattle.std.specs.Prelude.{◌≤◌};
    ghost use Rattle.ipam_data.specs.declared.range.IpRange.{IpRange};
    ghost use Rattle.placed_book.specs.RowBook.{Book};
    ghost use Rattle.ip_ranges.specs.declared.SpanKind.TheVariants.{All as EachOne, Utilized as UtilizedOnes, Populated as PopulatedOnes};
    ghost use Rattle.ip_ranges.specs.Tracks.{IsTrackOf};

    ghost Value = { Book IpRange };

    ghost view = { λ b. record { rows = b.rows.rows; spare = b.spare } };

    ghost invariant = { λ b. (b.spare ≤ b.rows.spare) × (b.spare ≤ b.all.spare) × (b.spare ≤ b.utilized.spare) × (b.spare ≤ b.populated.spare) × IsTrackOf EachOne b.rows.rows b.all.entries × IsTrackOf UtilizedOnes b.rows.rows b.utilized.entries × IsTrackOf PopulatedOnes b.rows.rows b.populated.entries };
}

impl RangeBook {
    /// A book without rows and without room. It takes no memory, and keeps the allocator for what it hands out.
    pub fn new(alloc: Global) -> RangeBook
        ensures { result ≡ record { rows = []; spare = 0 } }
    {
        RangeBook {
            alloc,
            rows: RowBook::new(alloc),
            all: Track::new(alloc),
            utilized: Track::new(alloc),
            populated: Track::new(alloc),
            spare: 0,
        }
    }

    /// The rows in the order of their ids.
    pub fn rows(&self) -> &[IpRange]
        ensures rows { result.now ≡ self.now.rows }
        ensures ordered { Rises range_id 0 self.now.rows }
    {
        self.rows.rows()
    }

    /// The spans of a table's ranges of one family, in address order: of all, of those that count as full, or of those that somebody
    /// else fills. No two ranges of a table share an address. It takes no memory.
    pub fn spans(&self, table: Table, family: Family, which: SpanKind) -> &[Span]
        requires each { AllAre IsRange self.now.rows }
        requires apart { IsApart range_id ShareAddress self.now.rows }
        ensures { AreSpansOf self.now.rows table family which result.now }
    {
        in_order(&self.rows);
        let lane = lane_of(table, family);
        match which {
            SpanKind::All => self.all.lane(lane),
            SpanKind::Utilized => self.utilized.lane(lane),
            SpanKind::Populated => self.populated.lane(lane),
        }
    }

    /// A range as blocks, in address order: the fewest that have just its addresses. The range of the id exists. `Err` means out
    /// of memory.
    pub fn pieces(&self, id: u32) -> Result<Vec<Block>, AllocError>
        requires there { IsSome (row_at range_id self.now.rows id) }
        requires each { AllAre IsRange self.now.rows }
        ensures { IfOk result (λ v. (row : SeenRange) → row_at range_id self.now.rows id ≡ Some row → ArePieces row v.items) }
    {
        match self.rows.get(id) {
            Some(row) => pieces_of(self.alloc, row),
            None => unreachable!(),
        }
    }

    /// The first rule past the rows that it names that a range breaks given the rows of other ids: `RangeFamily`, `ZeroMask`,
    /// `RangeOrder`, `RangeSize`, or `RangeOverlap` with the least id of one of its table with which it shares an address. It takes no
    /// memory. That none crosses it is found by halving, as long as no two of a table do; else it looks at all rows.
    #[tactic(auto, unfolding(ipam_data::specs::Ranges::range_fault))]
    pub fn fault(&self, row: &IpRange) -> Option<Rule>
        ensures { result ≡ range_fault self.now.rows row.now }
    {
        if let Some(rule) = own_fault(row) {
            return Some(rule);
        }
        match self.rival(row) {
            Some(id) => Some(Rule::RangeOverlap(id)),
            None => None,
        }
    }

    /// The least id of a range of a table that somebody else fills and that has the address. It takes no memory. That none has it is
    /// found by halving, as long as no two of them share an address; else it looks at all rows.
    #[tactic(auto, unfolding(ipam_data::specs::Ranges::populated_at))]
    pub fn populated(&self, table: Table, host: Addr) -> Option<u32>
        ensures { result ≡ populated_at self.now.rows table host }
    {
        if self.populated.may_meet(&spot(table, host)) {
            return least_populated(self.rows.rows(), table, host);
        }
        None
    }

    /// The least id of another range that crosses this one.
    fn rival(&self, row: &IpRange) -> Option<u32>
        ensures { result ≡ least_rival range_id crosses self.now.rows row.now }
    {
        if self.all.may_meet(&entry(row)) {
            return least_crossing(self.rows.rows(), row);
        }
        None
    }

    /// Puts a row if its span, its table and its marks stay: the tracks stay as they are.
    fn put_in_place(&mut self, row: IpRange)
        requires room { 1 ≤ self.old.spare }
        requires id { 1 ≤ row.id }
        requires fits { IsFitting range_id self.old.rows row }
        requires kept { IsKept self.old.rows row }
        ensures rows { self.new.rows ≡ with_row range_id self.old.rows row }
        ensures spare { self.old.spare ≤ self.new.spare + 1 }
    {
        self.rows.put(row);
        self.spare -= 1;
    }

    /// Puts a row, and takes its span out of where it was.
    fn put_anew(&mut self, row: IpRange)
        requires room { 1 ≤ self.old.spare }
        requires id { 1 ≤ row.id }
        requires fits { IsFitting range_id self.old.rows row }
        ensures rows { self.new.rows ≡ with_row range_id self.old.rows row }
        ensures spare { self.old.spare ≤ self.new.spare + 1 }
    {
        in_order(&self.rows);
        forget(&self.rows, SpanKind::All, &mut self.all, row.id);
        forget(&self.rows, SpanKind::Utilized, &mut self.utilized, row.id);
        forget(&self.rows, SpanKind::Populated, &mut self.populated, row.id);
        note(SpanKind::All, &mut self.all, &row);
        note(SpanKind::Utilized, &mut self.utilized, &row);
        note(SpanKind::Populated, &mut self.populated, &row);
        self.rows.put(row);
        self.spare -= 1;
    }
}

/// The rows are side by side, and what changes them changes the tracks of their spans.
impl Book for RangeBook {
    type Item = IpRange;

    ghost rows = { λ b. b.rows };

    ghost spare = { λ b. b.spare };

    fn len(&self) -> u32 {
        self.rows.len()
    }

    fn at(&self, index: u32) -> Option<&IpRange> {
        self.rows.at(index)
    }

    fn get(&self, id: u32) -> Option<&IpRange> {
        self.rows.get(id)
    }

    fn after(&self, id: u32) -> Option<&IpRange> {
        self.rows.after(id)
    }

    fn reserve(&mut self, n: u32) -> Result<(), AllocError> {
        self.rows.reserve(n)?;
        self.all.reserve(n)?;
        self.utilized.reserve(n)?;
        self.populated.reserve(n)?;
        if self.spare < n {
            self.spare = n;
        }
        Ok(())
    }

    fn put(&mut self, row: IpRange) {
        if is_kept(&self.rows, &row) {
            self.put_in_place(row);
        } else {
            self.put_anew(row);
        }
    }

    fn cut(&mut self, id: u32) -> Option<IpRange> {
        in_order(&self.rows);
        forget(&self.rows, SpanKind::All, &mut self.all, id);
        forget(&self.rows, SpanKind::Utilized, &mut self.utilized, id);
        forget(&self.rows, SpanKind::Populated, &mut self.populated, id);
        self.rows.cut(id)
    }
}
