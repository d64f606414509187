//! The calls, planned once for all kinds.

ghost use Rattle.std.specs.Prelude.{◌≡◌, ℕ, ◌<◌, ◌+◌, ◌^◌, ◌++◌, ◌∷◌, ◌&&◌, [], None, Some, IsSome, IfOk, OnOk, count_by, length, slice_get};
ghost use Rattle.ipam_data.specs.declared.replies.Reply.TheVariants.{Made as MadeReply, Changed as ChangedReply, Gone as GoneReply, One as OneReply};
ghost use Rattle.ipam_data.specs.Checks.{first, no_room, no_log};
ghost use Rattle.ipam_data.specs.Lawful.{IsLawful};
ghost use Rattle.ipam_data.specs.RowList.{row_at};
ghost use Rattle.ipam_data.specs.State.{verdict_of};
ghost use Rattle.ipam_data.specs.Plans.{create, replace, delete, get, list};
ghost use Rattle.register_tables.specs.Held.{state_of};
ghost use Rattle.register_tables.specs.Planned.{IsPlanned};
ghost use Rattle.ipam_data.specs.Pages.{is_paged, one_if, only_if, page_of};
ghost use Rattle.register_plans.specs.Pages.{one_of, only_of};
ghost use Rattle.register_plans.specs.Answered.{page_reply};
ghost use Rattle.register_plans.specs.Candidates.{AreCandidates};
ghost use Rattle.register_plans.specs.Broken.{first_broken, own_row};

use crate::listed::{Listed, RowsOf};
use crate::registered::Registered;
use ipam_data::calls::Filter;
use ipam_data::kinds::{Kind, LAST_ID, MOST_SPENT};
use ipam_data::listing::is_on_page;
use ipam_data::replies::{Refusal, Reply, Rule, View, Views, Which};
use ipam_data::update::{Ids, Update};
use register_tables::{Planned, RowTables};
use std::alloc::{AllocError, Global};

/// Why a kind takes no further row, if so: it would have more than `most`, or no id is left.
pub fn no_room_for_one(kind: Kind, most: u32, count: u32, next: u32) -> Option<Refusal>
    ensures { result ≡ first (no_room kind most count next 1) }
{
    if count >= most {
        return Some(Refusal::Limit(Which::Kind(kind), u64::from(most)));
    }
    if next > LAST_ID {
        return Some(Refusal::Limit(Which::Ids, u64::from(LAST_ID)));
    }
    None
}

/// Why no further log item may be spent, if so.
fn no_log_for_one(spent: u32) -> Option<Refusal>
    ensures { result ≡ no_log spent 1 }
{
    if spent >= MOST_SPENT {
        return Some(Refusal::Limit(Which::Log, u64::from(MOST_SPENT)));
    }
    None
}

/// The first rule that a row breaks as a new one, the rows that it names first.
pub fn broken<T: Registered>(row_tables: &RowTables, row: &T) -> Option<Rule>
    ensures { result ≡ first_broken T.rules (state_of row_tables.now) None row.now }
{
    match row.missing(row_tables) {
        Some(rule) => Some(rule),
        None => row.fault_new(row_tables),
    }
}

/// The first rule that a row breaks in the place of the one of its id, the rows that it names first.
fn broken_changed<T: Registered>(row_tables: &RowTables, row: &T) -> Option<Rule>
    ensures { result ≡ first_broken T.rules (state_of row_tables.now) (own_row T.rules (state_of row_tables.now) row.now) row.now }
{
    match row.missing(row_tables) {
        Some(rule) => Some(rule),
        None => row.fault_changed(row_tables),
    }
}

/// Why the row can't be made, if so.
fn check_new<T: Registered>(row_tables: &RowTables, row: &T) -> Option<Refusal>
    ensures { result ≡ verdict_of (create T.rules (state_of row_tables.now) [] row.now) }
{
    if let Some(rule) = broken(row_tables, row) {
        return Some(Refusal::Rule(rule));
    }
    if let Some(refusal) = no_room_for_one(
        T::kind(),
        T::most(),
        T::count(row_tables),
        T::next(row_tables),
    ) {
        return Some(refusal);
    }
    no_log_for_one(row_tables.spent())
}

/// Why the row can't be in the place of the one of its id, if so.
fn check_changed<T: Registered>(row_tables: &RowTables, row: &T) -> Option<Refusal>
    ensures { (old : T) → own_row T.rules (state_of row_tables.now) row.now ≡ Some old → result ≡ verdict_of (replace T.rules (state_of row_tables.now) old [] row.now) }
{
    if let Some(rule) = broken_changed(row_tables, row) {
        return Some(Refusal::Rule(rule));
    }
    no_log_for_one(row_tables.spent())
}

/// One row more, and the next id of its kind after it; the other row is the same one, for the answer.
fn made(alloc: Global, row: View, copy: View, kind: Kind, next: u32) -> Result<Planned, AllocError>
    ensures { IfOk result (λ p. p ≡ Planned.Change (record { puts = row ∷ []; cuts = []; next = (kind, next) ∷ []; spent = 1 }) (MadeReply copy)) }
{
    let mut puts = Vec::new(alloc);
    puts.push(row)?;
    let mut nexts = Vec::new(alloc);
    nexts.push((kind, next))?;
    Ok(Planned::Change(
        Update {
            puts: Views::of(puts),
            cuts: Ids::of(Vec::new(alloc)),
            next: Ids::of(nexts),
            spent: 1,
        },
        Reply::Made(copy),
    ))
}

/// A row in the place of the one of its id; the other row is the same one, for the answer.
fn replaced(alloc: Global, row: View, copy: View) -> Result<Planned, AllocError>
    ensures { IfOk result (λ p. p ≡ Planned.Change (record { puts = row ∷ []; cuts = []; next = []; spent = 1 }) (ChangedReply copy)) }
{
    let mut puts = Vec::new(alloc);
    puts.push(row)?;
    Ok(Planned::Change(
        Update {
            puts: Views::of(puts),
            cuts: Ids::of(Vec::new(alloc)),
            next: Ids::of(Vec::new(alloc)),
            spent: 1,
        },
        Reply::Changed(copy),
    ))
}

/// A row less, and these rows put again.
fn taken_out(alloc: Global, puts: Vec<View>, kind: Kind, id: u32) -> Result<Planned, AllocError>
    ensures { IfOk result (λ p. p ≡ Planned.Change (record { puts = puts.items; cuts = (kind, id) ∷ []; next = []; spent = 1 }) GoneReply) }
{
    let mut cuts = Vec::new(alloc);
    cuts.push((kind, id))?;
    Ok(Planned::Change(
        Update {
            puts: Views::of(puts),
            cuts: Ids::of(cuts),
            next: Ids::of(Vec::new(alloc)),
            spent: 1,
        },
        Reply::Gone,
    ))
}

/// Plans a row more. `Err` means out of memory.
pub fn plan_create<T: Registered + Drop>(
    row_tables: &RowTables,
    row: T,
) -> Result<Planned, AllocError>
    ensures { IfOk result (λ p. IsPlanned (create T.rules (state_of row_tables.now) [] row) p) }
{
    match check_new(row_tables, &row) {
        Some(refusal) => return Ok(Planned::Refused(refusal)),
        None => {}
    }
    let next = T::next(row_tables) + 1;
    let copy = row.copied()?;
    made(
        row_tables.allocator(),
        row.into_view(),
        copy.into_view(),
        T::kind(),
        next,
    )
}

/// Plans a changed row in the place of the one of its id, which exists. `Err` means out of memory.
pub fn plan_replace<T: Registered + Drop>(
    row_tables: &RowTables,
    row: T,
) -> Result<Planned, AllocError>
    ensures { IfOk result (λ p. (old : T) → own_row T.rules (state_of row_tables.now) row ≡ Some old → IsPlanned (replace T.rules (state_of row_tables.now) old [] row) p) }
{
    match check_changed(row_tables, &row) {
        Some(refusal) => return Ok(Planned::Refused(refusal)),
        None => {}
    }
    let copy = row.copied()?;
    replaced(row_tables.allocator(), row.into_view(), copy.into_view())
}

/// Plans that the row of an id is taken out. `Err` means out of memory.
pub fn plan_delete<T: Registered>(row_tables: &RowTables, id: u32) -> Result<Planned, AllocError>
    ensures { IfOk result (λ p. IsPlanned (delete T.rules (state_of row_tables.now) id) p) }
{
    match T::found(row_tables, id) {
        Some(_) => {}
        None => return Ok(Planned::Refused(Refusal::NotFound(T::kind(), id))),
    }
    match T::user(row_tables, id) {
        Some(refusal) => return Ok(Planned::Refused(refusal)),
        None => {}
    }
    match no_log_for_one(row_tables.spent()) {
        Some(refusal) => return Ok(Planned::Refused(refusal)),
        None => {}
    }
    let again = T::forgetting(row_tables, id)?;
    taken_out(row_tables.allocator(), again, T::kind(), id)
}

/// The answer that shows a row. `Err` means out of memory.
pub(crate) fn shown<T: Listed>(row: &T) -> Result<Reply, AllocError>
    ensures { IfOk result (λ r. r ≡ OneReply (T.rules.view row.now)) }
{
    let copy = row.copied()?;
    Ok(Reply::One(copy.into_view()))
}

/// Reads the row of an id. `Err` means out of memory.
pub fn plan_get<T: Registered>(row_tables: &RowTables, id: u32) -> Result<Planned, AllocError>
    ensures { IfOk result (λ p. IsPlanned (get T.rules (state_of row_tables.now) id) p) }
{
    match T::found(row_tables, id) {
        Some(row) => {
            let reply = shown(row)?;
            Ok(Planned::Read(reply))
        }
        None => Ok(Planned::Refused(Refusal::NotFound(T::kind(), id))),
    }
}

/// The row at an index that exists.
pub(crate) fn row_at_index<T: Listed, R: RowsOf<T>>(among: &R, index: u32) -> &T
    requires { index < length (R.rows among.now) }
    ensures { Some result.now ≡ slice_get (R.rows among.now) index }
{
    match among.nth(index) {
        Some(row) => row,
        None => unreachable!(),
    }
}

/// Adds a row to a page if it meets the filter and is on the page, and gives how many meet it now. `Err` means out of
/// memory.
fn take_in<T: Listed>(
    row: &T,
    filter: &Filter,
    met: u32,
    limit: u32,
    offset: u32,
    views: &mut Vec<View>,
) -> Result<u32, AllocError>
    requires few { met < 2 ^ 30 }
    ensures met { IfOk result (λ n. n ≡ met + one_if (T.meets filter.now row.now)) }
    ensures views { OnOk result (views.new.items ≡ views.old.items ++ only_if (T.meets filter.now row.now && is_paged met limit offset) (T.rules.view row.now)) }
{
    if !row.is_met(filter) {
        return Ok(met);
    }
    if !is_on_page(met, limit, offset) {
        return Ok(met + 1);
    }
    let copy = row.copied()?;
    views.push(copy.into_view())?;
    Ok(met + 1)
}

/// Adds the row of an id, if there is one, as `take_in` does.
fn take_by_id<T: Listed, R: RowsOf<T>>(
    among: &R,
    id: u32,
    filter: &Filter,
    met: u32,
    limit: u32,
    offset: u32,
    views: &mut Vec<View>,
) -> Result<u32, AllocError>
    requires few { met < 2 ^ 30 }
    ensures met { IfOk result (λ n. n ≡ met + one_of (T.meets filter.now) (row_at T.rules.id (R.rows among.now) id)) }
    ensures views { OnOk result (views.new.items ≡ views.old.items ++ only_of T.rules.view (T.meets filter.now) met limit offset (row_at T.rules.id (R.rows among.now) id)) }
{
    match among.found(id) {
        Some(row) => take_in(row, filter, met, limit, offset, views),
        None => Ok(met),
    }
}

/// Adds the rows of a page, if all rows are looked at, and gives how many meet the filter. `Err` means out of memory.
pub(crate) fn take_all<T: Listed, R: RowsOf<T>>(
    among: &R,
    filter: &Filter,
    limit: u32,
    offset: u32,
    views: &mut Vec<View>,
) -> Result<u32, AllocError>
    requires { views.old.items ≡ [] }
    ensures met { IfOk result (λ n. n ≡ count_by (T.meets filter.now) (R.rows among.now)) }
    ensures views { OnOk result (views.new.items ≡ page_of T.rules.view (T.meets filter.now) limit offset (R.rows among.now)) }
{
    let mut met: u32 = 0;
    let count = among.count();
    'rows: for index in 0..count {
        let row: &T = row_at_index(among, index);
        met = take_in(row, filter, met, limit, offset, views)?;
    }
    Ok(met)
}

/// The same if the rows of some ids are looked at, among which each is that meets the filter.
fn take_found<T: Listed, R: RowsOf<T>>(
    among: &R,
    ids: &[u32],
    filter: &Filter,
    limit: u32,
    offset: u32,
    views: &mut Vec<View>,
) -> Result<u32, AllocError>
    requires none { views.old.items ≡ [] }
    requires ids { AreCandidates T.rules.id (T.meets filter.now) (R.rows among.now) ids.now }
    ensures met { IfOk result (λ n. n ≡ count_by (T.meets filter.now) (R.rows among.now)) }
    ensures views { OnOk result (views.new.items ≡ page_of T.rules.view (T.meets filter.now) limit offset (R.rows among.now)) }
{
    let mut met: u32 = 0;
    let _count = among.count();
    'found: for id in ids {
        met = take_by_id::<T, R>(among, *id, filter, met, limit, offset, views)?;
    }
    Ok(met)
}

/// The page of the rows that meet the filter, past the first `offset`, at most `limit`, and how many meet it. All rows are looked
/// at. `Err` means out of memory.
pub(crate) fn page_among<T: Listed, R: RowsOf<T>>(
    alloc: Global,
    among: &R,
    filter: &Filter,
    limit: u32,
    offset: u32,
) -> Result<Reply, AllocError>
    ensures { IfOk result (λ r. r ≡ page_reply T.rules.view (T.meets filter.now) limit offset (R.rows among.now)) }
{
    let mut views = Vec::new(alloc);
    let count = take_all::<T, R>(among, filter, limit, offset, &mut views)?;
    Ok(Reply::Page {
        count,
        views: Views::of(views),
    })
}

/// The same page if the rows of some ids are looked at, among which each is that meets the filter.
fn page_found<T: Listed, R: RowsOf<T>>(
    alloc: Global,
    among: &R,
    ids: &[u32],
    filter: &Filter,
    limit: u32,
    offset: u32,
) -> Result<Reply, AllocError>
    requires { AreCandidates T.rules.id (T.meets filter.now) (R.rows among.now) ids.now }
    ensures { IfOk result (λ r. r ≡ page_reply T.rules.view (T.meets filter.now) limit offset (R.rows among.now)) }
{
    let mut views = Vec::new(alloc);
    let count = take_found::<T, R>(among, ids, filter, limit, offset, &mut views)?;
    Ok(Reply::Page {
        count,
        views: Views::of(views),
    })
}

/// Reads the rows that meet the filter, past the first `offset`, at most `limit`, and how many meet it. `Err` means out of memory.
pub fn plan_list<T: Registered>(
    row_tables: &RowTables,
    filter: &Filter,
    limit: u32,
    offset: u32,
) -> Result<Planned, AllocError>
    requires { IsLawful (state_of row_tables.now) }
    ensures { IfOk result (λ p. IsPlanned (list T.rules (state_of row_tables.now) (T.meets filter.now) limit offset) p) }
{
    let alloc = row_tables.allocator();
    let reply = match T::candidates(row_tables, filter)? {
        Some(ids) => page_found::<T, RowTables>(
            alloc,
            row_tables,
            ids.as_slice(),
            filter,
            limit,
            offset,
        )?,
        None => page_among::<T, RowTables>(alloc, row_tables, filter, limit, offset)?,
    };
    Ok(Planned::Read(reply))
}
