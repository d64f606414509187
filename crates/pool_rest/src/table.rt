//! The table of routes, and the look-up of a path in it.

ghost use Rattle.std.specs.Prelude.{◌≡◌, ◌≢◌, ℕ, List, [], ◌∷◌, ◌++◌, decimal, IfOk, IfSome, IfNone, OnOk, option_copied};
ghost use Rattle.std.specs.String.{string_bytes};
ghost use Rattle.pool_rest.specs.Routes.{HasRoute, IsId, base_path, part_end};
ghost use Rattle.pool_rest.specs.Stems.{Lists, IsRouteAt, stems_of};

use crate::route::{Base, RangePart, Route};
use number_pools::PoolKind;
use rest_query::number_below;
use route_table::RouteTable;
use std::alloc::{AllocError, Global};
use std::marker::Model;

/// A route without its id.
#[derive(Clone, Copy, Debug, Drop)]
pub(crate) enum Stem {
    Rows(Base),
    Row(Base),
    PartOf(RangePart, PoolKind),
}

/// The id that the text is in decimal.
fn id_of(text: &str) -> Option<u32>
    ensures some { IfSome result (λ id. (text.now ≡ decimal id) × IsId id) }
    ensures none { IfNone result ((id : ℕ) → IsId id → text.now ≢ decimal id) }
{
    match number_below(text, 4294967296) {
        Some(id) if id > 0 => Some(id as u32),
        _ => None,
    }
}

/// The route of a stem, with the id that this text is.
fn route_at(stem: Stem, text: Option<&str>) -> Option<Route>
    ensures { IsRouteAt stem (option_copied text.entry) result }
{
    match (stem, text) {
        (Stem::Rows(base), None) => Some(Route::Many(base)),
        (Stem::Row(base), Some(text)) => match id_of(text) {
            Some(id) => Some(Route::Single(base, id)),
            None => None,
        },
        (Stem::PartOf(part, kind), Some(text)) => match id_of(text) {
            Some(id) => Some(Route::Within(part, kind, id)),
            None => None,
        },
        _ => None,
    }
}

/// What is before the id in a path.
fn front_text(alloc: Global, base: Base) -> Result<String, AllocError>
    ensures { IfOk result (λ t. string_bytes t ≡ base_path base) }
{
    let mut text = String::from_str(alloc, "/api/ipam/")?;
    text.push_str(base.name())?;
    text.push_str("/")?;
    Ok(text)
}

/// What follows the id in the path of a part of a range.
fn end_text(alloc: Global, part: RangePart, kind: PoolKind) -> Result<String, AllocError>
    ensures { IfOk result (λ t. string_bytes t ≡ part_end part kind) }
{
    let mut text = String::from_str(alloc, "/")?;
    text.push_str(part.name(kind))?;
    text.push_str("/")?;
    Ok(text)
}

/// Adds all ranges, or all members.
fn add_rows(table: &mut RouteTable<Stem>, alloc: Global, base: Base) -> Result<(), AllocError>
    ensures { OnOk result ((list : List Stem) → Lists table.old list → Lists table.new (list ++ Stem.Rows base ∷ [])) }
{
    let front = front_text(alloc, base)?;
    table.add_whole(front.as_str(), Stem::Rows(base))
}

/// Adds a single range, or a single member.
fn add_row(table: &mut RouteTable<Stem>, alloc: Global, base: Base) -> Result<(), AllocError>
    ensures { OnOk result ((list : List Stem) → Lists table.old list → Lists table.new (list ++ Stem.Row base ∷ [])) }
{
    let front = front_text(alloc, base)?;
    table.add_around(front.as_str(), "/", Stem::Row(base))
}

/// Adds a part of the ranges of a kind.
fn add_part(
    table: &mut RouteTable<Stem>,
    alloc: Global,
    part: RangePart,
    kind: PoolKind,
) -> Result<(), AllocError>
    ensures { OnOk result ((list : List Stem) → Lists table.old list → Lists table.new (list ++ Stem.PartOf part kind ∷ [])) }
{
    let front = front_text(alloc, Base::Ranges(kind))?;
    let end = end_text(alloc, part, kind)?;
    table.add_around(front.as_str(), end.as_str(), Stem::PartOf(part, kind))
}

/// Adds the routes of a kind.
fn add_kind(table: &mut RouteTable<Stem>, alloc: Global, kind: PoolKind) -> Result<(), AllocError>
    ensures { OnOk result ((list : List Stem) → Lists table.old list → Lists table.new (list ++ stems_of kind)) }
{
    add_rows(table, alloc, Base::Ranges(kind))?;
    add_rows(table, alloc, Base::Members(kind))?;
    add_row(table, alloc, Base::Ranges(kind))?;
    add_row(table, alloc, Base::Members(kind))?;
    add_part(table, alloc, RangePart::Free, kind)?;
    add_part(table, alloc, RangePart::Given, kind)
}

/// All routes, built once. A look-up takes no memory.
#[derive(Drop)]
pub struct Routes {
    table: RouteTable<Stem>,
}

impl Model for Routes {
    ghost use Rattle.pool_rest.specs.Stems.{Lists, stems};

    ghost Value = { Unit {0} };

    ghost view = { λ r. tt };

    ghost invariant = { λ r. Lists r.table stems };
}

impl Routes {
    /// The table of all routes. `Err` means out of memory.
    pub fn new(alloc: Global) -> Result<Routes, AllocError> {
        let mut table = RouteTable::new(alloc);
        add_kind(&mut table, alloc, PoolKind::Asn)?;
        add_kind(&mut table, alloc, PoolKind::Vlan)?;
        Ok(Routes { table })
    }

    /// The route of a path, or `None` if it has none.
    pub fn route_of(&self, target: &[u8]) -> Option<Route>
        ensures { HasRoute target.now result }
    {
        let Ok(path) = std::str::from_utf8(target) else {
            return None;
        };
        match self.table.find(path) {
            Some(found) => route_at(*found.value, found.piece),
            None => None,
        }
    }
}
