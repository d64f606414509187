//! The table of routes, and the look-up of a path in it.

ghost use Rattle.std.specs.Prelude.{◌≡◌, ◌≢◌, ℕ, List, [], ◌∷◌, ◌++◌, decimal, IfOk, IfSome, IfNone, OnOk, option_copied};
ghost use Rattle.std.specs.String.{string_bytes};
ghost use Rattle.rest_routes.specs.Routes.{HasRoute, IsId, part_end, rows_path};
ghost use Rattle.rest_routes.specs.Stems.{Lists, IsRouteAt};

use crate::route::{Route, RowPart};
use ipam_data::kinds::Kind;
use ipam_words::kind_name;
use rest_query::number_below;
use route_table::RouteTable;
use std::alloc::{AllocError, Global};
use std::marker::Model;

/// A route without its id.
#[derive(Clone, Copy, Debug, Drop)]
pub(crate) enum Stem {
    Rows(Kind),
    Row(Kind),
    PartOf(RowPart),
}

/// The id that the text is in decimal.
fn id_of(text: &str) -> Option<u32>
    ensures some { IfSome result (λ id. (text.now ≡ decimal id) × IsId id) }
    ensures none { IfNone result ((id : ℕ) → IsId id → text.now ≢ decimal id) }
{
    match number_below(text, 4294967296) {
        Some(id) if id > 0 => Some(id as u32),
        _ => None,
    }
}

/// The route of a stem, with the id that this text is.
fn route_at(stem: Stem, text: Option<&str>) -> Option<Route>
    ensures { IsRouteAt stem (option_copied text.entry) result }
{
    match (stem, text) {
        (Stem::Rows(kind), None) => Some(Route::Many(kind)),
        (Stem::Row(kind), Some(text)) => match id_of(text) {
            Some(id) => Some(Route::Single(kind, id)),
            None => None,
        },
        (Stem::PartOf(part), Some(text)) => match id_of(text) {
            Some(id) => Some(Route::Within(part, id)),
            None => None,
        },
        _ => None,
    }
}

/// The path of the rows of a kind.
fn rows_text(alloc: Global, kind: Kind) -> Result<String, AllocError>
    ensures { IfOk result (λ t. string_bytes t ≡ rows_path kind) }
{
    let mut text = String::from_str(alloc, "/api/ipam/")?;
    text.push_str(kind_name(kind))?;
    text.push_str("/")?;
    Ok(text)
}

/// What follows the id in the path of a part of a row.
fn end_text(alloc: Global, part: RowPart) -> Result<String, AllocError>
    ensures { IfOk result (λ t. string_bytes t ≡ part_end part) }
{
    let mut text = String::from_str(alloc, "/")?;
    text.push_str(part.name())?;
    text.push_str("/")?;
    Ok(text)
}

/// Adds the rows and the single rows of a kind.
fn add_kind(table: &mut RouteTable<Stem>, alloc: Global, kind: Kind) -> Result<(), AllocError>
    ensures { OnOk result ((list : List Stem) → Lists table.old list → Lists table.new (list ++ (Stem.Rows kind ∷ Stem.Row kind ∷ []))) }
{
    let front = rows_text(alloc, kind)?;
    table.add_whole(front.as_str(), Stem::Rows(kind))?;
    table.add_around(front.as_str(), "/", Stem::Row(kind))
}

/// Adds a part of the rows of its kind.
fn add_part(table: &mut RouteTable<Stem>, alloc: Global, part: RowPart) -> Result<(), AllocError>
    ensures { OnOk result ((list : List Stem) → Lists table.old list → Lists table.new (list ++ Stem.PartOf part ∷ [])) }
{
    let front = rows_text(alloc, part.kind())?;
    let end = end_text(alloc, part)?;
    table.add_around(front.as_str(), end.as_str(), Stem::PartOf(part))
}

/// All routes, built once. A look-up takes no memory.
#[derive(Drop)]
pub struct Routes {
    table: RouteTable<Stem>,
}

impl Model for Routes {
    ghost use Rattle.rest_routes.specs.Stems.{Lists, stems};

    ghost Value = { Unit {0} };

    ghost view = { λ r. tt };

    ghost invariant = { λ r. Lists r.table stems };
}

impl Routes {
    /// The table of all routes. `Err` means out of memory.
    pub fn new(alloc: Global) -> Result<Routes, AllocError> {
        let mut table = RouteTable::new(alloc);
        add_kind(&mut table, alloc, Kind::Vrfs)?;
        add_kind(&mut table, alloc, Kind::Rirs)?;
        add_kind(&mut table, alloc, Kind::Roles)?;
        add_kind(&mut table, alloc, Kind::Aggregates)?;
        add_kind(&mut table, alloc, Kind::Prefixes)?;
        add_kind(&mut table, alloc, Kind::Ranges)?;
        add_kind(&mut table, alloc, Kind::Addresses)?;
        add_part(&mut table, alloc, RowPart::PrefixBlocks)?;
        add_part(&mut table, alloc, RowPart::PrefixAddresses)?;
        add_part(&mut table, alloc, RowPart::RangeAddresses)?;
        add_part(&mut table, alloc, RowPart::PrefixUtilization)?;
        add_part(&mut table, alloc, RowPart::RangeUtilization)?;
        add_part(&mut table, alloc, RowPart::AggregateUtilization)?;
        Ok(Routes { table })
    }

    /// The route of a path, or `None` if it has none.
    pub fn route_of(&self, target: &[u8]) -> Option<Route>
        ensures { HasRoute target.now result }
    {
        let Ok(path) = std::str::from_utf8(target) else {
            return None;
        };
        match self.table.find(path) {
            Some(found) => route_at(*found.value, found.piece),
            None => None,
        }
    }
}
