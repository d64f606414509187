//! A table of routes by their paths. A path is a text of segments, as `/books/7/pages/` (RFC 3986 3.3). A route is given by one
//! whole path, or by two texts with one parameter between them, which represents one piece: a text that is not empty and has no
//! slash, so a whole segment if the first text ends with a slash. Paths are compared byte by byte: nothing is decoded. The search is
//! `matchit`'s; what a route is says nothing of it.
#![tactic(auto)]

ghost use Rattle.std.specs.Prelude.{◌≡◌, ℕ, List, [], ◌∷◌, ◌++◌, codes, Option, Ok, IfOk, IfSome, IfNone, OnOk, OnErr, IsPermutation, option_copied};
ghost use Rattle.std.specs.List.{Contains};
ghost use Rattle.std.specs.String.{string_bytes};
ghost use Rattle.matchit.specs.Route.{parse_route};
ghost use Rattle.matchit.specs.Router.{InsertsRead};
ghost use Rattle.route_table.specs.Rows.{IsReadable, IsOfReadable};
ghost use Rattle.route_table.specs.Paths.{Form, Whole, Around, IsOfForm, IsLiteral, BeginsWithSlash};

#[cfg(test)]
mod tests;

use matchit::{InsertError, Router};
use std::alloc::{AllocError, Global};
use std::marker::Model;

/// Forms of paths, each with a value, as a handler of requests keeps its routes. A contract sees them as a list, in no known
/// order: of two forms that fit one path, either may be found.
#[derive(Drop)]
pub struct RouteTable<T> {
    alloc: Global,
    router: Router<T>,
}

impl<T> Model for RouteTable<T> {
    ghost use Rattle.std.specs.Prelude.{List};
    ghost use Rattle.matchit.specs.Route.{parse_route};
    ghost use Rattle.matchit.specs.Router.{InsertsRead};
    ghost use Rattle.route_table.specs.Paths.{Form};
    ghost use Rattle.route_table.specs.Rows.{items_of, AreOfForms};

    ghost Value = { List (Form × T) };

    ghost view = { λ t. items_of t.router };

    ghost invariant = { λ t. AreOfForms t.router };
}

/// The one error of a route that can be read and that no other is in the way of. A form that the table has already is answered so too.
fn memory_of(error: InsertError) -> AllocError
    requires { IsOfReadable error }
{
    match error {
        InsertError::OutOfMemory => AllocError,
        InsertError::Conflict { with: _ } => AllocError,
        InsertError::InvalidParamSegment => unreachable!(),
        InsertError::InvalidParam => unreachable!(),
        InsertError::InvalidCatchAll => unreachable!(),
    }
}

/// Puts a route, which can be read, into a router. After `Err` the router is as before.
fn put<T: Drop>(router: &mut Router<T>, text: &str, value: T) -> Result<(), AllocError>
    requires { IsReadable text.now }
    ensures ok { OnOk result (InsertsRead (parse_route text.now) value router.old router.new (Ok tt)) }
    ensures err { OnErr result (router.new ≡ router.old) }
{
    match router.insert(text, value) {
        Ok(()) => Ok(()),
        Err(error) => Err(memory_of(error)),
    }
}

/// A front, the parameter that represents the piece, and what follows it.
fn around_text(alloc: Global, front: &str, rest: &str) -> Result<String, AllocError>
    ensures { IfOk result (λ t. string_bytes t ≡ front.now ++ (codes "{id}" ++ rest.now)) }
{
    let mut text = String::from_str(alloc, front)?;
    text.push_str("{id}")?;
    text.push_str(rest)?;
    Ok(text)
}

/// What a path leads to.
#[derive(Drop)]
pub struct Found<'a, 'p, T> {
    /// The value of the form.
    pub value: &'a T,
    /// The part of the path that the form's parameter represents, if it has one.
    pub piece: Option<&'p str>,
}

impl<T: Drop> RouteTable<T> {
    /// A table without forms. It takes no memory; the table keeps the allocator.
    pub fn new(alloc: Global) -> RouteTable<T>
        ensures { result ≡ [] }
    {
        RouteTable {
            alloc,
            router: Router::new(alloc),
        }
    }

    /// Adds the route of one whole path, of bytes below `{`. After `Err`, which means out of memory or a route that the table has, it is
    /// as before.
    pub fn add_whole(&mut self, text: &str, value: T) -> Result<(), AllocError>
        requires { IsLiteral text.now }
        ensures ok { OnOk result (IsPermutation ((Whole text.now, value) ∷ self.old) self.new) }
        ensures free { OnOk result ((other : T) → ¬ Contains self.old (Whole text.now, other)) }
        ensures err { OnErr result (self.new ≡ self.old) }
    {
        put(&mut self.router, text, value)
    }

    /// Adds the route of a front, a piece and what follows the piece: bytes below `{`, and a slash right after the piece. After
    /// `Err`, which means out of memory or a route that the table has, it is as before.
    pub fn add_around(&mut self, front: &str, rest: &str, value: T) -> Result<(), AllocError>
        requires front { IsLiteral front.now }
        requires rest { IsLiteral rest.now }
        requires slash { BeginsWithSlash rest.now }
        ensures ok { OnOk result (IsPermutation ((Around front.now rest.now, value) ∷ self.old) self.new) }
        ensures free { OnOk result ((other : T) → ¬ Contains self.old (Around front.now rest.now, other)) }
        ensures err { OnErr result (self.new ≡ self.old) }
    {
        let text = around_text(self.alloc, front, rest)?;
        put(&mut self.router, text.as_str(), value)
    }

    /// The value of a form that the path has, and its piece; `None` exactly if the path is of no form. It takes no memory.
    pub fn find<'a, 'p>(&'a self, path: &'p str) -> Option<Found<'a, 'p, T>>
        ensures found { IfSome result (λ f. (form : Form) × Contains self.now (form, f.value.now) × IsOfForm form path.now (option_copied f.piece)) }
        ensures none { IfNone result ((form : Form) (value : T) (piece : Option (List ℕ)) → Contains self.now (form, value) → ¬ IsOfForm form path.now piece) }
    {
        match self.router.at(path) {
            Ok(found) => Some(Found {
                value: found.value,
                piece: found.params.get("id"),
            }),
            Err(_) => None,
        }
    }
}
