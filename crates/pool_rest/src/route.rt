//! Routes: which targets name something, and by which methods.

ghost use Rattle.std.specs.Prelude.{◌≡◌};
ghost use Rattle.pool_rest.specs.Routes.{base_methods, base_text, method_named, methods_text, part_methods, part_text};

use number_pools::PoolKind;
use pool_json::members_name;

/// What an id in a path is the id of: a range of a kind, or a member of such ranges.
#[derive(Clone, Copy, Debug)]
pub enum Base {
    Ranges(PoolKind),
    Members(PoolKind),
}

/// The name of ranges of a kind in a path.
fn ranges_name(kind: PoolKind) -> &'static str
    ensures { result.now ≡ base_text (Base.Ranges kind) }
{
    match kind {
        PoolKind::Asn => "asn-ranges",
        PoolKind::Vlan => "vlan-groups",
    }
}

/// The name of the free numbers of a range of a kind in a path.
fn free_name(kind: PoolKind) -> &'static str
    ensures { result.now ≡ part_text RangePart.Free kind }
{
    match kind {
        PoolKind::Asn => "available-asns",
        PoolKind::Vlan => "available-vlans",
    }
}

impl Base {
    /// Its name in a path.
    pub fn name(self) -> &'static str
        ensures { result.now ≡ base_text self }
    {
        match self {
            Base::Ranges(kind) => ranges_name(kind),
            Base::Members(kind) => members_name(kind),
        }
    }

    /// The methods of all of them, as the field `Allow` prints them.
    fn methods(self) -> &'static str
        ensures { result.now ≡ base_methods self }
    {
        match self {
            Base::Ranges(_) => "GET, POST",
            Base::Members(_) => "GET",
        }
    }
}

/// What a path may name within a range: the numbers that are free, or the members.
#[derive(Clone, Copy, Debug)]
pub enum RangePart {
    Free,
    Given,
}

impl RangePart {
    /// The part's name in a path, in a range of a kind.
    pub fn name(self, kind: PoolKind) -> &'static str
        ensures { result.now ≡ part_text self kind }
    {
        match self {
            RangePart::Free => free_name(kind),
            RangePart::Given => members_name(kind),
        }
    }

    /// The methods of the part, as the field `Allow` prints them.
    pub fn methods(self) -> &'static str
        ensures { result.now ≡ part_methods self }
    {
        match self {
            RangePart::Free => "GET, POST",
            RangePart::Given => "GET, POST",
        }
    }
}

/// What a target names: the ranges of a kind or the members of such ranges, the range or the member of an id, or a part of a range.
#[derive(Clone, Copy, Debug)]
pub enum Route {
    Many(Base),
    Single(Base, u32),
    Within(RangePart, PoolKind, u32),
}

/// The methods that some route has.
#[derive(Clone, Copy, Debug, PartialEq, Eq)]
pub enum Method {
    Get,
    Post,
    Patch,
    Delete,
}

impl Method {
    /// The method of a name, in upper case (RFC 9110 9.1), or `None` if no route has it.
    pub fn named(name: &[u8]) -> Option<Method>
        ensures { result ≡ method_named name.now }
    {
        if name == b"GET".as_slice() {
            return Some(Method::Get);
        }
        if name == b"POST".as_slice() {
            return Some(Method::Post);
        }
        if name == b"PATCH".as_slice() {
            return Some(Method::Patch);
        }
        if name == b"DELETE".as_slice() {
            return Some(Method::Delete);
        }
        None
    }
}

impl Route {
    /// The methods of the route, as the field `Allow` prints them.
    pub fn methods(&self) -> &'static str
        ensures { result.now ≡ methods_text self.now }
    {
        match self {
            Route::Many(base) => base.methods(),
            Route::Single(_, _) => "GET, PATCH, DELETE",
            Route::Within(part, _, _) => part.methods(),
        }
    }
}
