//! Routes: which targets name something, and by which methods.

ghost use Rattle.std.specs.Prelude.{◌≡◌};
ghost use Rattle.rest_routes.specs.Routes.{method_named, methods_text, part_kind, part_methods, part_text};

use ipam_data::kinds::Kind;

/// What a path may name within a row: what is available in it, or how much of it is used.
#[derive(Clone, Copy, Debug)]
pub enum RowPart {
    PrefixBlocks,
    PrefixAddresses,
    RangeAddresses,
    PrefixUtilization,
    RangeUtilization,
    AggregateUtilization,
}

impl RowPart {
    /// The kind of the row.
    pub fn kind(self) -> Kind
        ensures { result ≡ part_kind self }
    {
        match self {
            RowPart::PrefixBlocks => Kind::Prefixes,
            RowPart::PrefixAddresses => Kind::Prefixes,
            RowPart::RangeAddresses => Kind::Ranges,
            RowPart::PrefixUtilization => Kind::Prefixes,
            RowPart::RangeUtilization => Kind::Ranges,
            RowPart::AggregateUtilization => Kind::Aggregates,
        }
    }

    /// The part's name in a path.
    pub fn name(self) -> &'static str
        ensures { result.now ≡ part_text self }
    {
        match self {
            RowPart::PrefixBlocks => "available-prefixes",
            RowPart::PrefixAddresses => "available-ips",
            RowPart::RangeAddresses => "available-ips",
            RowPart::PrefixUtilization => "utilization",
            RowPart::RangeUtilization => "utilization",
            RowPart::AggregateUtilization => "utilization",
        }
    }

    /// The methods of the part, as the field `Allow` prints them.
    pub fn methods(self) -> &'static str
        ensures { result.now ≡ part_methods self }
    {
        match self {
            RowPart::PrefixBlocks => "GET, POST",
            RowPart::PrefixAddresses => "GET, POST",
            RowPart::RangeAddresses => "GET, POST",
            RowPart::PrefixUtilization => "GET",
            RowPart::RangeUtilization => "GET",
            RowPart::AggregateUtilization => "GET",
        }
    }
}

/// What a target names: the rows of a kind, the row of an id, or a part of that row.
#[derive(Clone, Copy, Debug)]
pub enum Route {
    Many(Kind),
    Single(Kind, u32),
    Within(RowPart, u32),
}

/// The methods that some route has.
#[derive(Clone, Copy, Debug, PartialEq, Eq)]
pub enum Method {
    Get,
    Post,
    Patch,
    Delete,
}

impl Method {
    /// The method of a name, in upper case (RFC 9110 9.1), or `None` if no route has it.
    pub fn named(name: &[u8]) -> Option<Method>
        ensures { result ≡ method_named name.now }
    {
        if name == b"GET".as_slice() {
            return Some(Method::Get);
        }
        if name == b"POST".as_slice() {
            return Some(Method::Post);
        }
        if name == b"PATCH".as_slice() {
            return Some(Method::Patch);
        }
        if name == b"DELETE".as_slice() {
            return Some(Method::Delete);
        }
        None
    }
}

impl Route {
    /// The methods of the route, as the field `Allow` prints them.
    pub fn methods(&self) -> &'static str
        ensures { result.now ≡ methods_text self.now }
    {
        match self {
            Route::Many(_) => "GET, POST",
            Route::Single(_, _) => "GET, PATCH, DELETE",
            Route::Within(part, _) => part.methods(),
        }
    }
}
