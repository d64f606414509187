//! The field of an answer with its place.

ghost use Rattle.std.specs.Prelude.{◌≡◌};
ghost use Rattle.http_session.specs.Replies.{field_of};
ghost use Rattle.rest_query.specs.Place.{place_field};

use http_session::NumberField;

/// The field with the place of an answer: how many changes were accepted before it.
pub fn place_at(place: u64) -> NumberField
    ensures { field_of result ≡ place_field place }
{
    NumberField {
        name: b"Ipam-Place",
        number: place,
    }
}
