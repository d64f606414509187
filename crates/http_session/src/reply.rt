//! An answer before its frame.
ghost use Rattle.std.specs.Prelude.{◌≡◌};

use arrayvec::ArrayVec;
use http::StatusCode;

/// The bytes of an answer: written for it, or short, for an answer that takes no memory.
#[derive(Drop)]
pub enum Body {
    Written(Vec<u8>),
    Short(ArrayVec<u8, 128>),
}

impl Body {
    ghost use Rattle.http_session.specs.Replies.{body_bytes};

    /// The bytes.
    pub fn bytes(&self) -> &[u8]
        ensures { result.now ≡ body_bytes self.now }
    {
        match self {
            Body::Written(bytes) => bytes.as_slice(),
            Body::Short(bytes) => bytes.as_slice(),
        }
    }
}

/// A field of an answer that its desk names, with a number for its value.
#[derive(Clone, Copy, Debug, Drop)]
pub struct NumberField {
    pub name: &'static [u8],
    pub number: u64,
}

/// What a desk answers: the status, the methods of the path for status 405 (and else no bytes), its own field if it has
/// one, and the body with its media type (RFC 9110 8.3), which is given if there is a body.
#[derive(Drop)]
pub struct Reply {
    pub status: StatusCode,
    pub allow: &'static [u8],
    pub field: Option<NumberField>,
    pub media: &'static [u8],
    pub body: Body,
}
