//! How it went to listen for connections.
ghost use Rattle.std.specs.Prelude.{◌≡◌, ◌⊎◌, ◌<◌};

use ipam_listen::Lane;

/// How the listening went.
#[derive(Clone, Copy, Debug)]
pub enum Listening {
    /// Every lane that was wanted was handed out, and no accept failed.
    Whole,
    /// A lane was not handed out, or an accept failed.
    Broken,
}

impl Listening {
    /// How both went: whole if each did.
    pub fn and(self, other: Listening) -> Listening
        ensures whole { result ≡ Listening.Whole → (self ≡ Listening.Whole) × (other ≡ Listening.Whole) }
        ensures broken { result ≡ Listening.Broken → (self ≡ Listening.Broken) ⊎ (other ≡ Listening.Broken) }
    {
        match self {
            Listening::Whole => other,
            Listening::Broken => Listening::Broken,
        }
    }
}

/// How the listening of a lane went: it broke if an accept failed.
pub(crate) fn heard_of<A: Lane>(lane: &A) -> Listening
    ensures whole { result ≡ Listening.Whole → A.faults lane.now ≡ 0 }
    ensures broken { result ≡ Listening.Broken → 0 < A.faults lane.now }
{
    if lane.has_failed() {
        Listening::Broken
    } else {
        Listening::Whole
    }
}
