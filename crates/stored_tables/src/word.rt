//! The words of statuses, roles and truth values.

ghost use Rattle.std.specs.Prelude.{◌≡◌};

/// A word that a column of stored rows can be. A text of one takes no memory.
#[derive(Clone, Copy, Debug)]
pub(crate) enum Word {
    /// What is absent.
    Empty,
    True,
    False,
    Container,
    Active,
    Reserved,
    Deprecated,
    Dhcp,
    Slaac,
    Loopback,
    Secondary,
    Anycast,
    Vip,
    Vrrp,
    Hsrp,
    Glbp,
    Carp,
}

impl Word {
    ghost use Rattle.stored_tables.specs.Characters.{word_text};

    /// Its characters.
    pub(crate) fn as_str(self) -> &'static str
        ensures { result.now ≡ word_text self }
    {
        match self {
            Word::Empty => "",
            Word::True => "true",
            Word::False => "false",
            Word::Container => "container",
            Word::Active => "active",
            Word::Reserved => "reserved",
            Word::Deprecated => "deprecated",
            Word::Dhcp => "dhcp",
            Word::Slaac => "slaac",
            Word::Loopback => "loopback",
            Word::Secondary => "secondary",
            Word::Anycast => "anycast",
            Word::Vip => "vip",
            Word::Vrrp => "vrrp",
            Word::Hsrp => "hsrp",
            Word::Glbp => "glbp",
            Word::Carp => "carp",
        }
    }
}
