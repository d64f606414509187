//! What a tally is asked, what it answers, and what a caller notes of both.

/// A call of a tally.
#[derive(Clone, Copy)]
pub enum Call {
    /// Adds this number, modulo 2^64.
    Add(u64),
    /// Asks for the sum.
    Read,
}

/// A tally's reply.
#[derive(Clone, Copy)]
pub enum Reply {
    /// The number was added, and this is the sum now.
    Added(u64),
    /// The sum.
    Value(u64),
    /// The number is the one at which the tally fails. Nothing was added.
    Fault,
    /// There was no memory for one more entry. Nothing was added.
    NoMemory,
}

/// One call that a caller made, its reply, and the number of accepted changes before it.
#[derive(Drop)]
pub struct Note {
    pub call: Call,
    pub reply: Reply,
    pub place: u64,
}
