//! What a lock shares out.
ghost use Rattle.std.specs.Prelude.{◌≡◌, ◌+◌, ◌^◌, ◌<◌, ◌≤◌, ℕ, Bool, List, length};
ghost use Rattle.history_lock.specs.Replies.{ReplyKind};
ghost use Rattle.history_lock.specs.Replay.{replay};
ghost use Rattle.history_lock.specs.Machines.{Meaning, meaning, IsAct};

/// A value with a state, which takes calls and gives replies, and which shows the changes that it accepted.
///
/// The ghost members are what contracts see of it, and cost nothing when the program runs.
pub trait Machine {
    /// What a caller asks.
    type Call;

    /// What the machine answers.
    type Reply;

    /// A call as contracts see it, as a list in place of a vector. No value of it is made.
    type Said;

    /// A reply as contracts see it. No value of it is made.
    type Answer;

    /// What the machine represents. No value of it is made.
    type State;

    /// A call as contracts see it.
    ghost said: { Self.Call → Self.Said };

    /// A reply as contracts see it.
    ghost answer: { Self.Reply → Self.Answer };

    /// Whether a reply is an accepted change, a fault, out of memory, or none of these.
    ghost kind: { Self.Reply → ReplyKind };

    /// The plain answers in whose place a fault may be reported.
    ghost fallible: { Self.Answer → Bool };

    /// The calls that the machine takes.
    ghost takes: { Self.Call → Type 0 };

    /// Any state.
    ghost blank: { Self.State };

    /// The state before the first accepted change.
    ghost opening: { Self → Self.State };

    /// The state now.
    ghost state: { Self → Self.State };

    /// The accepted changes from the first, each with its caller's number.
    ghost log: { Self → List (ℕ × Self.Said) };

    /// How many faults the machine met. It never falls, and may stay at the last value of a u64.
    ghost faults: { Self → ℕ };

    /// The state and the reply that a call leads to if nothing fails.
    ghost step: { Self.State → Self.Said → Self.State × Self.Answer };

    /// Answers a call of the caller with the number `who`.
    ///
    /// The reply is the plain step's, and the call joins the accepted changes if it is an accepted change; or the reply is a fault, or out of memory, and state and accepted changes stay. A fault is reported only in place of a fallible answer, and only if the count of faults rose in this call, or is at the last value of a u64; and the count rises only if a fault is reported.
    fn act(&mut self, who: u32, call: Self::Call) -> Self::Reply
        requires { takes call }
        ensures { IsAct (meaning opening state log faults step) fallible self.old self.new who (said call) (answer result) (kind result) };

    /// The number of accepted changes. The machine's state is the replay of these.
    fn entries(&self) -> u64
        ensures count { (result ≡ length (log self.now)) × (result < 2 ^ 63) }
        ensures replayed { state self.now ≡ replay step (opening self.now) (log self.now) };
}
