//! What a program promises of its runs.

ghost use Rattle.std.specs.Prelude.{List, ℕ};
ghost use Rattle.command_streams.specs.Streams.{Streams, Told, streams, told};

use ipam_edge::Sink;

/// A program, by what its runs promise and what it says if it was given no words.
pub trait Program {
    /// What is seen of all that a run uses besides the streams, such as an opener and a listener.
    ghost Used: { Type 0 };

    /// A run of these words: the streams before and after it, what else is used before and after it, and its status.
    ghost runs: { List (List ℕ) → Streams → Streams → Used → Used → ℕ → Type 0 };

    /// The usage line was said: the streams before and after it, and its status.
    ghost says_usage: { Streams → Streams → ℕ → Type 0 };

    /// Says the usage line; nothing else is used. It gives the status.
    fn say_usage<Se: Sink>(errors: &mut Se) -> u8
        ensures usage { (input output : Told) → says_usage (streams input output (told Se.written Se.faults errors.old))
            (streams input output (told Se.written Se.faults errors.new)) result };

    /// If memory runs out to read the words, nothing is used, and that is a run of them.
    ghost not_begun: { (words : List (List ℕ)) (seen : Streams) (kept : Used) → runs words seen seen kept kept 5 };
}
