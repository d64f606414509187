//! What the commands of the program share: their statuses, and how a message ends one.
#![tactic(auto)]

ghost use Rattle.std.specs.Prelude.{◌≡◌, ◌≤◌};
ghost use Rattle.command_streams.specs.Streams.{EndsWith, IsUsage, Told, streams, told};

mod arguments;
mod line;

pub use arguments::{NoArguments, words_given, words_of};
use ipam_edge::{Sink, write_all};
pub use line::{LINE, push_bytes};

/// Done.
pub const DONE: u8 = 0;
/// The input, a record, an import or a loaded table breaks a stated rule, which the messages name.
pub const REFUSED: u8 = 1;
/// The words are no command.
pub const USAGE: u8 = 2;
/// The input, the output or the messages failed.
pub const FAULT: u8 = 3;
/// The store failed.
pub const STORE: u8 = 4;
/// Out of memory.
pub const MEMORY: u8 = 5;

/// Writes a message, after which a command ends with this status, or with that of a fault if it can't be written.
pub fn end_with<Se: Sink>(errors: &mut Se, message: &[u8], status: u8) -> u8
    ensures ends { EndsWith (told Se.written Se.faults errors.old) (told Se.written Se.faults errors.new) message.now status result }
    ensures later { Se.faults errors.old ≤ Se.faults errors.new }
{
    match write_all(errors, message) {
        Ok(()) => status,
        Err(_) => FAULT,
    }
}

/// What is said if the arguments ask for no command.
const USAGE_TEXT: &[u8] = b"usage: ipamd COMMAND\n";

/// Says the usage line; nothing else is used.
pub fn say_usage<Se: Sink>(errors: &mut Se) -> u8
    ensures { (input output : Told) → IsUsage (streams input output (told Se.written Se.faults errors.old))
        (streams input output (told Se.written Se.faults errors.new)) result }
{
    end_with(errors, USAGE_TEXT, USAGE)
}
