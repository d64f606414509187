//! How many changes were accepted, as a line.

ghost use Rattle.std.specs.Prelude.{◌≡◌, ◌≤◌};
ghost use Rattle.command_streams.specs.Streams.{EndsWith, told};
ghost use Rattle.machine_serving.specs.Serve.{entries_line as line_of, listening_status};

use crate::ending::Served;
use arrayvec::ArrayVec;
use command_streams::{DONE, FAULT, LINE, end_with, push_bytes};
use http_lanes::Listening;
use ipam_edge::Sink;
use itoa::Buffer;

/// The line. It takes no memory.
fn entries_line(entries: u64) -> ArrayVec<u8, LINE>
    ensures { result.items ≡ line_of entries }
{
    let mut digits = Buffer::new();
    let mut line = ArrayVec::<u8, LINE>::new();
    push_bytes(&mut line, b"entries ");
    push_bytes(&mut line, digits.format(entries).as_bytes());
    push_bytes(&mut line, b"\n");
    line
}

/// The status of a listening that ended so, if nothing else fails.
fn status_of(listening: Listening) -> u8
    ensures { result ≡ listening_status listening }
{
    match listening {
        Listening::Whole => DONE,
        Listening::Broken => FAULT,
    }
}

/// Prints how many changes were accepted, and gives the status of that.
pub fn say_entries<Si: Sink>(served: Served, output: &mut Si) -> u8
    ensures said { EndsWith (told Si.written Si.faults output.old) (told Si.written Si.faults output.new) (line_of served.entries) (listening_status served.listening) result }
    ensures later { Si.faults output.old ≤ Si.faults output.new }
{
    let line = entries_line(served.entries);
    end_with(output, line.as_slice(), status_of(served.listening))
}
