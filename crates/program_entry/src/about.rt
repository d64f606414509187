//! What a program says of itself: its version, and how such a text is printed.

ghost use Rattle.std.specs.Prelude.{◌≡◌, ◌≤◌, length};
ghost use Rattle.command_streams.specs.Streams.{Told, streams, told};
ghost use Rattle.program_entry.specs.About.{IsPrinted, version_text_of};

use arrayvec::ArrayVec;
use command_streams::{DONE, LINE, end_with, push_bytes};
use ipam_edge::Sink;

/// The version of the programs. CHANGES, the Debian package, the manual pages and the OpenAPI documents have it from here.
pub const VERSION: &str = "0.12.0";

/// The name of a program, of at most 32 bytes, and its version, on a line.
pub fn version_line(program: &str) -> ArrayVec<u8, LINE>
    requires { length program.now ≤ 32 }
    ensures { result.items ≡ version_text_of program.now }
{
    let mut line = ArrayVec::new();
    push_bytes(&mut line, program.as_bytes());
    push_bytes(&mut line, b" ");
    push_bytes(&mut line, VERSION.as_bytes());
    push_bytes(&mut line, b"\n");
    line
}

/// Prints a text, and gives the status: 0, or 3 if the output failed.
pub fn print_text<Si: Sink>(text: &[u8], output: &mut Si) -> u8
    ensures { (input errors : Told) → IsPrinted text.now (streams input (told Si.written Si.faults output.old) errors)
        (streams input (told Si.written Si.faults output.new) errors) result }
{
    end_with(output, text, DONE)
}
