//! What is said if an opening is refused. The lines have fixed room, so that saying them takes no memory.

ghost use Rattle.std.specs.Prelude.{◌≡◌, ◌≤◌, length};
ghost use Rattle.command_streams.specs.Streams.{EndsWith, told};
ghost use Rattle.pool_store.specs.FaultWords.{IsSaid, row_line as row_line_of};

use arrayvec::ArrayVec;
use command_streams::{LINE, MEMORY, REFUSED, STORE, end_with, push_bytes};
use ipam_edge::Sink;
use itoa::Buffer;
use pool_opening::PoolFault;

/// The line that names a row by what it is and its id.
fn row_line(name: &[u8], id: u32) -> ArrayVec<u8, LINE>
    requires { length name.now ≤ 16 }
    ensures { result.items ≡ row_line_of name.now id }
{
    let mut digits = Buffer::new();
    let mut line = ArrayVec::<u8, LINE>::new();
    push_bytes(&mut line, b"store: ");
    push_bytes(&mut line, name);
    push_bytes(&mut line, digits.format(id).as_bytes());
    push_bytes(&mut line, b"\n");
    line
}

/// Says which row refused an opening.
fn say_row<Se: Sink>(name: &[u8], id: u32, errors: &mut Se) -> u8
    requires { length name.now ≤ 16 }
    ensures said { EndsWith (told Se.written Se.faults errors.old) (told Se.written Se.faults errors.new) (row_line_of name.now id) 1 result }
    ensures later { Se.faults errors.old ≤ Se.faults errors.new }
{
    let line = row_line(name, id);
    end_with(errors, line.as_slice(), REFUSED)
}

/// Says why an opening was refused, and gives the status of that: 1 for a fault of the tables, 4 if the store failed, 5 if memory ran
/// out, of which nothing is said; and 3 if the line could not be written.
pub fn say_fault<Se: Sink>(fault: PoolFault, errors: &mut Se) -> u8
    ensures said { IsSaid fault (told Se.written Se.faults errors.old) (told Se.written Se.faults errors.new) result }
    ensures later { Se.faults errors.old ≤ Se.faults errors.new }
{
    match fault {
        PoolFault::Keeper => { end_with(errors, b"store: the store could not be read\n", STORE) }
        PoolFault::BadRange(id) => say_row(b"range ", id, errors),
        PoolFault::BadMember(id) => say_row(b"member ", id, errors),
        PoolFault::BadNext => end_with(errors, b"store: bad next id\n", REFUSED),
        PoolFault::Memory => MEMORY,
    }
}
