//! The commands `export` and `report` over the store that their arguments name.

ghost use Rattle.command_streams.specs.Streams.{Told, streams, told};
ghost use Rattle.machine_command.specs.Outside.{outside, stores};
ghost use Rattle.pool_texts.specs.Print.{IsPrint};

use crate::session::path_of;
use command_streams::MEMORY;
use ipam_edge::Sink;
use pool_keeper::keeper::PoolOpener;
use pool_texts::run_print;
use pool_words::Listing;
use std::alloc::Global;
use word_values::WordText;

/// Runs `export` or `report`: a text of the pools of the file that is named, or else of none.
pub(crate) fn print_words<Si: Sink, Se: Sink, O: PoolOpener>(
    alloc: Global,
    listing: Listing,
    db: &Option<WordText>,
    output: &mut Si,
    errors: &mut Se,
    opener: &mut O,
) -> u8
    ensures { (input : Told) → IsPrint listing db.now
        (outside (streams input (told Si.written Si.faults output.old) (told Se.written Se.faults errors.old)) (stores O.stored O.faults opener.old))
        (outside (streams input (told Si.written Si.faults output.new) (told Se.written Se.faults errors.new)) (stores O.stored O.faults opener.new)) result }
{
    match path_of(alloc, db) {
        Ok(path) => run_print(alloc, listing, &path, output, errors, opener),
        Err(_) => MEMORY,
    }
}
