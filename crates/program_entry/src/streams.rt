//! The standard streams of a process.

ghost use Rattle.std.specs.Prelude.{◌≡◌};
ghost use Rattle.command_streams.specs.Streams.{Streams, streams, told};
ghost use Rattle.program_entry.specs.Ending.{AreUntold};

use ipam_edge::{
    Sink, Source, StdSink, StdSource, standard_error, standard_input, standard_output,
};
use std::io::{Printer, Stderr, StdinLock};
use std::marker::Model;

/// An input, an output, and where messages go. Contracts see what is known of the three.
#[derive(Drop)]
pub struct Three<I: Source, O: Sink, E: Sink> {
    pub input: I,
    pub output: O,
    pub errors: E,
}

impl<I: Source, O: Sink, E: Sink> Model for Three<I, O, E> {
    ghost Value = { Streams };

    ghost view = { λ s. streams (told I.left I.faults s.input) (told O.written O.faults s.output) (told E.written E.faults s.errors) };
}

/// The standard streams. The types say which is which: messages go to standard error.
pub type Standard<'a> = Three<
    StdSource<StdinLock<'static>>,
    StdSink<Printer<'a, HostRuntime>>,
    StdSink<Stderr>,
>;

/// The standard streams, as the runtime gives them.
pub fn standard(rt: &HostRuntime) -> Standard<'_>
    ensures { AreUntold result }
{
    Three {
        input: standard_input(rt),
        output: standard_output(rt),
        errors: standard_error(rt),
    }
}
