//! Status 1 is returned exactly for its causes.

ghost use Rattle.ipam_command.specs.Exact.{RunsAreExact};

/// A law: if nothing fails, known tables or a known input that are refused give status 1, memory apart.
pub fn runs_are_exact()
    ensures { RunsAreExact }
{}
