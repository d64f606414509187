//! Laws of a run: the function is empty, and its contract is the law.

ghost use Rattle.pool_command.specs.Clauses.{RunsHaveClauses};
ghost use Rattle.pool_command.specs.Exact.{RunsAreExact};
ghost use Rattle.pool_command.specs.Limits.{HasLimits};

/// The one relation of a run gives each promise of the program.
pub fn runs_have_clauses()
    ensures { RunsHaveClauses }
{}

/// Status 1 is returned exactly for its cause: if nothing fails, known tables that have a fault give it, memory apart.
pub fn runs_are_exact()
    ensures { RunsAreExact }
{}

/// The limits that the definitions name are these numbers.
pub fn limits_are()
    ensures { HasLimits }
{}
