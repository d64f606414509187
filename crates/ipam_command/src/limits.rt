//! The limits of the program, with their numbers.

ghost use Rattle.ipam_command.specs.Limits.{HasLimits};

/// A law: the limits that the definitions name are these numbers.
pub fn limits_are()
    ensures { HasLimits }
{}
