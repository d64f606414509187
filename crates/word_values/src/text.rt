//! A text that was given.

use std::alloc::{AllocError, Global};
use std::marker::Model;

/// A text that was given, as the name of a file or of a place. A contract sees its bytes.
#[derive(Debug, Drop)]
pub struct WordText {
    string: String,
}

impl Model for WordText {
    ghost use Rattle.std.specs.Prelude.{List, ℕ, string_bytes};

    ghost Value = { List ℕ };

    ghost view = { λ n. string_bytes n.string };
}

impl WordText {
    ghost use Rattle.std.specs.Prelude.{◌≡◌, IfOk};

    /// A copy of the text. `Err` means out of memory.
    pub fn of(alloc: Global, text: &str) -> Result<WordText, AllocError>
        ensures { IfOk result (λ n. n ≡ text.now) }
    {
        Ok(WordText {
            string: String::from_str(alloc, text)?,
        })
    }

    /// The text as it was given.
    pub fn as_str(&self) -> &str
        ensures { result.now ≡ self.now }
    {
        self.string.as_str()
    }
}
