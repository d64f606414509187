//! Laws of files: each function is empty, and its contract is the law.

ghost use Rattle.csv_import.specs.Laws.{FileIsOne};

/// The bytes of a file have one answer: their rows, or one refusal.
pub fn file_is_one()
    ensures { FileIsOne }
{}
