//! Cells that are weights.

ghost use Rattle.std.specs.Prelude.{◌≡◌, ◌↔◌, ℕ, ◌<◌, IsTrue, Some, decimal};
ghost use Rattle.csv.specs.Records.{fields_of};
ghost use Rattle.ipam_data.specs.declared.replies.FieldName.TheVariants.{Weight as WeightField};
ghost use Rattle.csv_import.specs.Cells.{cell, column, IsWeightText, IsWeightCell};
ghost use Rattle.csv_import.specs.Rows.{OrMemory};

use crate::cells::{cell, malformed};
use crate::stops::Stop;
use csv::{ByteRecord, StringRecord};
use ipam_data::replies::FieldName;
use ipam_data::text::Weight;
use itoa::Buffer;

/// The weight of a role that says none.
const DEFAULT_WEIGHT: u16 = 1000;

/// The number that the text is read as: at least every decimal text of one is.
fn number_of(text: &str) -> Option<u16>
    ensures { (n : ℕ) → n < 65536 → text.now ≡ decimal n → result ≡ Some n }
{
    match text.parse::<u16>() {
        Ok(number) => Some(number),
        Err(_) => None,
    }
}

/// Whether the text is the decimal one of this number, without a sign or a leading zero.
fn is_decimal(text: &str, number: u16) -> bool
    ensures { IsTrue result ↔ (text.now ≡ decimal number) }
{
    let mut room = Buffer::new();
    text == room.format(number)
}

/// The weight that a text is.
fn weight_of(text: &str) -> Option<Weight>
    ensures { IsWeightText text.now result }
{
    match number_of(text) {
        Some(number) if is_decimal(text, number) => Weight::of(number),
        _ => None,
    }
}

/// The weight of a line, if the cell is none that is malformed; an empty one is the default.
pub(crate) fn weight(header: &ByteRecord, line: &StringRecord) -> Option<Weight>
    ensures { IsWeightCell (cell (fields_of header.now) (fields_of line.now) WeightField) result }
{
    let text = cell(header, line, FieldName::Weight);
    if text.is_empty() {
        return Weight::of(DEFAULT_WEIGHT);
    }
    weight_of(text)
}

/// A weight that was read.
pub(crate) fn weighed(weight: Option<Weight>) -> Result<Weight, Stop>
    ensures { OrMemory (λ r. column WeightField weight ≡ r) result }
{
    match weight {
        Some(weight) => Ok(weight),
        None => Err(malformed(FieldName::Weight)),
    }
}
