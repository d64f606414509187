//! Numbers in decimal, without a sign or a leading zero.

ghost use Rattle.std.specs.Prelude.{◌≡◌, ◌≢◌, ℕ, ◌^◌, ◌<◌, ◌≤◌, Some, IfSome, IfNone, IsTrue, ◌↔◌, decimal};

use itoa::Buffer;

/// The number that the text is read as: at least every decimal text of one is.
pub(crate) fn number_of(text: &str) -> Option<u64>
    ensures { (n : ℕ) → n < 2 ^ 64 → text.now ≡ decimal n → result ≡ Some n }
{
    match text.parse::<u64>() {
        Ok(number) => Some(number),
        Err(_) => None,
    }
}

/// Whether the text is the decimal one of this number.
pub(crate) fn is_decimal(text: &str, number: u64) -> bool
    ensures { IsTrue result ↔ (text.now ≡ decimal number) }
{
    let mut room = Buffer::new();
    text == room.format(number)
}

/// The number below a bound that the text is in decimal, without a sign or a leading zero; none if it is no such number.
pub fn number_below(text: &str, bound: u64) -> Option<u64>
    ensures some { IfSome result (λ n. (text.now ≡ decimal n) × (n < bound)) }
    ensures none { IfNone result ((n : ℕ) → n < bound → text.now ≢ decimal n) }
{
    match number_of(text) {
        Some(number) if number < bound && is_decimal(text, number) => Some(number),
        _ => None,
    }
}
