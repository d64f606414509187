//! Percentages of whole numbers.

ghost use Rattle.std.specs.Prelude.{◌≡◌, ℕ, ◌+◌, ◌*◌, ◌<◌, ◌≤◌, ◌^◌};
ghost use Rattle.inet_num.specs.Count.{percent_of};

/// A quotient and a rest below the size.
#[derive(Clone, Copy)]
struct Part {
    quotient: u8,
    rest: u128,
}

/// The quotient and the rest of twice the number.
fn double(part: Part, size: u128) -> Part
    requires rest { part.rest < size }
    requires small { size ≤ 2 ^ 127 }
    requires few { part.quotient ≤ 50 }
    ensures rest { result.rest < size }
    ensures few { result.quotient ≤ 2 * part.quotient + 1 }
    ensures whole { result.quotient * size + result.rest ≡ 2 * (part.quotient * size + part.rest) }
{
    let rest = 2 * part.rest;
    if rest >= size {
        Part {
            quotient: 2 * part.quotient + 1,
            rest: rest - size,
        }
    } else {
        Part {
            quotient: 2 * part.quotient,
            rest,
        }
    }
}

/// The quotient and the rest with the count added.
fn plus(part: Part, count: u128, size: u128) -> Part
    requires rest { part.rest < size }
    requires count { count < size }
    requires small { size ≤ 2 ^ 127 }
    requires few { part.quotient ≤ 50 }
    ensures rest { result.rest < size }
    ensures few { result.quotient ≤ part.quotient + 1 }
    ensures whole { result.quotient * size + result.rest ≡ part.quotient * size + part.rest + count }
{
    let rest = part.rest + count;
    if rest >= size {
        Part {
            quotient: part.quotient + 1,
            rest: rest - size,
        }
    } else {
        Part {
            quotient: part.quotient,
            rest,
        }
    }
}

/// The whole part of `100 * count / size`, at most 100.
pub fn percent(count: u128, size: u128) -> u8
    requires some { 0 < size }
    requires small { size ≤ 2 ^ 127 }
    ensures { result ≡ percent_of count size }
{
    if count >= size {
        return 100;
    }
    let one = Part {
        quotient: 0,
        rest: count,
    };
    let three = plus(double(one, size), count, size);
    let six = double(three, size);
    let twelve = double(six, size);
    let twenty_five = plus(double(twelve, size), count, size);
    let fifty = double(twenty_five, size);
    double(fifty, size).quotient
}
