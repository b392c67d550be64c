// The 64-bit pattern of a number and back, every NaN as one pattern: for the programs that compare bit for bit.
#![tactic(auto)]

ghost use Rattle.std.specs.Prelude.{◌≡◌, eqb};
ghost use Rattle.std.specs.Float.{binary64};
ghost use Rattle.std.specs.Float.Ieee.{of_bits, to_bits};

use std::num::{f64_from_bits_with_nan, f64_to_bits_with_nan};

// The pattern of a number.
pub fn pattern(x: f64) -> u64
    ensures { result ≡ to_bits binary64 x }
{
    f64_to_bits_with_nan(x)
}

// The number of a pattern: a NaN for each of a NaN's.
pub fn number(bits: u64) -> f64
    ensures { result ≡ of_bits binary64 bits }
{
    f64_from_bits_with_nan(bits)
}

// Whether two numbers are the same, bit for bit, any NaN the same as any NaN.
pub fn same(a: f64, b: f64) -> bool
    ensures { result ≡ eqb (to_bits binary64 a) (to_bits binary64 b) }
{
    pattern(a) == pattern(b)
}
