//! Numbers in digits.
ghost use Rattle.std.specs.Prelude.{◌≡◌, ◌<◌, ◌≤◌, is_ok};
ghost use Rattle.std.specs.Char.{digit_char};
ghost use Rattle.output.specs.Puts.{Puts};
ghost use Rattle.words.specs.Numerals.{numeral};

use output::{Full, Output};

// A digit of a base up to sixteen.
fn digit(d: u8) -> u8
    requires { d < 16 }
    ensures { result ≡ digit_char d }
{
    if d < 10 { b'0' + d } else { b'a' + (d - 10) }
}

// A number in the digits of a base, with no needless zero in front.
pub(crate) fn put_numeral<O: Output>(out: &mut O, base: u64, n: u64) -> Result<(), Full>
    requires base_low { 2 ≤ base }
    requires base_high { base ≤ 16 }
    ensures { Puts O.room O.took out.old (numeral base n) (is_ok result) out.new }
{
    if n < base {
        return out.put(&[digit(n as u8)]);
    }
    put_numeral(out, base, n / base)?;
    out.put(&[digit((n % base) as u8)])
}

/// A number in decimal digits, with no needless zero in front.
pub fn put_decimal<O: Output>(out: &mut O, n: u64) -> Result<(), Full>
    ensures { Puts O.room O.took out.old (numeral 10 n) (is_ok result) out.new }
{
    put_numeral(out, 10, n)
}
