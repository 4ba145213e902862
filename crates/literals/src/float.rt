//! Floats, which arrive as text.
ghost use Rattle.std.specs.Prelude.{◌≡◌, [], ◌++◌, is_ok, unwrap_or, option_copied};
ghost use Rattle.output.specs.Puts.{Puts};
ghost use Rattle.words.specs.Refusals.{unless};
ghost use Rattle.words.specs.Writes.{Writes};
ghost use Rattle.literals.specs.Floats.{past_digits, digits, exponent, fraction_end, fraction, behind_integer, decimal, unsigned, float_text, float_suffix, float_refusal, float};

use crate::bytes::check_bytes;
use crate::integer::put_suffix;
use output::{Full, Output};
use words::refusal::Refusal;

// What is behind the digits in front.
fn past_digits(s: &[u8]) -> &[u8]
    ensures { result.now ≡ past_digits s.now }
{
    let mut rest = s;
    while let [b'0'..=b'9', more @ ..] = rest {
        rest = more;
    }
    rest
}

// Nothing but digits, and at least one.
fn is_digits(s: &[u8]) -> bool
    ensures { result ≡ digits s.now }
{
    match s {
        [b'0'..=b'9', rest @ ..] => past_digits(rest).is_empty(),
        _ => false,
    }
}

// Behind the `e`: an optional minus, and digits.
fn is_exponent(s: &[u8]) -> bool
    ensures { result ≡ exponent s.now }
{
    is_digits(s.strip_prefix(b"-").unwrap_or(s))
}

// Behind the digits of a fraction: the end, or `e` and an exponent.
fn is_fraction_end(s: &[u8]) -> bool
    ensures { result ≡ fraction_end s.now }
{
    match s {
        [] => true,
        [b'e', rest @ ..] => is_exponent(rest),
        _ => false,
    }
}

// Behind the point: digits, and then that.
fn is_fraction(s: &[u8]) -> bool
    ensures { result ≡ fraction s.now }
{
    match s {
        [b'0'..=b'9', rest @ ..] => is_fraction_end(past_digits(rest)),
        _ => false,
    }
}

// Behind the digits before the point: a point and a fraction, or `e` and an exponent.
fn is_behind_integer(s: &[u8]) -> bool
    ensures { result ≡ behind_integer s.now }
{
    match s {
        [b'.', rest @ ..] => is_fraction(rest),
        [b'e', rest @ ..] => is_exponent(rest),
        _ => false,
    }
}

// A zero alone, or digits that do not begin with one, and what has to follow.
fn is_decimal(s: &[u8]) -> bool
    ensures { result ≡ decimal s.now }
{
    match s {
        [b'0', rest @ ..] => is_behind_integer(rest),
        [b'1'..=b'9', rest @ ..] => is_behind_integer(past_digits(rest)),
        _ => false,
    }
}

fn is_unsigned(s: &[u8]) -> bool
    ensures { result ≡ unsigned s.now }
{
    matches!(s, b"NaN" | b"inf") || is_decimal(s)
}

/// Whether bytes are the text of a float.
pub fn is_float(s: &[u8]) -> bool
    ensures { result ≡ float_text s.now }
{
    match s {
        [b'-', rest @ ..] => is_unsigned(rest),
        _ => is_unsigned(s),
    }
}

/// The width of a float, which its suffix names.
#[derive(Clone, Copy, PartialEq, Eq, Debug)]
pub enum Width {
    /// 32 bits.
    F32,
    /// 64 bits.
    F64,
}

impl Width {
    /// What names the width behind a number.
    pub fn suffix(self) -> &'static [u8]
        ensures { result.now ≡ float_suffix self }
    {
        match self {
            Width::F32 => b"f32",
            Width::F64 => b"f64",
        }
    }
}

/// Whether bytes are not too long and the text of a float, tested in this order.
pub fn check_float(text: &[u8]) -> Result<(), Refusal>
    ensures { result ≡ unless (float_refusal text.now) tt }
{
    check_bytes(text)?;
    if is_float(text) {
        Ok(())
    } else {
        Err(Refusal::NotFloat)
    }
}

fn put_float<O: Output>(out: &mut O, text: &[u8], suffix: Option<&[u8]>) -> Result<(), Full>
    ensures { Puts O.room O.took out.old (text.now ++ unwrap_or (option_copied suffix.entry) []) (is_ok result) out.new }
{
    out.put(text)?;
    put_suffix(out, suffix)
}

/// A float from its text, with the suffix of its width where number suffixes are on.
// The flag is the writer's setting; the suffix is the width's and stands beside no flag here.
pub fn serialize_float<O: Output>(
    out: &mut O,
    text: &[u8],
    width: Width,
    number_suffixes: bool,
) -> Result<(), Refusal>
    ensures { Writes O.room O.took (float_refusal text.now) out.old (float number_suffixes (float_suffix width) text.now) result out.new }
{
    check_float(text)?;
    let suffix = number_suffixes.then_some(width.suffix());
    put_float(out, text, suffix)?;
    Ok(())
}
