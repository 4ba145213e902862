//! Integers in plain decimal.
ghost use Rattle.std.specs.Prelude.{◌≡◌, ℕ, ◌^◌, ◌<◌, List, [], ℤ, pos, is_ok, None, unwrap_or, option_copied, codes, unsigned_abs};
ghost use Rattle.output.specs.Puts.{Puts};
ghost use Rattle.words.specs.Writes.{Writes};
ghost use Rattle.literals.specs.Integers.{negative, sign, integer};

use output::{Full, Output};
use words::numeral::put_decimal;
use words::refusal::Refusal;

/// An integer of at most 64 bits.
pub trait Integer {
    /// The number that it is.
    ghost value: { Self → ℤ };

    /// What names its type behind a number.
    ghost suffix: { List ℕ };

    /// The number that it is, which is less than 2^64 away from zero.
    fn to_i128(&self) -> i128
        ensures value { result ≡ value self.now }
        ensures fits { unsigned_abs result < 2 ^ 64 };

    /// What names its type behind a number.
    fn suffix(&self) -> &'static [u8]
        ensures { result.now ≡ suffix };

    /// Whether it is below zero.
    fn is_negative(&self) -> bool
        ensures { result ≡ negative (value self.now) }
    {
        self.to_i128() < 0
    }

    /// Its distance from zero.
    fn magnitude(&self) -> u64
        ensures { result ≡ unsigned_abs (value self.now) }
    {
        self.to_i128().unsigned_abs() as u64
    }
}

// Eight impls alike: each names its own suffix, and an impl that a macro writes has no ghost members. The number is told by a
// method, whose clause names it, and not by a bound `Into<i128>`, which would have to be tied to it by a law.
impl Integer for i8 {
    ghost value = { λ n. n };

    ghost suffix = { codes "i8" };

    fn to_i128(&self) -> i128 {
        i128::from(*self)
    }

    fn suffix(&self) -> &'static [u8] {
        b"i8"
    }
}

impl Integer for i16 {
    ghost value = { λ n. n };

    ghost suffix = { codes "i16" };

    fn to_i128(&self) -> i128 {
        i128::from(*self)
    }

    fn suffix(&self) -> &'static [u8] {
        b"i16"
    }
}

impl Integer for i32 {
    ghost value = { λ n. n };

    ghost suffix = { codes "i32" };

    fn to_i128(&self) -> i128 {
        i128::from(*self)
    }

    fn suffix(&self) -> &'static [u8] {
        b"i32"
    }
}

impl Integer for i64 {
    ghost value = { λ n. n };

    ghost suffix = { codes "i64" };

    fn to_i128(&self) -> i128 {
        i128::from(*self)
    }

    fn suffix(&self) -> &'static [u8] {
        b"i64"
    }
}

impl Integer for u8 {
    ghost value = { λ n. pos n };

    ghost suffix = { codes "u8" };

    fn to_i128(&self) -> i128 {
        i128::from(*self)
    }

    fn suffix(&self) -> &'static [u8] {
        b"u8"
    }
}

impl Integer for u16 {
    ghost value = { λ n. pos n };

    ghost suffix = { codes "u16" };

    fn to_i128(&self) -> i128 {
        i128::from(*self)
    }

    fn suffix(&self) -> &'static [u8] {
        b"u16"
    }
}

impl Integer for u32 {
    ghost value = { λ n. pos n };

    ghost suffix = { codes "u32" };

    fn to_i128(&self) -> i128 {
        i128::from(*self)
    }

    fn suffix(&self) -> &'static [u8] {
        b"u32"
    }
}

impl Integer for u64 {
    ghost value = { λ n. pos n };

    ghost suffix = { codes "u64" };

    fn to_i128(&self) -> i128 {
        i128::from(*self)
    }

    fn suffix(&self) -> &'static [u8] {
        b"u64"
    }
}

fn put_sign<O: Output>(out: &mut O, minus: bool) -> Result<(), Full>
    ensures { Puts O.room O.took out.old (sign minus) (is_ok result) out.new }
{
    if minus { out.put(b"-") } else { Ok(()) }
}

pub(crate) fn put_suffix<O: Output>(out: &mut O, suffix: Option<&[u8]>) -> Result<(), Full>
    ensures { Puts O.room O.took out.old (unwrap_or (option_copied suffix.entry) []) (is_ok result) out.new }
{
    match suffix {
        Some(suffix) => out.put(suffix),
        None => Ok(()),
    }
}

fn put_integer<O: Output, N: Integer>(out: &mut O, n: &N, number_suffixes: bool) -> Result<(), Full>
    ensures { Puts O.room O.took out.old (integer (N.value n.now) number_suffixes N.suffix) (is_ok result) out.new }
{
    put_sign(out, n.is_negative())?;
    put_decimal(out, n.magnitude())?;
    put_suffix(out, number_suffixes.then_some(n.suffix()))
}

/// An integer, with the suffix of its type where number suffixes are on.
// The flag is the writer's setting; the suffix is the type's and stands beside no flag here.
pub fn serialize_integer<O: Output, N: Integer>(
    out: &mut O,
    n: &N,
    number_suffixes: bool,
) -> Result<(), Refusal>
    ensures { Writes O.room O.took None out.old (integer (N.value n.now) number_suffixes N.suffix) result out.new }
{
    put_integer(out, n, number_suffixes)?;
    Ok(())
}
