//! Strict UTF-8, as RFC 3629 has it: a cursor that hands out the scalar values of bytes.
ghost use Rattle.std.specs.Prelude.{◌≡◌, ◌≤◌, length, if◌then◌else◌, Some, None};
ghost use Rattle.chars.specs.Utf8.{scalar, tail, two_bytes, three_bytes, four_bytes, of_two, of_three, of_four, Front, DecodingIsExact};

/// Bytes are not UTF-8.
#[derive(Clone, Copy, PartialEq, Eq, Debug)]
pub struct Malformed {
    /// The place of the first byte at which no scalar value begins.
    pub at: usize,
}

/// A cursor over bytes, which hands out the scalar values that they spell.
#[derive(Clone, Copy)]
pub struct Scalars<'a> {
    // What is left of the bytes.
    rest: &'a [u8],
    // How many there were: a number beside the slice, since of what has been read only the length is asked for.
    len: usize,
    ghost within: { length rest.now ≤ len },
}

impl<'a> Scalars<'a> {
    ghost use Rattle.chars.specs.Cursor.{left, position, Steps};

    /// A cursor at the first of the bytes.
    pub fn new(bytes: &'a [u8]) -> Scalars<'a>
        ensures rest { left result ≡ bytes.now }
        ensures len { result.len ≡ length bytes.now }
    {
        Scalars {
            rest: bytes,
            len: bytes.len(),
        }
    }

    /// How many bytes have been read.
    pub fn position(&self) -> usize
        ensures { result ≡ position self.now }
    {
        self.len - self.rest.len()
    }

    /// The bytes that are still to be read.
    pub fn rest(&self) -> &'a [u8]
        ensures { result.now ≡ left self.now }
    {
        self.rest
    }

    /// Reads the next scalar value, if there is one more, and passes over its bytes. At malformed bytes and at the end
    /// the cursor stays.
    pub fn step(&mut self) -> Result<Option<char>, Malformed>
        ensures { Steps self.old result self.new }
    {
        match front(self.rest) {
            Some((c, width)) => {
                self.rest = &self.rest[width..];
                Ok(Some(c))
            }
            None if self.rest.is_empty() => Ok(None),
            None => Err(Malformed {
                at: self.position(),
            }),
        }
    }
}

/// A theorem: what decodes is scalar values whose bytes these are, the bytes of scalar values decode to them,
/// and so no bytes spell two lists of scalar values. The function does nothing; its contract is the theorem.
pub fn decoding_is_exact()
    ensures { DecodingIsExact }
{}

// A byte behind the first of a sequence.
fn is_tail(b: u8) -> bool
    ensures { result ≡ tail b }
{
    matches!(b, 0x80..=0xBF)
}

// One function for each width here and below, as the format's own table has a row for each: with the width as a parameter
// the rows would have to be told apart again inside. The subtractions stop at 0, as those of the definitions do.
fn is_two(a: u8, b: u8) -> bool
    ensures { result ≡ two_bytes a b }
{
    0xC2 <= a && a <= 0xDF && is_tail(b)
}

fn is_three(a: u8, b: u8, c: u8) -> bool
    ensures { result ≡ three_bytes a b c }
{
    match a {
        0xE0 => 0xA0 <= b && b <= 0xBF && is_tail(c),
        0xED => 0x80 <= b && b <= 0x9F && is_tail(c),
        0xE1..=0xEF => is_tail(b) && is_tail(c),
        _ => false,
    }
}

fn is_four(a: u8, b: u8, c: u8, d: u8) -> bool
    ensures { result ≡ four_bytes a b c d }
{
    match a {
        0xF0 => 0x90 <= b && b <= 0xBF && is_tail(c) && is_tail(d),
        0xF1..=0xF3 => is_tail(b) && is_tail(c) && is_tail(d),
        0xF4 => 0x80 <= b && b <= 0x8F && is_tail(c) && is_tail(d),
        _ => false,
    }
}

// A number with its width, if it is a scalar value.
fn spelled(code: u32, width: usize) -> Option<(char, usize)>
    ensures { result ≡ (if scalar code then Some (code, width) else None) }
{
    char::from_u32(code).map(|c| (c, width))
}

// The scalar value that the bytes begin with, and how many bytes it has.
pub(crate) fn front(bytes: &[u8]) -> Option<(char, usize)>
    ensures { Front bytes.now result }
{
    match bytes {
        [a, ..] if *a <= 0x7F => spelled(u32::from(*a), 1),
        [a, b, ..] if is_two(*a, *b) => spelled(from_two(*a, *b), 2),
        [a, b, c, ..] if is_three(*a, *b, *c) => spelled(from_three(*a, *b, *c), 3),
        [a, b, c, d, ..] if is_four(*a, *b, *c, *d) => spelled(from_four(*a, *b, *c, *d), 4),
        _ => None,
    }
}

fn from_two(a: u8, b: u8) -> u32
    ensures { result ≡ of_two a b }
{
    u32::from(a.saturating_sub(0xC0)) * 64 + u32::from(b.saturating_sub(0x80))
}

fn from_three(a: u8, b: u8, c: u8) -> u32
    ensures { result ≡ of_three a b c }
{
    u32::from(a.saturating_sub(0xE0)) * 4096
        + u32::from(b.saturating_sub(0x80)) * 64
        + u32::from(c.saturating_sub(0x80))
}

fn from_four(a: u8, b: u8, c: u8, d: u8) -> u32
    ensures { result ≡ of_four a b c d }
{
    u32::from(a.saturating_sub(0xF0)) * 262144
        + u32::from(b.saturating_sub(0x80)) * 4096
        + u32::from(c.saturating_sub(0x80)) * 64
        + u32::from(d.saturating_sub(0x80))
}
