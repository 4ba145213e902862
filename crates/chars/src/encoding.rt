//! The UTF-8 bytes of one character.
ghost use Rattle.std.specs.Prelude.{◌≡◌};
ghost use Rattle.chars.specs.Encoding.{bytes_of};
ghost use Rattle.chars.specs.Utf8.{encode, low_six};

/// The one to four bytes of a character, held without a heap.
// An array for each width: with one of four bytes a length would have to stand beside it. The library's `encode_utf8` has its
// own definition of these bytes, and here they are those of RFC 3629.
#[derive(Clone, Copy, PartialEq, Eq, Debug)]
pub enum Encoded {
    One([u8; 1]),
    Two([u8; 2]),
    Three([u8; 3]),
    Four([u8; 4]),
}

impl Encoded {
    /// The bytes that UTF-8 (RFC 3629) writes the character with.
    pub fn new(c: char) -> Encoded
        ensures { bytes_of result ≡ encode c }
    {
        let n = u32::from(c);
        if n <= 0x7F {
            Encoded::One([n as u8])
        } else if n <= 0x7FF {
            Encoded::Two([(0xC0 + n / 64) as u8, last_six(n)])
        } else if n <= 0xFFFF {
            Encoded::Three([(0xE0 + n / 4096) as u8, last_six(n / 64), last_six(n)])
        } else {
            Encoded::Four([
                (0xF0 + n / 262144) as u8,
                last_six(n / 4096),
                last_six(n / 64),
                last_six(n),
            ])
        }
    }

    /// These bytes, to read.
    pub fn as_bytes(&self) -> &[u8]
        ensures { result.now ≡ bytes_of self.now }
    {
        match self {
            Encoded::One(s) => s,
            Encoded::Two(s) => s,
            Encoded::Three(s) => s,
            Encoded::Four(s) => s,
        }
    }
}

// The last six bits, as a byte behind the first has them.
fn last_six(n: u32) -> u8
    ensures { result ≡ low_six n }
{
    (0x80 + n % 64) as u8
}
