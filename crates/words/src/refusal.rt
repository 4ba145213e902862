//! Why a word is not written. Each refusal has a number, which users look up.
ghost use Rattle.std.specs.Prelude.{◌≡◌};
ghost use Rattle.words.specs.Refusals.{number, IsText};
ghost use Rattle.words.specs.declared.refusal.Refusal.TheVariants.{NotUtf8, NoSpace};

use chars::text::Text;
use chars::utf8::Malformed;
use output::Full;

/// Why a word is not written, with the number that users look up.
#[derive(Clone, Copy, PartialEq, Eq, Debug)]
pub enum Refusal {
    /// The bytes are not a name.
    InvalidIdentifier = 6,
    /// The bytes are not UTF-8.
    NotUtf8 = 7,
    /// The number is not a scalar value.
    NotScalar = 8,
    /// The bytes are not the text of a float.
    NotFloat = 9,
    /// An argument has more than 65,535 bytes.
    TooLong = 10,
    /// The word has more bytes than there is space for.
    NoSpace = 19,
}

impl Refusal {
    /// The number that users look up.
    pub fn number(self) -> u8
        ensures { result ≡ number self }
    {
        self as u8
    }
}

/// An output that is full has no space for the word.
impl From<Full> for Refusal {
    ghost from_gives = { λ _ r. r ≡ NoSpace };

    fn from(_full: Full) -> Refusal {
        Refusal::NoSpace
    }
}

/// Bytes that are not UTF-8 are no text.
impl From<Malformed> for Refusal {
    ghost from_gives = { λ _ r. r ≡ NotUtf8 };

    fn from(_malformed: Malformed) -> Refusal {
        Refusal::NotUtf8
    }
}

/// The most bytes that an argument may have.
pub const LONGEST: usize = 65535;

/// The text of an argument: not too long, and UTF-8, tested in this order.
pub fn check_text(value: &[u8]) -> Result<Text<'_>, Refusal>
    ensures { IsText value.now result }
{
    if value.len() > LONGEST {
        return Err(Refusal::TooLong);
    }
    Ok(Text::new(value)?)
}
