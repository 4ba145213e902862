//! Why a call is refused. Each refusal has a number, which users look up; 5 is that of a table of characters.
ghost use Rattle.std.specs.Prelude.{◌≡◌};
ghost use Rattle.model.specs.Refusals.{number, of_word};

use words::refusal::Refusal as WordRefusal;

/// Why a call is refused, with the number that users look up.
#[derive(Clone, Copy, PartialEq, Eq, Debug)]
pub enum Refusal {
    /// The new line is not all blank.
    NewLineNotBlank = 1,
    /// The indentor is not all blank.
    IndentorNotBlank = 2,
    /// The separator is not all blank.
    SeparatorNotBlank = 3,
    /// The new line, the indentor or the separator has more than 32 bytes.
    LayoutTooLong = 4,
    /// An argument is not a name.
    InvalidIdentifier = 6,
    /// A text or a name is not UTF-8.
    NotUtf8 = 7,
    /// A number is not a scalar value.
    NotScalar = 8,
    /// An argument is not the text of a float.
    NotFloat = 9,
    /// An argument has more than 65,535 bytes.
    TooLong = 10,
    /// The place has its one value.
    Filled = 11,
    /// What is shown is not the ticket of the innermost frame.
    WrongTicket = 12,
    /// A frame that holds one value is ended without it.
    EndedEmpty = 13,
    /// The document is closed.
    Closed = 14,
    /// A frame is open, or there is no value.
    Unfinished = 15,
    /// More frames would stand around a value than the recursion limit allows.
    ExceededRecursionLimit = 16,
    /// More than 256 frames would be open.
    TooManyFrames = 17,
    /// A frame would have more than 65,535 elements.
    TooManyElements = 18,
    /// The call has more bytes than there is space for.
    NoSpace = 19,
}

impl Refusal {
    /// The number that users look up.
    pub fn number(self) -> u8
        ensures { result ≡ number self }
    {
        self as u8
    }
}

/// What refuses a word refuses the call that writes it.
// Variant by variant: with a word's refusal inside a variant, the numbers would be no discriminants.
impl From<WordRefusal> for Refusal {
    ghost from_gives = { λ e r. r ≡ of_word e };

    fn from(e: WordRefusal) -> Refusal {
        match e {
            WordRefusal::InvalidIdentifier => Refusal::InvalidIdentifier,
            WordRefusal::NotUtf8 => Refusal::NotUtf8,
            WordRefusal::NotScalar => Refusal::NotScalar,
            WordRefusal::NotFloat => Refusal::NotFloat,
            WordRefusal::TooLong => Refusal::TooLong,
            WordRefusal::NoSpace => Refusal::NoSpace,
        }
    }
}
