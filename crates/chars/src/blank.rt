//! The characters that may stand between the tokens of a RON text.
ghost use Rattle.std.specs.Prelude.{◌≡◌};
ghost use Rattle.chars.specs.Blanks.{blank};

/// Whether the character is a blank: one of the eleven of Unicode's Pattern_White_Space (UAX #31).
pub fn is_whitespace_char(c: char) -> bool
    ensures { result ≡ blank c }
{
    matches!(
        c,
        ' ' | '\t'
            | '\n'
            | '\x0B'
            | '\x0C'
            | '\r'
            | '\u{85}'
            | '\u{200E}'
            | '\u{200F}'
            | '\u{2028}'
            | '\u{2029}'
    )
}
