//! Classes of characters, and texts that are of one class throughout.
ghost use Rattle.std.specs.Prelude.{◌≡◌};
ghost use Rattle.chars.specs.Texts.{characters};
ghost use Rattle.words.specs.Classes.{all, in_class, text_of};

use chars::table::CharTable;
use chars::text::Text;
use chars::utf8::Scalars;

/// A class of characters, by what they may be in a RON text.
// An enum and no closure that tests a character: contracts name the class.
#[derive(Clone, Copy, PartialEq, Eq, Debug)]
pub enum Class {
    /// Stands for itself in an escaped text.
    Plain,
    /// Goes on in a bare name.
    Continue,
    /// Stands in a name behind `r#`.
    Raw,
}

impl Class {
    // Whether a character is of the class.
    fn holds<T: CharTable>(self, table: &T, c: char) -> bool
        ensures { result ≡ in_class (T.continues table.now) (T.shown table.now) self c }
    {
        match self {
            Class::Plain => table.is_shown(c) && !matches!(c, '"' | '\'' | '\\'),
            Class::Continue => table.is_xid_continue(c),
            Class::Raw => table.is_xid_continue(c) || matches!(c, '.' | '+' | '-'),
        }
    }
}

/// Whether bytes are UTF-8, and all of their characters of one class.
// In one pass, which stops at the first character of another class: to make a `Text` of the bytes all of them are read first.
pub fn is_text_of<T: CharTable>(table: &T, class: Class, text: &[u8]) -> bool
    ensures { result ≡ text_of (in_class (T.continues table.now) (T.shown table.now) class) text.now }
{
    let mut cursor = Scalars::new(text);
    loop {
        match cursor.step() {
            Ok(Some(c)) => {
                if !class.holds(table, c) {
                    return false;
                }
            }
            Ok(None) => return true,
            Err(_) => return false,
        }
    }
}

// Whether all characters of a text are of one class.
pub(crate) fn is_all_of<T: CharTable>(table: &T, class: Class, text: Text) -> bool
    ensures { result ≡ all (in_class (T.continues table.now) (T.shown table.now) class) (characters text.entry) }
{
    text.chars().all(|c| class.holds(table, c))
}
