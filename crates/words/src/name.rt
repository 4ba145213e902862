//! Names, bare or behind `r#`.
ghost use Rattle.std.specs.Prelude.{◌≡◌, is_ok};
ghost use Rattle.chars.specs.Texts.{characters};
ghost use Rattle.chars.specs.Utf8.{decoded};
ghost use Rattle.output.specs.Puts.{Puts};
ghost use Rattle.words.specs.Names.{reserved, name, first_char, bare, form, formed, identifier};
ghost use Rattle.words.specs.Inner.{IsName};
ghost use Rattle.words.specs.Refusals.{unless, name_refusal};
ghost use Rattle.words.specs.Writes.{Writes};

use crate::class::{Class, is_all_of};
use crate::refusal::{Refusal, check_text};
use chars::table::CharTable;
use chars::text::Text;
use output::{Full, Output};

/// How a name stands in a RON text.
#[derive(Clone, Copy, PartialEq, Eq, Debug)]
pub enum Form {
    /// As it is.
    Bare,
    /// Behind `r#`.
    Raw,
}

/// Accepts a name: bytes that are not empty, and of continue characters, `.`, `+` and `-`.
pub fn validate_identifier<T: CharTable>(table: &T, name: &[u8]) -> Result<(), Refusal>
    ensures { result ≡ unless (name_refusal (T.continues table.now) name.now) tt }
{
    check_name(table, name)?;
    Ok(())
}

// The text of a name.
fn check_name<'a, T: CharTable>(table: &T, name: &'a [u8]) -> Result<Text<'a>, Refusal>
    ensures { IsName (T.continues table.now) name.now result }
{
    let text = check_text(name)?;
    if is_name(table, text) {
        Ok(text)
    } else {
        Err(Refusal::InvalidIdentifier)
    }
}

fn is_name<T: CharTable>(table: &T, text: Text) -> bool
    ensures { result ≡ name (T.continues table.now) (characters text.entry) }
{
    !text.as_bytes().is_empty() && is_all_of(table, Class::Raw, text)
}

// The words that mean something else than a name. A pattern binds the first byte and the rest, as the project has laid down.
fn is_reserved(name: &[u8]) -> bool
    ensures { result ≡ reserved name.now }
{
    let [first, rest @ ..] = name else {
        return false;
    };
    match first {
        b't' => matches!(rest, b"rue"),
        b'f' => matches!(rest, b"alse"),
        b'S' => matches!(rest, b"ome"),
        b'N' => matches!(rest, b"one" | b"aN" | b"aNf32" | b"aNf64"),
        b'i' => matches!(rest, b"nf" | b"nff32" | b"nff64"),
        _ => false,
    }
}

// Whether a name stands as it is: begun by an underscore or a start character, and not reserved.
fn is_bare<T: CharTable>(table: &T, name: Text) -> bool
    ensures { result ≡ bare (T.starts table.now) (T.continues table.now) (characters name.entry) }
{
    // As `is_some_and` the proof did not close: it does not learn what a closure of three tests gives.
    match name.split_first() {
        Some((c, rest)) => {
            is_first(table, c)
                && is_all_of(table, Class::Continue, rest)
                && !is_reserved(name.as_bytes())
        }
        None => false,
    }
}

fn is_first<T: CharTable>(table: &T, c: char) -> bool
    ensures { result ≡ first_char (T.starts table.now) c }
{
    c == '_' || table.is_xid_start(c)
}

/// How a name stands, or why it is none.
pub fn identifier_form<T: CharTable>(table: &T, name: &[u8]) -> Result<Form, Refusal>
    ensures { result ≡ unless (name_refusal (T.continues table.now) name.now) (form (T.starts table.now) (T.continues table.now) (decoded name.now)) }
{
    let text = check_name(table, name)?;
    if is_bare(table, text) {
        Ok(Form::Bare)
    } else {
        Ok(Form::Raw)
    }
}

fn put_formed<O: Output>(out: &mut O, form: Form, name: &[u8]) -> Result<(), Full>
    ensures { Puts O.room O.took out.old (formed form name.now) (is_ok result) out.new }
{
    match form {
        Form::Bare => out.put(name),
        Form::Raw => {
            out.put(b"r#")?;
            out.put(name)
        }
    }
}

/// Writes a name, bare or behind `r#`.
pub fn write_identifier<O: Output, T: CharTable>(
    out: &mut O,
    table: &T,
    name: &[u8],
) -> Result<(), Refusal>
    ensures { Writes O.room O.took (name_refusal (T.continues table.now) name.now) out.old (identifier (T.starts table.now) (T.continues table.now) (decoded name.now)) result out.new }
{
    let form = identifier_form(table, name)?;
    put_formed(out, form, name)?;
    Ok(())
}
