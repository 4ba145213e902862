//! Text in double quotes, with escapes.
ghost use Rattle.std.specs.Prelude.{◌≡◌, ◌≤◌, ◌++◌, length, is_ok};
ghost use Rattle.chars.specs.Texts.{characters, text_bytes};
ghost use Rattle.chars.specs.Utf8.{decoded};
ghost use Rattle.output.specs.Puts.{Puts};
ghost use Rattle.words.specs.Escapes.{escape, code, escapes, escaped_str};
ghost use Rattle.words.specs.Inner.{written};
ghost use Rattle.words.specs.Refusals.{text_refusal};
ghost use Rattle.words.specs.Writes.{Writes};

use crate::numeral::put_numeral;
use crate::refusal::{Refusal, check_text};
use chars::encoding::Encoded;
use chars::table::CharTable;
use chars::text::Text;
use output::{Full, Output};

// How a character is written in an escaped text.
#[derive(Clone, Copy, PartialEq, Eq, Debug)]
enum Escape {
    // as it is
    Plain,
    // a backslash and this byte
    Short(u8),
    // `\u{..}` around its number
    Code,
}

// Which of them it is.
fn escape_of<T: CharTable>(table: &T, c: char) -> Escape
    ensures { written result c ≡ escape (T.shown table.now) c }
{
    match c {
        '\0' => Escape::Short(b'0'),
        '\t' => Escape::Short(b't'),
        '\n' => Escape::Short(b'n'),
        '\r' => Escape::Short(b'r'),
        '"' => Escape::Short(b'"'),
        '\'' => Escape::Short(b'\''),
        '\\' => Escape::Short(b'\\'),
        // Every table shows the printable characters of ASCII, so they are told without asking it.
        ' '..='~' => Escape::Plain,
        c if table.is_shown(c) => Escape::Plain,
        _ => Escape::Code,
    }
}

// `\u{h}`, with the character's number.
fn put_code<O: Output>(out: &mut O, c: char) -> Result<(), Full>
    ensures { Puts O.room O.took out.old (code c) (is_ok result) out.new }
{
    out.put(b"\\u{")?;
    put_numeral(out, 16, u64::from(c))?;
    out.put(b"}")
}

fn put_escape<O: Output>(out: &mut O, c: char, escape: Escape) -> Result<(), Full>
    ensures { Puts O.room O.took out.old (written escape c) (is_ok result) out.new }
{
    match escape {
        Escape::Plain => out.put(Encoded::new(c).as_bytes()),
        Escape::Short(b) => out.put(&[b'\\', b]),
        Escape::Code => put_code(out, c),
    }
}

// The front of a text that stands for itself, so that it can be put out in one piece, and what is left to escape.
fn split_plain<'a, T: CharTable>(table: &T, text: Text<'a>) -> (&'a [u8], Text<'a>)
    ensures parts { escapes (T.shown table.now) (characters text.entry) ≡ result.0.now ++ escapes (T.shown table.now) (characters result.1) }
    ensures bound { length (text_bytes result.1) ≤ length (text_bytes text.entry) }
{
    let mut rest = text;
    while let Some((c, after)) = rest.split_first() {
        match escape_of(table, c) {
            Escape::Plain => rest = after,
            _ => break,
        }
    }
    let bytes = text.as_bytes();
    (&bytes[..bytes.len() - rest.as_bytes().len()], rest)
}

// Each character as it is or escaped, without the quotes around them.
fn put_escapes<O: Output, T: CharTable>(out: &mut O, table: &T, text: Text) -> Result<(), Full>
    ensures { Puts O.room O.took out.old (escapes (T.shown table.now) (characters text.entry)) (is_ok result) out.new }
{
    let mut rest = text;
    loop {
        let (plain, after) = split_plain(table, rest);
        out.put(plain)?;
        let Some((c, behind)) = after.split_first() else {
            return Ok(());
        };
        put_escape(out, c, escape_of(table, c))?;
        rest = behind;
    }
}

/// Writes text in double quotes, with an escape for each quote, each backslash and each character that the table does not show.
pub fn serialize_escaped_str<O: Output, T: CharTable>(
    out: &mut O,
    table: &T,
    value: &[u8],
) -> Result<(), Refusal>
    ensures { Writes O.room O.took (text_refusal value.now) out.old (escaped_str (T.shown table.now) (decoded value.now)) result out.new }
{
    let text = check_text(value)?;
    put_escaped_str(out, table, text)?;
    Ok(())
}

fn put_escaped_str<O: Output, T: CharTable>(out: &mut O, table: &T, text: Text) -> Result<(), Full>
    ensures { Puts O.room O.took out.old (escaped_str (T.shown table.now) (characters text.entry)) (is_ok result) out.new }
{
    out.put(b"\"")?;
    put_escapes(out, table, text)?;
    out.put(b"\"")
}
