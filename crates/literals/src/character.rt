//! A character in single quotes.
ghost use Rattle.std.specs.Prelude.{is_ok};
ghost use Rattle.output.specs.Puts.{Puts};
ghost use Rattle.words.specs.Writes.{Writes};
ghost use Rattle.literals.specs.Characters.{char_body, character, char_refusal};

use chars::encoding::Encoded;
use output::{Full, Output};
use words::refusal::Refusal;

fn put_char_body<O: Output>(out: &mut O, c: char) -> Result<(), Full>
    ensures { Puts O.room O.took out.old (char_body c) (is_ok result) out.new }
{
    match c {
        '\'' => out.put(b"\\'"),
        '\\' => out.put(b"\\\\"),
        _ => out.put(Encoded::new(c).as_bytes()),
    }
}

fn put_char<O: Output>(out: &mut O, c: char) -> Result<(), Full>
    ensures { Puts O.room O.took out.old (character c) (is_ok result) out.new }
{
    out.put(b"'")?;
    put_char_body(out, c)?;
    out.put(b"'")
}

/// A character in single quotes, from its number.
pub fn serialize_char<O: Output>(out: &mut O, value: u32) -> Result<(), Refusal>
    ensures { Writes O.room O.took (char_refusal value) out.old (character value) result out.new }
{
    let c = char::from_u32(value).ok_or(Refusal::NotScalar)?;
    put_char(out, c)?;
    Ok(())
}
