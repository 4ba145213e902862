//! Text without escapes: quoted as it is, or raw between hashes.
ghost use Rattle.std.specs.Prelude.{◌≡◌, replicate, is_ok};
ghost use Rattle.chars.specs.Texts.{characters};
ghost use Rattle.chars.specs.Utf8.{decoded};
ghost use Rattle.output.specs.Puts.{Puts};
ghost use Rattle.words.specs.RawText.{hash, longest_hashes, holds_quote, quoted, fenced, unescaped_or_raw_str};
ghost use Rattle.words.specs.Refusals.{text_refusal};
ghost use Rattle.words.specs.Writes.{Writes};

use crate::refusal::{Refusal, check_text};
use chars::text::Text;
use output::{Full, Output};

// Whether a double quote or a backslash stands in the text.
fn has_quote(text: &[u8]) -> bool
    ensures { result ≡ holds_quote text.now }
{
    text.iter().any(|b| matches!(b, b'"' | b'\\'))
}

// The longest run of hashes anywhere in the text. Counted byte by byte: the parts between other bytes took up to three quarters
// more time where hashes and other bytes are mixed.
fn count_hashes(text: &[u8]) -> usize
    ensures { result ≡ longest_hashes text.now }
{
    let mut run = 0usize;
    let mut longest = 0usize;
    for b in text {
        run = if *b == b'#' { run + 1 } else { 0 };
        longest = longest.max(run);
    }
    longest
}

fn put_hashes<O: Output>(out: &mut O, n: usize) -> Result<(), Full>
    ensures { Puts O.room O.took out.old (replicate n hash) (is_ok result) out.new }
{
    for _ in 0..n {
        out.put(b"#")?;
    }
    Ok(())
}

fn put_quoted<O: Output>(out: &mut O, bytes: &[u8]) -> Result<(), Full>
    ensures { Puts O.room O.took out.old (quoted bytes.now) (is_ok result) out.new }
{
    out.put(b"\"")?;
    out.put(bytes)?;
    out.put(b"\"")
}

// One hash more on each side than any run of them inside, so that no quote inside ends the text.
fn put_fenced<O: Output>(out: &mut O, bytes: &[u8]) -> Result<(), Full>
    ensures { Puts O.room O.took out.old (fenced (longest_hashes bytes.now) bytes.now) (is_ok result) out.new }
{
    let inside = count_hashes(bytes);
    out.put(b"#")?;
    put_hashes(out, inside)?;
    put_quoted(out, bytes)?;
    out.put(b"#")?;
    put_hashes(out, inside)
}

/// Puts out a text without escapes: raw where it holds a double quote or a backslash, else in double quotes as it is.
pub fn put_unescaped_or_raw_str<O: Output>(out: &mut O, text: Text) -> Result<(), Full>
    ensures { Puts O.room O.took out.old (unescaped_or_raw_str (characters text.entry)) (is_ok result) out.new }
{
    let bytes = text.as_bytes();
    if has_quote(bytes) {
        out.put(b"r")?;
        put_fenced(out, bytes)
    } else {
        put_quoted(out, bytes)
    }
}

/// Writes text without escapes: raw where it holds a double quote or a backslash, else in double quotes as it is.
pub fn serialize_unescaped_or_raw_str<O: Output>(out: &mut O, value: &[u8]) -> Result<(), Refusal>
    ensures { Writes O.room O.took (text_refusal value.now) out.old (unescaped_or_raw_str (decoded value.now)) result out.new }
{
    let text = check_text(value)?;
    put_unescaped_or_raw_str(out, text)?;
    Ok(())
}
