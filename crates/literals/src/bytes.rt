//! Byte strings.
ghost use Rattle.std.specs.Prelude.{◌≡◌, ◌++◌, is_ok, codes};
ghost use Rattle.std.specs.List.{flat_map};
ghost use Rattle.chars.specs.Texts.{text_bytes};
ghost use Rattle.output.specs.Puts.{Puts};
ghost use Rattle.words.specs.Refusals.{unless};
ghost use Rattle.words.specs.Writes.{Writes};
ghost use Rattle.literals.specs.Bytes.{digit_pair, byte_escape, escaped_byte_str, plain_byte_str, unescaped_or_raw_byte_str, bytes_refusal};

use chars::text::Text;
use output::{Full, Output};
use words::raw::put_unescaped_or_raw_str;
use words::refusal::{LONGEST, Refusal};

// Each byte in two digits, one pair after another: a table, as the project has laid down.
const DIGIT_PAIRS: &[u8; 512] =
    b"000102030405060708090a0b0c0d0e0f101112131415161718191a1b1c1d1e1f202122232425262728292a2b2c2d2e2f303132333435363738393a3b3c3d3e3f404142434445464748494a4b4c4d4e4f505152535455565758595a5b5c5d5e5f606162636465666768696a6b6c6d6e6f707172737475767778797a7b7c7d7e7f808182838485868788898a8b8c8d8e8f909192939495969798999a9b9c9d9e9fa0a1a2a3a4a5a6a7a8a9aaabacadaeafb0b1b2b3b4b5b6b7b8b9babbbcbdbebfc0c1c2c3c4c5c6c7c8c9cacbcccdcecfd0d1d2d3d4d5d6d7d8d9dadbdcdddedfe0e1e2e3e4e5e6e7e8e9eaebecedeeeff0f1f2f3f4f5f6f7f8f9fafbfcfdfeff";

/// A byte in two lower-case hexadecimal digits.
pub fn hex_pair(b: u8) -> [u8; 2]
    ensures { result ≡ digit_pair b }
{
    let at = 2 * b as usize;
    [DIGIT_PAIRS[at], DIGIT_PAIRS[at + 1]]
}

fn put_byte<O: Output>(out: &mut O, b: u8) -> Result<(), Full>
    ensures { Puts O.room O.took out.old (byte_escape b) (is_ok result) out.new }
{
    match b {
        b'\t' => out.put(b"\\t"),
        b'\n' => out.put(b"\\n"),
        b'\r' => out.put(b"\\r"),
        b'"' | b'\'' | b'\\' => out.put(&[b'\\', b]),
        b' '..=b'~' => out.put(&[b]),
        _ => put_pair(out, b),
    }
}

fn put_pair<O: Output>(out: &mut O, b: u8) -> Result<(), Full>
    ensures { Puts O.room O.took out.old (codes "\\x" ++ digit_pair b) (is_ok result) out.new }
{
    out.put(b"\\x")?;
    out.put(&hex_pair(b))
}

fn put_byte_escapes<O: Output>(out: &mut O, bytes: &[u8]) -> Result<(), Full>
    ensures { Puts O.room O.took out.old (flat_map byte_escape bytes.now) (is_ok result) out.new }
{
    for b in bytes {
        put_byte(out, *b)?;
    }
    Ok(())
}

fn put_escaped_byte_str<O: Output>(out: &mut O, bytes: &[u8]) -> Result<(), Full>
    ensures { Puts O.room O.took out.old (escaped_byte_str bytes.now) (is_ok result) out.new }
{
    out.put(b"b\"")?;
    put_byte_escapes(out, bytes)?;
    out.put(b"\"")
}

/// Whether bytes may be a byte string: not too long.
pub fn check_bytes(value: &[u8]) -> Result<(), Refusal>
    ensures { result ≡ unless (bytes_refusal value.now) tt }
{
    if value.len() > LONGEST {
        Err(Refusal::TooLong)
    } else {
        Ok(())
    }
}

/// An escaped byte string.
pub fn serialize_escaped_byte_str<O: Output>(out: &mut O, value: &[u8]) -> Result<(), Refusal>
    ensures { Writes O.room O.took (bytes_refusal value.now) out.old (escaped_byte_str value.now) result out.new }
{
    check_bytes(value)?;
    put_escaped_byte_str(out, value)?;
    Ok(())
}

// A text, like text without escapes.
fn put_plain_byte_str<O: Output>(out: &mut O, text: Text) -> Result<(), Full>
    ensures { Puts O.room O.took out.old (plain_byte_str (text_bytes text.entry)) (is_ok result) out.new }
{
    out.put(b"b")?;
    put_unescaped_or_raw_str(out, text)
}

/// A byte string without escapes where it is UTF-8, else an escaped one.
pub fn serialize_unescaped_or_raw_byte_str<O: Output>(
    out: &mut O,
    value: &[u8],
) -> Result<(), Refusal>
    ensures { Writes O.room O.took (bytes_refusal value.now) out.old (unescaped_or_raw_byte_str value.now) result out.new }
{
    check_bytes(value)?;
    match Text::new(value) {
        Ok(text) => put_plain_byte_str(out, text)?,
        Err(_) => put_escaped_byte_str(out, value)?,
    }
    Ok(())
}
