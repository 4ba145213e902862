//! A document of one value that opens no frame.
ghost use Rattle.std.specs.Prelude.{cond, None, codes};
ghost use Rattle.chars.specs.Utf8.{decoded};
ghost use Rattle.literals.specs.Bytes.{bytes_refusal, escaped_byte_str, unescaped_or_raw_byte_str};
ghost use Rattle.output.specs.Usable.{usable};
ghost use Rattle.words.specs.Escapes.{escaped_str};
ghost use Rattle.words.specs.Names.{identifier};
ghost use Rattle.words.specs.RawText.{unescaped_or_raw_str};
ghost use Rattle.words.specs.Refusals.{first_refusal, text_refusal, name_refusal};
ghost use Rattle.words.specs.Whole.{refused_or_short, Shown};
ghost use Rattle.words.specs.Writes.{Writes};
ghost use Rattle.replay.specs.Values.{value_text, value_refusal};

use chars::table::CharTable;
use literals::bytes::{serialize_escaped_byte_str, serialize_unescaped_or_raw_byte_str};
use literals::character::serialize_char;
use literals::float::{Width, serialize_float};
use literals::integer::serialize_integer;
use output::Output;
use output::buffer::Buffer;
use words::name::{validate_identifier, write_identifier};
use words::raw::serialize_unescaped_or_raw_str;
use words::refusal::Refusal;
use words::text::serialize_escaped_str;

/// What the words of a value depend on.
#[derive(Clone, Copy, PartialEq, Eq, Debug)]
pub struct Settings {
    /// Whether texts and byte strings are escaped.
    pub escape_strings: bool,
    /// Whether the type of a number stands behind it.
    pub number_suffixes: bool,
    /// Whether the name of a struct is written.
    pub struct_names: bool,
}

/// A value that opens no frame. Floats, texts and names are bytes as they came.
#[derive(Drop)]
pub enum Value {
    Bool(bool),
    // A variant for each type of integer: the type says which numbers fit and what suffix they have.
    I8(i8),
    I16(i16),
    I32(i32),
    I64(i64),
    U8(u8),
    U16(u16),
    U32(u32),
    U64(u64),
    Float(Width, Vec<u8>),
    Char(u32),
    Str(Vec<u8>),
    Bytes(Vec<u8>),
    Unit,
    UnitStruct(Vec<u8>),
    UnitVariant(Vec<u8>, Vec<u8>),
}

// The output and the table are two parameters here and below, as they are of the words, and a setting is a flag with no value
// beside it.
fn put_text<O: Output, T: CharTable>(
    out: &mut O,
    table: &T,
    escape_strings: bool,
    value: &[u8],
) -> Result<(), Refusal>
    ensures { Writes O.room O.took (text_refusal value.now) out.old (cond escape_strings (escaped_str (T.shown table.now) (decoded value.now)) (unescaped_or_raw_str (decoded value.now))) result out.new }
{
    if escape_strings {
        serialize_escaped_str(out, table, value)
    } else {
        serialize_unescaped_or_raw_str(out, value)
    }
}

fn put_bytes<O: Output>(out: &mut O, escape_strings: bool, value: &[u8]) -> Result<(), Refusal>
    ensures { Writes O.room O.took (bytes_refusal value.now) out.old (cond escape_strings (escaped_byte_str value.now) (unescaped_or_raw_byte_str value.now)) result out.new }
{
    if escape_strings {
        serialize_escaped_byte_str(out, value)
    } else {
        serialize_unescaped_or_raw_byte_str(out, value)
    }
}

// The name of a unit struct, or the unit once the name is checked.
fn put_unit_struct<O: Output, T: CharTable>(
    out: &mut O,
    table: &T,
    struct_names: bool,
    name: &[u8],
) -> Result<(), Refusal>
    ensures { Writes O.room O.took (name_refusal (T.continues table.now) name.now) out.old (cond struct_names (identifier (T.starts table.now) (T.continues table.now) (decoded name.now)) (codes "()")) result out.new }
{
    if struct_names {
        write_identifier(out, table, name)
    } else {
        validate_identifier(table, name)?;
        out.put(b"()")?;
        Ok(())
    }
}

// The variant's name once the type's is checked.
fn put_unit_variant<O: Output, T: CharTable>(
    out: &mut O,
    table: &T,
    name: &[u8],
    variant: &[u8],
) -> Result<(), Refusal>
    ensures { Writes O.room O.took (first_refusal (name_refusal (T.continues table.now) name.now) (name_refusal (T.continues table.now) variant.now)) out.old (identifier (T.starts table.now) (T.continues table.now) (decoded variant.now)) result out.new }
{
    validate_identifier(table, name)?;
    write_identifier(out, table, variant)
}

// The words that stand for themselves.
fn put_plain<O: Output>(out: &mut O, word: &[u8]) -> Result<(), Refusal>
    ensures { Writes O.room O.took None out.old word.now result out.new }
{
    out.put(word)?;
    Ok(())
}

fn put_value<O: Output, T: CharTable>(
    out: &mut O,
    table: &T,
    settings: Settings,
    value: &Value,
) -> Result<(), Refusal>
    ensures { Writes O.room O.took (value_refusal (T.starts table.now) (T.continues table.now) (T.shown table.now) settings value.now) out.old (value_text (T.starts table.now) (T.continues table.now) (T.shown table.now) settings value.now) result out.new }
{
    let suffixes = settings.number_suffixes;
    match value {
        Value::Bool(false) => put_plain(out, b"false"),
        Value::Bool(true) => put_plain(out, b"true"),
        Value::I8(n) => serialize_integer(out, n, suffixes),
        Value::I16(n) => serialize_integer(out, n, suffixes),
        Value::I32(n) => serialize_integer(out, n, suffixes),
        Value::I64(n) => serialize_integer(out, n, suffixes),
        Value::U8(n) => serialize_integer(out, n, suffixes),
        Value::U16(n) => serialize_integer(out, n, suffixes),
        Value::U32(n) => serialize_integer(out, n, suffixes),
        Value::U64(n) => serialize_integer(out, n, suffixes),
        Value::Float(width, s) => serialize_float(out, s.as_slice(), *width, suffixes),
        Value::Char(n) => serialize_char(out, *n),
        Value::Str(s) => put_text(out, table, settings.escape_strings, s.as_slice()),
        Value::Bytes(s) => put_bytes(out, settings.escape_strings, s.as_slice()),
        Value::Unit => put_plain(out, b"()"),
        Value::UnitStruct(name) => put_unit_struct(
            out,
            table,
            settings.struct_names,
            name.as_slice(),
        ),
        Value::UnitVariant(name, variant) => put_unit_variant(
            out,
            table,
            name.as_slice(),
            variant.as_slice(),
        ),
    }
}

/// The text of a value, written at the front of the memory and shown as a part of it.
pub fn shown_value<'m, T: CharTable>(
    memory: &'m mut [u8],
    table: &T,
    settings: Settings,
    value: &Value,
) -> Result<&'m [u8], Refusal>
    ensures { let text = value_text (T.starts table.now) (T.continues table.now) (T.shown table.now) settings value.now in Shown (refused_or_short (value_refusal (T.starts table.now) (T.continues table.now) (T.shown table.now) settings value.now) text (usable memory.old)) text result }
{
    let mut buffer = Buffer::new(memory);
    put_value(&mut buffer, table, settings, value)?;
    Ok(buffer.into_text())
}
