//! Lines of call scripts: `settings | call`.
use crate::value::{Settings, Value};
use anyhow::{anyhow, ensure};
use inputs::fields::{split_field, split_once};
use inputs::hex::{hex_bytes, hex_number};
use literals::float::Width;
use std::alloc::Global;
use std::str;
use std::str::FromStr;

/// A document of one value, as a line tells it.
#[derive(Drop)]
pub(crate) struct Document {
    pub(crate) settings: Settings,
    /// How many bytes its text may have, if the line says so.
    pub(crate) space: Option<usize>,
    pub(crate) value: Value,
}

// The settings in front of the bar, as they are read. Whether they count is a flag and no Option, since they may come first.
#[derive(Clone, Copy)]
struct Head {
    configured: bool,
    settings: Settings,
    space: Option<usize>,
}

impl Head {
    // No `Default`: texts are escaped unless a setting says otherwise.
    fn new() -> Head {
        Head {
            configured: false,
            settings: Settings {
                escape_strings: true,
                number_suffixes: false,
                struct_names: false,
            },
            space: None,
        }
    }

    // Takes one word in, if it is a setting that is taken so far.
    fn set(&mut self, word: &[u8]) -> anyhow::Result<()> {
        match word {
            b"" => {}
            b"bare" => self.configured = false,
            b"cfg" => self.configured = true,
            b"names" => self.settings.struct_names = true,
            b"noesc" => self.settings.escape_strings = false,
            b"suffix" => self.settings.number_suffixes = true,
            _ => self.space = space_of(word).ok_or_else(|| anyhow!(
                "a setting that is not taken so far"
            ))?,
        }
        Ok(())
    }

    // The settings that count: without a configuration those that only a configuration has are ignored.
    fn counted(self) -> Settings {
        if self.configured {
            self.settings
        } else {
            Head::new().settings
        }
    }
}

// The space that a word tells: a number of bytes, or that there is no bound.
fn space_of(word: &[u8]) -> Option<Option<usize>> {
    match word.strip_prefix(b"space=")? {
        b"none" => Some(None),
        bytes => Some(Some(parsed(bytes)?)),
    }
}

/// The document of a line, or why the line is not taken.
pub(crate) fn document_of(heap: Global, line: &[u8]) -> anyhow::Result<Document> {
    let mut head = Head::new();
    let mut rest = line;
    // No `for` over the words: what stands behind the bar is looked at as a whole.
    while !rest.is_empty() {
        let (word, after) = split_field(rest, b' ');
        if word == b"|".as_slice() {
            let (call, more) = split_field(past_blanks(after), b' ');
            ensure!(past_blanks(more).is_empty(), "more than one call");
            return Ok(Document {
                settings: head.counted(),
                space: head.space,
                value: value_of(heap, call)?,
            });
        }
        head.set(word)?;
        rest = after;
    }
    Err(anyhow!("no bar between settings and calls"))
}

// What is behind the blanks in front.
fn past_blanks(bytes: &[u8]) -> &[u8] {
    let mut rest = bytes;
    while let [b' ', more @ ..] = rest {
        rest = more;
    }
    rest
}

// The value of a call.
fn value_of(heap: Global, call: &[u8]) -> anyhow::Result<Value> {
    let Some((kind, args)) = split_once(call, b':') else {
        ensure!(
            call == b"unit".as_slice(),
            "a call that is not taken so far"
        );
        return Ok(Value::Unit);
    };
    match kind {
        b"bool" => bool_of(one(args)?),
        b"i8" => Ok(Value::I8(number(one(args)?)?)),
        b"i16" => Ok(Value::I16(number(one(args)?)?)),
        b"i32" => Ok(Value::I32(number(one(args)?)?)),
        b"i64" => Ok(Value::I64(number(one(args)?)?)),
        b"u8" => Ok(Value::U8(number(one(args)?)?)),
        b"u16" => Ok(Value::U16(number(one(args)?)?)),
        b"u32" => Ok(Value::U32(number(one(args)?)?)),
        b"u64" => Ok(Value::U64(number(one(args)?)?)),
        b"f32" => Ok(Value::Float(Width::F32, float_text_of(heap, args, 8)?)),
        b"f64" => Ok(Value::Float(Width::F64, float_text_of(heap, args, 16)?)),
        b"char" => char_of(one(args)?),
        b"str" => Ok(Value::Str(text_of(heap, one(args)?)?)),
        b"bytes" => Ok(Value::Bytes(text_of(heap, one(args)?)?)),
        b"ustruct" => Ok(Value::UnitStruct(text_of(heap, one(args)?)?)),
        b"uvar" => variant_of(heap, args),
        _ => Err(anyhow!("a call that is not taken so far")),
    }
}

// The argument of a call that has one.
fn one(args: &[u8]) -> anyhow::Result<&[u8]> {
    ensure!(
        split_once(args, b':').is_none(),
        "a call with more arguments than it has"
    );
    Ok(args)
}

fn bool_of(args: &[u8]) -> anyhow::Result<Value> {
    match args {
        b"0" => Ok(Value::Bool(false)),
        b"1" => Ok(Value::Bool(true)),
        _ => Err(anyhow!("a bool is 0 or 1")),
    }
}

fn char_of(args: &[u8]) -> anyhow::Result<Value> {
    let n = hex_number(args).ok_or_else(|| anyhow!("a character is a number in hexadecimal"))?;
    Ok(Value::Char(n))
}

// Behind the bits in hexadecimal, which are for a program that has floats, stands the text of the float.
fn float_text_of(heap: Global, args: &[u8], most_digits: usize) -> anyhow::Result<Vec<u8>> {
    let (bits, text) = split_field(args, b':');
    ensure!(!text.is_empty(), "a float without its text");
    ensure!(
        !bits.is_empty() && bits.len() <= most_digits && bits.iter().all(|b| b.is_ascii_hexdigit()),
        "the bits of a float are a number in hexadecimal"
    );
    Ok(Vec::from_slice(heap, one(text)?)?)
}

fn variant_of(heap: Global, args: &[u8]) -> anyhow::Result<Value> {
    let (name, variant) = split_once(args, b':').ok_or_else(|| anyhow!(
        "a variant without a name"
    ))?;
    Ok(Value::UnitVariant(text_of(heap, name)?, text_of(heap, one(variant)?)?))
}

// A text: `=` and the text itself, or its bytes in hexadecimal.
fn text_of(heap: Global, arg: &[u8]) -> anyhow::Result<Vec<u8>> {
    if let Some(text) = arg.strip_prefix(b"=") {
        return Ok(Vec::from_slice(heap, text)?);
    }
    hex_bytes(heap, arg)?.ok_or_else(|| anyhow!(
        "a text is = and itself, or pairs of hexadecimal digits"
    ))
}

fn number<N: FromStr>(digits: &[u8]) -> anyhow::Result<N>
where
    N::Err: Drop,
{
    parsed(digits).ok_or_else(|| anyhow!("no number of this type"))
}

fn parsed<N: FromStr>(digits: &[u8]) -> Option<N>
where
    N::Err: Drop,
{
    str::from_utf8(digits).ok()?.parse::<N>().ok()
}
