//! Examples: what a word gives in a little memory.
use crate::name::write_identifier;
use crate::raw::serialize_unescaped_or_raw_str;
use crate::refusal::Refusal;
use crate::text::serialize_escaped_str;
use chars::ranges::{Range, Ranges};
use chars::table::{Ascii, CharTable};
use output::buffer::Buffer;

// Whether a word was answered as expected: by its text, or by the number of a refusal, which is what users look up.
fn gave(answer: Result<(), Refusal>, text: &[u8], expected: Result<&[u8], u8>) -> bool {
    answer.map(|()| text).map_err(|refusal| refusal.number()) == expected
}

// Each word with a memory of its own size: with both as parameters every example would have to name them.
fn name_gives(name: &[u8], expected: Result<&[u8], u8>) -> bool {
    name_in_gives(&Ascii, name, expected)
}

fn name_in_gives<T: CharTable>(table: &T, name: &[u8], expected: Result<&[u8], u8>) -> bool {
    let mut mem = [0u8; 8];
    let mut out = Buffer::new(&mut mem);
    let answer = write_identifier(&mut out, table, name);
    gave(answer, out.into_text(), expected)
}

fn raw_gives(value: &[u8], expected: Result<&[u8], u8>) -> bool {
    let mut mem = [0u8; 11];
    let mut out = Buffer::new(&mut mem);
    let answer = serialize_unescaped_or_raw_str(&mut out, value);
    gave(answer, out.into_text(), expected)
}

fn escaped_gives(value: &[u8], expected: Result<&[u8], u8>) -> bool {
    let mut mem = [0u8; 12];
    let mut out = Buffer::new(&mut mem);
    let answer = serialize_escaped_str(&mut out, &Ascii, value);
    gave(answer, out.into_text(), expected)
}

// Characters that are shown; that a name may go on with; and that it may begin with too.
fn shown(first: u32, last: u32) -> Range {
    Range {
        first,
        last,
        start: false,
        continues: false,
        shown: true,
    }
}

fn continues(first: u32, last: u32) -> Range {
    Range {
        continues: true,
        ..shown(first, last)
    }
}

fn starts(first: u32, last: u32) -> Range {
    Range {
        start: true,
        ..continues(first, last)
    }
}

// What the name `é` gives in the table of ASCII with one range more, or the refusal of that table.
fn table_gives(more: Range, expected: Result<&[u8], u8>) -> bool {
    let ranges = [
        shown(0x20, 0x2F),
        continues(0x30, 0x39),
        shown(0x3A, 0x40),
        starts(0x41, 0x5A),
        shown(0x5B, 0x5E),
        continues(0x5F, 0x5F),
        shown(0x60, 0x60),
        starts(0x61, 0x7A),
        shown(0x7B, 0x7E),
        more,
    ];
    match Ranges::new(&ranges) {
        Ok(table) => name_in_gives(&table, &[0xC3, 0xA9], expected),
        Err(refusal) => matches!(expected, Err(number) if refusal.number() == number),
    }
}

#[test]
fn tables(rt: HostRuntime) {
    assert!(rt; table_gives(starts(0xE9, 0xE9), Ok(&[0xC3, 0xA9])));
    assert!(rt; table_gives(continues(0xC0, 0xFF), Ok(&[b'r', b'#', 0xC3, 0xA9])));
    assert!(rt; table_gives(shown(0xE9, 0xE9), Err(6)));
    assert!(rt; table_gives(shown(0x7E, 0xE9), Err(5)));
    assert!(rt; table_gives(shown(0xD7FF, 0xE000), Err(5)));
    assert!(rt; table_gives(continues(0x85, 0xE9), Err(5)));
}

#[test]
fn names(rt: HostRuntime) {
    assert!(rt; name_gives(b"Some", Ok(b"r#Some")));
    assert!(rt; name_gives(b"9x", Ok(b"r#9x")));
    assert!(rt; name_gives(b"a-b", Ok(b"r#a-b")));
    assert!(rt; name_gives(b"_", Ok(b"_")));
    assert!(rt; name_gives(b"", Err(6)));
    assert!(rt; name_gives(b"a b", Err(6)));
    assert!(rt; name_gives(&[0xFF], Err(7)));
    assert!(rt; name_gives(b"nine_long", Err(19)));
}

#[test]
fn texts(rt: HostRuntime) {
    assert!(rt; raw_gives(b"a\"#b", Ok(b"r##\"a\"#b\"##")));
    assert!(rt; raw_gives(b"a\"#bc", Err(19)));
    assert!(rt; escaped_gives(&[0xC3, 0xA9, b'\n', b'"'], Ok(b"\"\\u{e9}\\n\\\"\"")));
    assert!(rt; escaped_gives(&[0xFF], Err(7)));
}
