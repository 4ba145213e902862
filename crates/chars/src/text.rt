//! Text: bytes that are known to be UTF-8.
ghost use Rattle.std.specs.Prelude.{◌≡◌, ◌<◌, true, length, IfSome};
ghost use Rattle.chars.specs.Utf8.{utf8};

use crate::utf8::{Malformed, Scalars, front};
use std::marker::Model;

/// Bytes that are UTF-8. Only `Text::new` makes a text of bytes, so that whoever has one need not check it again.
// No `str`, since what is UTF-8 is defined here by RFC 3629, and the library's text has a definition of its own.
#[derive(Clone, Copy)]
pub struct Text<'a> {
    bytes: &'a [u8],
    ghost is_utf8: { utf8 bytes.now ≡ true },
}

impl<'a> Text<'a> {
    ghost use Rattle.chars.specs.Texts.{text_bytes, characters, Checked, SplitsFirst};

    /// The text of the bytes, or where they are not UTF-8.
    // What a cursor has read is told by these lemmas, by which the check finds the proof.
    #[tactic(auto, using(crate::proofs::Decoding::read_broken, crate::proofs::Decoding::read_more, crate::proofs::Decoding::read_all, crate::proofs::Decoding::shorter))]
    pub fn new(bytes: &'a [u8]) -> Result<Text<'a>, Malformed>
        ensures { Checked bytes.now result }
    {
        let mut cursor = Scalars::new(bytes);
        while let Some(_) = cursor.step()? {}
        Ok(Text { bytes })
    }

    /// The bytes of the text.
    pub fn as_bytes(&self) -> &'a [u8]
        ensures { result.now ≡ text_bytes self.now }
    {
        self.bytes
    }

    /// The first character and the text behind it, unless the text is empty.
    pub fn split_first(&self) -> Option<(char, Text<'a>)>
        ensures value { SplitsFirst self.now result }
        ensures shorter { IfSome result (λ p. length (text_bytes p.1) < length (text_bytes self.now)) }
    {
        let (c, width) = front(self.bytes)?;
        Some((
            c,
            Text {
                bytes: &self.bytes[width..],
            },
        ))
    }

    /// The characters of the text, one after another.
    pub fn chars(&self) -> Chars<'a>
        ensures { result ≡ characters self.now }
    {
        Chars { rest: *self }
    }
}

/// The characters of a text. As a value it is the list of those that are left.
#[derive(Drop)]
pub struct Chars<'a> {
    rest: Text<'a>,
}

impl<'a> Model for Chars<'a> {
    ghost use Rattle.std.specs.Prelude.{ℕ, List};
    ghost use Rattle.chars.specs.Texts.{characters};

    ghost Value = { List ℕ };

    ghost view = { λ chars. characters chars.rest };
}

impl<'a> Iterator for Chars<'a> {
    ghost use Rattle.std.specs.Iterator.{YieldsFirst, item_count};

    type Item = char;

    ghost next_gives = { YieldsFirst (λ cs. cs) };

    ghost remaining = { item_count (λ cs. cs) };

    fn next(&mut self) -> Option<char> {
        let (c, rest) = self.rest.split_first()?;
        self.rest = rest;
        Some(c)
    }
}
