//! The table that is made of a list of ranges of characters.
ghost use Rattle.std.specs.Prelude.{◌≡◌, Bool, Ok, Err};
ghost use Rattle.chars.specs.Blanks.{blanks, none_in};
ghost use Rattle.chars.specs.RangeChecks.{agreeing, classed, fits, gap, good};
ghost use Rattle.chars.specs.Ranges.{IsTable, starting, continuing, showing, holds, whole, in_set};

use crate::table::{Ascii, CharTable};
use std::error::Error;
use std::fmt;

/// The characters from the first to the last, both counted, and which sets all of them are in.
#[derive(Clone, Copy, PartialEq, Eq, Debug)]
pub struct Range {
    /// The number of the first character.
    pub first: u32,
    /// The number of the last character.
    pub last: u32,
    /// Whether a name may begin with them.
    pub start: bool,
    /// Whether a name may go on with them.
    pub continues: bool,
    /// Whether they stand for themselves in an escaped text.
    pub shown: bool,
}

/// The table of a list of ranges, which the caller lends.
// No comparisons here, of texts and of cursors: nothing compares what is lent.
#[derive(Clone, Copy)]
pub struct Ranges<'a> {
    ranges: &'a [Range],
    ghost is_table: { IsTable ranges.now },
}

/// The refusal of a list of ranges that is no table.
#[derive(Clone, Copy, PartialEq, Eq, Debug)]
pub struct BadTable;

const BAD_TABLE: u8 = 5;

// At most so many ranges are a table.
const MOST: usize = 4096;

// The eleven blanks, to be looked for in a range; `is_whitespace_char` tells them without a walk over them.
const BLANKS: [char; 11] = [
    ' ', '\t', '\n', '\x0B', '\x0C', '\r', '\u{85}', '\u{200E}', '\u{200F}', '\u{2028}', '\u{2029}',
];

impl BadTable {
    /// The refusal's number.
    pub fn number(self) -> u8
        ensures { result ≡ 5 }
    {
        BAD_TABLE
    }
}

// By hand: for a derive of `thiserror`, and this one message, `chars` would need its first crate.
impl fmt::Display for BadTable {
    fn fmt<W: fmt::Write>(&self, f: &mut fmt::Formatter<W>) -> fmt::Result {
        write!(
            f,
            "refused {}: the ranges make no character table",
            self.number()
        )
    }
}

impl Error for BadTable {}

impl<'a> Ranges<'a> {
    ghost use Rattle.chars.specs.Searches.{found};

    /// The table of these ranges. Refused unless they are at most 4,096, of scalar values alone, in order and apart, and keep
    /// the laws of tables: what begins a name may go on with it, ASCII is in the sets of the ASCII table, and no blank is in a name.
    pub fn new(ranges: &'a [Range]) -> Result<Ranges<'a>, BadTable>
        ensures { elim result [ Ok t ↦ IsTable ranges.now × (t.ranges.now ≡ ranges.now) | Err _ ↦ (IsTable ranges.now → ⊥) ] }
    {
        if is_good(ranges) {
            Ok(Ranges { ranges })
        } else {
            Err(BadTable)
        }
    }

    // The range that holds the character, looked for by halves. By hand, since it ends where the range is found: the library's
    // search always goes on to the last half.
    fn find(&self, c: char) -> Option<Range>
        ensures { (p : Range → Bool) → in_set p self.now.ranges.now c ≡ found p result }
    {
        let c = u32::from(c);
        let mut left = self.ranges;
        while !left.is_empty() {
            let middle = left.len() / 2;
            let r = left[middle];
            if c < r.first {
                left = &left[..middle];
            } else if r.last < c {
                left = &left[middle + 1..];
            } else {
                return Some(r);
            }
        }
        None
    }
}

impl<'a> CharTable for Ranges<'a> {
    ghost starts = { λ t c. in_set starting t.ranges.now c };

    ghost continues = { λ t c. in_set continuing t.ranges.now c };

    ghost shown = { λ t c. in_set showing t.ranges.now c };

    ghost lawful = { λ t. t.is_table.lawful };

    // ASCII is asked most, and has its own quick way. The three are alike: with the set as a closure, a contract would have
    // to say what the closure tells.
    fn is_xid_start(&self, c: char) -> bool {
        if c.is_ascii() {
            Ascii.is_xid_start(c)
        } else {
            self.find(c).is_some_and(|r| r.start)
        }
    }

    fn is_xid_continue(&self, c: char) -> bool {
        if c.is_ascii() {
            Ascii.is_xid_continue(c)
        } else {
            self.find(c).is_some_and(|r| r.continues)
        }
    }

    fn is_shown(&self, c: char) -> bool {
        if c.is_ascii() {
            Ascii.is_shown(c)
        } else {
            self.find(c).is_some_and(|r| r.shown)
        }
    }
}

impl Range {
    fn holds(self, c: u32) -> bool
        ensures { result ≡ holds self c }
    {
        (self.first..=self.last).contains(&c)
    }

    // Whether the range may stand in a table in which everything below `from` is told already.
    fn is_fit(self, from: u32) -> bool
        ensures { result ≡ fits from self }
    {
        from <= self.first
            && self.is_whole()
            && (!self.start || self.continues)
            && is_gap(from, self.first)
            && self.is_classed()
            && (!self.continues || self.holds_no_blank())
    }

    // Whether the range has a first and a last character, and scalar values alone.
    fn is_whole(self) -> bool
        ensures { result ≡ whole self }
    {
        self.first <= self.last
            && (self.last <= 0xD7FF || 0xE000 <= self.first && self.last <= 0x10FFFF)
    }

    // Whether the characters of ASCII in the range are in just its sets.
    fn is_classed(self) -> bool
        ensures { result ≡ classed self }
    {
        // As `all` the proof did not close: no lemma of the library tells what an inclusive range gives.
        for c in self.first..=self.last.min(0x7F) {
            if !self.is_agreeing(c as u8) {
                return false;
            }
        }
        true
    }

    // Whether the character of ASCII is in just the sets that the range is in.
    fn is_agreeing(self, c: u8) -> bool
        ensures { result ≡ agreeing self c }
    {
        let c = char::from(c);
        self.start == Ascii.is_xid_start(c)
            && self.continues == Ascii.is_xid_continue(c)
            && self.shown == Ascii.is_shown(c)
    }

    fn holds_no_blank(self) -> bool
        ensures { result ≡ none_in (holds self) blanks }
    {
        BLANKS.iter().all(|c| !self.holds(u32::from(*c)))
    }
}

// Whether the ranges make a table: one pass, which keeps the number up to which everything is told.
fn is_good(ranges: &[Range]) -> bool
    ensures { result ≡ good ranges.now }
{
    if ranges.len() > MOST {
        return false;
    }
    let mut from = 0;
    for r in ranges {
        if !r.is_fit(from) {
            return false;
        }
        from = r.last + 1;
    }
    is_gap(from, 0x80)
}

// Whether ASCII has nothing printable from `from` on and below `to`.
fn is_gap(from: u32, to: u32) -> bool
    ensures { result ≡ gap from to }
{
    to <= from || to <= 0x20 || 0x7E < from
}
