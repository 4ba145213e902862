//! Character tables as text.
ghost use Rattle.std.specs.Prelude.{◌≡◌, [], ◌++◌, Some, IfOk, IfErr, codes};
ghost use Rattle.anyhow.specs.Error.{HasMessage};
ghost use Rattle.chars.specs.Ranges.{IsTable};
ghost use Rattle.inputs.specs.TableLines.{range_line, RangesRead};

use crate::fields::{split_field, take_byte};
use crate::hex::hex_number;
use crate::lines::Lines;
use anyhow::anyhow;
use chars::ranges::{Range, Ranges};
use std::alloc::Global;
use std::fs;
use std::rt::Files;

/// The range that a line of a table tells: `first last sets`, in hexadecimal and letters of `sch`.
pub fn range_of_line(line: &[u8]) -> Option<Range>
    ensures { result ≡ range_line line.now }
{
    let (first, rest) = split_field(line, b' ');
    let (last, mut sets) = split_field(rest, b' ');
    let range = Range {
        first: hex_number(first)?,
        last: hex_number(last)?,
        start: take_byte(&mut sets, b's'),
        continues: take_byte(&mut sets, b'c'),
        shown: take_byte(&mut sets, b'h'),
    };
    sets.is_empty().then_some(range)
}

/// The bytes of the file of a table.
pub fn read_table_file(rt: &(impl Files + AllocGlobal), path: &str) -> anyhow::Result<Vec<u8>>
    ensures { IfErr result (HasMessage (Some (codes "the table " ++ path.now ++ codes " cannot be read"))) }
{
    fs::read(rt, path).map_err(|_| anyhow!("the table {path} cannot be read"))
}

/// The ranges that the lines of a text tell, in their order.
pub fn read_ranges(heap: Global, text: &[u8]) -> anyhow::Result<Vec<Range>>
    ensures { IfOk result (λ v. RangesRead text.now v.items []) }
{
    let mut ranges = Vec::new(heap);
    for (i, line) in Lines::new(text).enumerate() {
        let number = i + 1;
        let Some(range) = range_of_line(line) else {
            return Err(anyhow!("line {number} of the table is no range"));
        };
        ranges.push(range)?;
    }
    Ok(ranges)
}

/// The table of these ranges, or the message that they make none.
pub fn table_of<'a>(ranges: &'a [Range]) -> anyhow::Result<Ranges<'a>>
    ensures ok { IfOk result (λ t. IsTable ranges.now × (t.ranges.now ≡ ranges.now)) }
    ensures err { IfErr result (λ _. IsTable ranges.now → ⊥) }
{
    Ok(Ranges::new(ranges)?)
}
