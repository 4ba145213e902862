//! The forms of a batch name, as RON text.
ghost use Rattle.std.specs.Prelude.{None, IfOk};
ghost use Rattle.batch_names.specs.Forms.{line_unless, forms, LinesReadBack};
ghost use Rattle.chars.specs.Utf8.{decoded};
ghost use Rattle.output.specs.Usable.{usable};
ghost use Rattle.words.specs.Names.{identifier};
ghost use Rattle.words.specs.Refusals.{text_refusal, name_refusal};
ghost use Rattle.words.specs.Whole.{Whole, Shown, refused_or_short};
ghost use Rattle.words.specs.Writes.{Writes};

use chars::table::CharTable;
use grammar::no_text_has_two_readings;
use grammar::read_back::literals_read_back;
use output::buffer::Buffer;
use output::gauge::Gauge;
use output::{Output, Sink};
use words::name::{validate_identifier, write_identifier};
use words::raw::serialize_unescaped_or_raw_str;
use words::refusal::Refusal;
use words::text::serialize_escaped_str;

// A name on a line of its own, or nothing where it is no name.
fn put_name_line<O: Output, T: CharTable>(
    out: &mut O,
    table: &T,
    name: &[u8],
) -> Result<(), Refusal>
    ensures { Writes O.room O.took None out.old (line_unless (name_refusal (T.continues table.now) name.now) (identifier (T.starts table.now) (T.continues table.now) (decoded name.now))) result out.new }
{
    if validate_identifier(table, name).is_err() {
        return Ok(());
    }
    write_identifier(out, table, name)?;
    out.put(b"\n")?;
    Ok(())
}

// The forms of a name, a line each. The output and the table are two parameters, since this is called with a gauge and with a
// sink for one table.
fn put_forms<O: Output, T: CharTable>(out: &mut O, table: &T, name: &[u8]) -> Result<(), Refusal>
    ensures { Writes O.room O.took (text_refusal name.now) out.old (forms (T.starts table.now) (T.continues table.now) (T.shown table.now) name.now) result out.new }
{
    serialize_escaped_str(out, table, name)?;
    out.put(b"\n")?;
    serialize_unescaped_or_raw_str(out, name)?;
    out.put(b"\n")?;
    put_name_line(out, table, name)
}

/// The forms of a name in a sink: all of them or, refused, nothing.
pub fn write_forms<S: Sink, T: CharTable>(
    sink: &mut S,
    table: &T,
    name: &[u8],
) -> Result<(), Refusal>
    ensures { Whole S.text S.space S.keeps (text_refusal name.now) sink.old (forms (T.starts table.now) (T.continues table.now) (T.shown table.now) name.now) result sink.new }
{
    let mut gauge = Gauge::new(sink.space());
    put_forms(&mut gauge, table, name)?;
    put_forms(sink, table, name)
}

/// The forms of a name, written at the front of the memory and shown as a part of it. Each of them reads back as the name, and as nothing
/// else.
pub fn shown_forms<'m, T: CharTable>(
    memory: &'m mut [u8],
    table: &T,
    name: &[u8],
) -> Result<&'m [u8], Refusal>
    ensures shown { let lines = forms (T.starts table.now) (T.continues table.now) (T.shown table.now) name.now in Shown (refused_or_short (text_refusal name.now) lines (usable memory.old)) lines result }
    ensures back { IfOk result (λ lines. LinesReadBack (T.starts table.now) (T.continues table.now) (T.shown table.now) name.now lines.now) }
{
    // These two do nothing; that what is shown reads back as the name rests on what they promise.
    literals_read_back(table);
    no_text_has_two_readings(table);
    let mut buffer = Buffer::new(memory);
    write_forms(&mut buffer, table, name)?;
    Ok(buffer.into_text())
}
