//! Answers call scripts, one document a line on standard input, with what the words of this repository write for them.
//! The argument, if there is one, is the file of a character table.
#![tactic(auto)]

use crate::answer::print_answers;
use chars::table::Ascii;
use inputs::tables::{read_ranges, read_table_file, table_of};
use std::env;
use std::io::Read;

mod answer;
mod script;
mod value;

// More than any text has: at most six bytes for each of 65,535, and a few around them.
const SPACE: usize = 524288;

fn main(rt: HostRuntime) -> anyhow::Result<()> {
    run(&rt)
}

// The two calls differ in the type of the table, whose text and ranges have to last as long as it does.
fn run(rt: &HostRuntime) -> anyhow::Result<()> {
    let mut memory = vec![in rt.alloc(); 0; SPACE]?;
    let mut script = Vec::new(rt.alloc());
    rt.stdin().read_to_end(&mut script)?;
    let Some(path) = env::args(rt)?.nth(1) else {
        return print_answers(rt, &Ascii, memory.as_mut_slice(), script.as_slice());
    };
    let text = read_table_file(rt, path.as_str())?;
    let ranges = read_ranges(rt.alloc(), text.as_slice())?;
    let table = table_of(ranges.as_slice())?;
    print_answers(rt, &table, memory.as_mut_slice(), script.as_slice())
}
