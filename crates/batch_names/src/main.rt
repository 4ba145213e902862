//! Batch names, one a line on standard input, as RON text. The second argument, if there is one, is the file of a character table.
#![tactic(auto)]

use crate::rows::print_all;
use crate::summary::Summary;
use anyhow::anyhow;
use chars::table::Ascii;
use inputs::tables::{read_ranges, read_table_file, table_of};
use std::env;
use std::io::Read;

mod forms;
mod rows;
mod summary;

// Enough for the forms of any name of at most 65,535 bytes.
const SPACE: usize = 524288;

fn main(rt: HostRuntime) -> anyhow::Result<()> {
    run(&rt)
}

// The two calls differ in the type of the table, whose text and ranges have to last as long as it does.
fn run(rt: &HostRuntime) -> anyhow::Result<()> {
    let mut memory = vec![in rt.alloc(); 0; space(rt)?]?;
    let mut input = Vec::new(rt.alloc());
    rt.stdin().read_to_end(&mut input)?;
    let summary = match env::args(rt)?.nth(2) {
        None => print_all(rt, &Ascii, memory.as_mut_slice(), input.as_slice())?,
        Some(path) => {
            let text = read_table_file(rt, path.as_str())?;
            let ranges = read_ranges(rt.alloc(), text.as_slice())?;
            let table = table_of(ranges.as_slice())?;
            print_all(rt, &table, memory.as_mut_slice(), input.as_slice())?
        }
    };
    println!(rt; "{summary}")?;
    Ok(())
}

// The bytes that a name's forms may have: the first argument, if there is one.
fn space(rt: &HostRuntime) -> anyhow::Result<usize> {
    match env::args(rt)?.nth(1) {
        None => Ok(SPACE),
        Some(word) => word.as_str().parse::<usize>().map_err(|_| {
            anyhow!("the first argument is the number of bytes that the forms of a name may have")
        }),
    }
}
