//! The words of a RON text, one literal each, written to any output: text, escaped or raw, and names.
// A word takes its output and its table as two parameters, since one table serves both the gauge that measures and the sink.
#![tactic(auto)]

pub mod class;
pub mod name;
pub mod numeral;
pub mod raw;
pub mod refusal;
#[cfg(test)]
mod tests;
pub mod text;
