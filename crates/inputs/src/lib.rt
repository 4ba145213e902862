//! What the programs read: lines, fields, numbers in hexadecimal and character tables.
#![tactic(auto)]

pub mod fields;
pub mod hex;
pub mod lines;
pub mod tables;
