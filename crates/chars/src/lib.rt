//! Characters: UTF-8, the blanks of RON, and tables of the characters that names and texts are made of.
#![tactic(auto)]

pub mod blank;
pub mod encoding;
pub mod ranges;
pub mod table;
pub mod text;
pub mod utf8;
