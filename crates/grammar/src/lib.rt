//! The grammar of RON text as a relation between texts and trees, and what is proved of it.
#![tactic(auto)]

ghost use Rattle.grammar.specs.Readings.{NoTextHasTwoReadings};
ghost use Rattle.grammar.specs.Worked.{WorkedReadings};

use chars::table::CharTable;

pub mod read_back;

/// No text has two readings: whatever two trees the rules allow for a text are one tree, with every table of characters.
pub fn no_text_has_two_readings<T: CharTable>(table: &T)
    ensures { NoTextHasTwoReadings (T.starts table.now) (T.continues table.now) }
{}

/// Ten texts read as the trees that they are meant for, and four read as none, with every table of characters.
pub fn worked_readings<T: CharTable>(table: &T)
    ensures { WorkedReadings (T.starts table.now) (T.continues table.now) }
{}
