//! What is written for a value reads as that value.
ghost use Rattle.grammar.specs.ReadBack.{LiteralsReadBack};

use chars::table::CharTable;

/// Names, numbers, characters, texts and byte strings read back as what was put in, before all that may stand behind an item,
/// with every table of characters.
pub fn literals_read_back<T: CharTable>(table: &T)
    ensures { LiteralsReadBack (T.starts table.now) (T.continues table.now) (T.shown table.now) }
{}
