//! What terms come to before they are translated.

ghost use Rattle.sb_sound.specs.TermLaws.{PiecesKeepWord, SumsKeepNumber};

/// The pieces of a String term have the term's word.
pub fn pieces_keep_word()
    ensures { PiecesKeepWord }
{}

/// The sum of an Int term has the term's number.
pub fn sums_keep_number()
    ensures { SumsKeepNumber }
{}
