//! Texts as terms.

ghost use Rattle.std.specs.Prelude.{ℕ};
ghost use Rattle.sb_script.specs.Texts as meaning;
ghost use Rattle.sb_sorts.specs.Growth.{Grows};
ghost use Rattle.sb_sorts.specs.Reads.{ReadsAs};

use crate::read::ReadFault;
use sb_term::{Table, Term, TermId};
use sb_word::{LiteralError, read_literal};
use std::alloc::Global;

/// A text as a term, by the bytes between its quotes.
pub(crate) fn read_text(alloc: Global, table: &mut Table, bytes: &[u8]) -> Result<TermId, ReadFault>
    ensures reads { ReadsAs table.new (meaning.read_text bytes.now) result }
    ensures grows { (n : ℕ) → Grows n table.old table.new }
{
    match read_literal(alloc, bytes) {
        Ok(word) => Ok(table.add(Term::Word(word.into_codes()))?),
        Err(LiteralError::BadByte(_)) => Err(ReadFault::BadLiteral),
        Err(LiteralError::NoMemory) => Err(ReadFault::NoMemory),
    }
}
