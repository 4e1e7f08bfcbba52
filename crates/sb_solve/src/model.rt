//! The values that a check gives, where its search ended with a value for each atom that is wanted: the theory's words,
//! and the truth values of the trail.

ghost use Rattle.std.specs.Prelude.{◌≡◌, ℕ, true, List, IfOk};
ghost use Rattle.sb_solve.specs.Words.{IsConsistent, Kept, Lit, Regex, are_declared, held, state_of};
ghost use Rattle.sb_solve.specs.Answered.{IsAnswered};
ghost use Rattle.sb_solve.specs.Modelled.{HasLive};
ghost use Rattle.sb_solve.specs.Solved.{AreTrueUnder};
ghost use Rattle.sb_solve.specs.Values.{are_words_there};

use crate::given::{read, truths};
use sb_atoms::Atoms;
use sb_sound::translations::translation_holds;
use sb_stack::Stack;
use sb_trail::Trail;
use sb_word::Word;
use std::alloc::{AllocError, Global};

/// The values of constants by serial: words, and truth values.
#[derive(Drop)]
pub struct Values {
    pub words: Vec<Option<Word>>,
    pub truths: Vec<bool>,
}

/// The values that a check gives, where these atoms are wanted for the literals of the live assertions that it is
/// about and for those of its assumptions, and the trail and the theory's words are those of the search's end.
///
/// Linear in the atoms that are wanted, the theory's words, and the largest serial of a Bool constant that is true.
pub fn model(
    alloc: Global,
    atoms: &Atoms,
    wanted: &[u64],
    trail: &Trail,
    words: Vec<Option<Word>>,
    stack: &Stack,
) -> Result<Values, AllocError>
    requires { are_declared (state_of stack.now).sorts atoms.now ≡ true }
    ensures given { IfOk result
        (λ values. (rs : List Regex) (places : List ℕ) (literals assumed : List Lit) (kept : Kept)
        → IsAnswered rs atoms.now wanted.now literals assumed kept trail.now.literals words.items places
        (state_of stack.now) stack.now.assumptions
        → AreTrueUnder stack.now places values.words.items values.truths.items) }
    ensures characters { IfOk result (λ values. are_words_there values.words.items ≡ true) }
{
    translation_holds();
    live(stack);
    one_value(trail);
    let truths = truths(alloc, atoms, wanted, trail)?;
    read(&words);
    Ok(Values { words, truths })
}

/// Says of the trail that no literal is on it with its negation.
fn one_value(trail: &Trail)
    ensures { IsConsistent (held trail.now.literals) }
{
    let _entries = trail.literals();
}

/// What is known of live constants and terms.
fn live(stack: &Stack)
    ensures { HasLive stack.now }
{
    let _assertions = stack.assertions();
    let _sorts = stack.sorts();
}
