//! The values that a search's end gives constants.

ghost use Rattle.std.specs.Prelude.{◌≡◌, ℕ, true, false, ◌||◌, ◌==◌, slice_get, IfOk, OnOk, IfSome, IfNone};
ghost use Rattle.sb_solve.specs.Words.{Names, atom_in, bool_atom};
ghost use Rattle.sb_solve.specs.Values.{is_constant, constant_is, makes_true, truth_by, truth_in, is_word_there, are_words_there};

use sb_atoms::{AtomId, Atoms};
use sb_lit::Lit;
use sb_proof::Atom;
use sb_regex::RegexId;
use sb_term::Serial;
use sb_trail::Trail;
use sb_word::Word;
use std::alloc::{AllocError, Global};

/// The truth values of the Bool constants by serial: what the trail says of their atoms that are wanted. Another
/// constant is false.
pub(crate) fn truths(
    alloc: Global,
    atoms: &Atoms,
    wanted: &[u64],
    trail: &Trail,
) -> Result<Vec<bool>, AllocError>
    ensures { IfOk result (λ truths. (serial : ℕ) → truth_in truths.items serial
        ≡ truth_by atoms.now trail.now.literals wanted.now serial) }
{
    let mut truths = Vec::new(alloc);
    for atom in wanted {
        put_truth(&mut truths, atoms, trail, *atom)?;
    }
    Ok(truths)
}

/// Where an atom of a Bool constant is true, the constant is.
fn put_truth(
    truths: &mut Vec<bool>,
    atoms: &Atoms,
    trail: &Trail,
    atom: u64,
) -> Result<(), AllocError>
    ensures { OnOk result ((serial : ℕ) → truth_in truths.new.items serial
        ≡ (truth_in truths.old.items serial || makes_true atoms.now trail.now.literals serial atom)) }
{
    let value = trail.value(atom).unwrap_or(false);
    if !value {
        return Ok(());
    }
    match constant_at(atoms, atom) {
        Some(serial) => mark(truths, serial),
        None => Ok(()),
    }
}

/// The Bool constant that an atom is of.
pub(crate) fn constant_at(atoms: &Atoms, atom: u64) -> Option<Serial>
    ensures some { IfSome result (λ found. Names atoms.now atom (bool_atom found.0)) }
    ensures none { IfNone result ((serial : ℕ) → is_constant serial (slice_get atoms.now atom) ≡ false) }
{
    let id = AtomId::of(Lit {
        atom,
        positive: true,
    });
    if id.number() >= atoms.len() {
        return None;
    }
    constant_in(atoms.describe(id))
}

/// The Bool constant that an atom is of.
fn constant_in(described: &Atom<RegexId>) -> Option<Serial>
    ensures some { IfSome result (λ found. atom_in described.now ≡ bool_atom found.0) }
    ensures none { IfNone result ((serial : ℕ) → constant_is serial (atom_in described.now) ≡ false) }
{
    match described {
        Atom::Bool(serial) => Some(Serial(*serial)),
        Atom::In(..) | Atom::Le(..) | Atom::Sum(..) | Atom::And(_) | Atom::Iff(..) => None,
    }
}

/// Makes a constant true, and leaves all others as they are. `AllocError` only for want of memory.
pub fn mark(truths: &mut Vec<bool>, serial: Serial) -> Result<(), AllocError>
    ensures { OnOk result ((other : ℕ) → truth_in truths.new.items other
        ≡ (truth_in truths.old.items other || (serial.0 == other))) }
{
    let place = serial.0 as usize;
    while truths.len() <= place {
        truths.push(false)?;
    }
    truths[place] = true;
    Ok(())
}

/// Says of the words that they are words of characters.
pub(crate) fn read(words: &[Option<Word>])
    ensures { are_words_there words.now ≡ true }
{
    for word in words {
        read_one(word);
    }
}

/// Says of a word that it is one of characters.
fn read_one(word: &Option<Word>)
    ensures { is_word_there word.now ≡ true }
{
    if let Some(word) = word {
        let _codes = word.codes();
    }
}
