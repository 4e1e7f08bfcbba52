//! Literals that are matched with the words of their constants.

ghost use Rattle.std.specs.Prelude.{◌≡◌, ◌<◌, ◌^◌, ◌∷◌, ◌++◌, [], List, length, IfOk, OnOk};
ghost use Rattle.sb_theory.specs.Words.{HaveRegexesBelow, IsStore, Lit as TheLit, RegexesGrow};
ghost use Rattle.sb_theory.specs.Memberships.{is_true_by};
ghost use Rattle.sb_theory.specs.Wanted.{wanted_of};
ghost use Rattle.sb_theory.specs.Fronts.{AreRows, IsNoted};
ghost use Rattle.sb_theory.specs.Tables.{AreFormed};

use crate::changed::Changed;
use crate::joined::fits_pieces;
use crate::member::{asked, membership};
use crate::numbers::{number_of, put_number};
use crate::place::contains;
use crate::row::{Row, put_member, row_of};
use crate::wanted::WantedAtoms;
use sb_atoms::Atoms;
use sb_lit::Lit;
use sb_store::Store;
use sb_term::Serial;
use sb_word::Word;
use std::alloc::{AllocError, Global};

/// Whether the words make a literal true: of a membership, of one constant or of several pieces. Of other atoms nothing
/// is said.
pub(crate) fn fits(
    store: &mut Store,
    atoms: &Atoms,
    words: &[Option<Word>],
    literal: Lit,
) -> Result<bool, AllocError>
    requires regexes { HaveRegexesBelow (length store.old.arena) atoms.now }
    requires formed { AreFormed atoms.now }
    requires store { IsStore store.old }
    ensures fits { IfOk result (λ b. b ≡ is_true_by store.old.arena atoms.now words.now literal) }
    ensures grows { RegexesGrow store.old store.new }
{
    let Some(member) = membership(atoms, literal) else {
        return fits_pieces(store, atoms, words, literal);
    };
    let is_in = contains(store, words, member.serial, member.regex)?;
    Ok(is_in == literal.positive)
}

/// Adds the next literal to the row of its constant, where its atom is wanted. Where the word is known to make the row
/// true so far, either it makes the next one true too, or the constant is to be looked at. What is known of a row that
/// was longer is then known of what is left of it.
pub(crate) fn take_literal(
    alloc: Global,
    store: &mut Store,
    wanted: &WantedAtoms,
    atoms: &Atoms,
    words: &[Option<Word>],
    rows: &mut Vec<Row>,
    fitting: &mut Vec<usize>,
    changed: &mut Changed,
    literal: Lit,
) -> Result<(), AllocError>
    requires regexes { HaveRegexesBelow (length store.old.arena) atoms.now }
    requires formed { AreFormed atoms.now }
    requires store { IsStore store.old }
    ensures rows { OnOk result ((ls : List TheLit)
        → AreRows store.old.arena atoms.now words.now rows.old.items fitting.old.items changed.old ls
        → AreRows store.new.arena atoms.now words.now rows.new.items fitting.new.items changed.new
        (ls ++ wanted_of wanted.now (literal ∷ []))) }
    ensures grows { RegexesGrow store.old store.new }
{
    let Some(member) = asked(wanted, atoms, literal) else {
        return Ok(());
    };
    let long = row_of(rows, member.serial).len();
    if number_of(fitting, member.serial) < long {
        return put_member(alloc, rows, member.serial, literal);
    }
    let matches = fits(store, atoms, words, literal)?;
    note_next(fitting, changed, member.serial, long, matches)?;
    put_member(alloc, rows, member.serial, literal)
}

/// Notes whether the next literal of a constant's row is true of its word, which makes so many true, all of the row so
/// far.
fn note_next(
    fitting: &mut Vec<usize>,
    changed: &mut Changed,
    serial: Serial,
    long: usize,
    matches: bool,
) -> Result<(), AllocError>
    requires { long < 2 ^ 63 }
    ensures { OnOk result (IsNoted fitting.old.items fitting.new.items changed.old changed.new serial.0 long matches) }
{
    if matches {
        return put_number(fitting, serial, long + 1);
    }
    changed.add(serial)?;
    put_number(fitting, serial, long)
}
