//! What literals are about, and what was taken in of them.

ghost use Rattle.std.specs.Prelude.{◌≡◌, ◌∷◌, ◌++◌, ℕ, true, [], List, Some, None, IfSome, IfNone};
ghost use Rattle.sb_theory.specs.Words.{AreLevelled, Lit as TheLit, Names, atom_in, constant_piece, in_atom};
ghost use Rattle.sb_theory.specs.Places.{IsCut};
ghost use Rattle.sb_theory.specs.Memberships.{constant_of, subject_of, literals_about, AreMembers};
ghost use Rattle.sb_theory.specs.Wanted.{is_wanted, wanted_of, wanted_on};

use crate::place::is_above;
use crate::row::{Row, drop_member};
use crate::wanted::WantedAtoms;
use sb_atoms::{AtomId, Atoms};
use sb_lit::Lit;
use sb_proof::Atom;
use sb_regex::RegexId;
use sb_term::Serial;
use sb_trail::Entry;

/// That a constant's word is in the language of a regex.
#[derive(Clone, Copy)]
pub struct Member {
    pub serial: Serial,
    pub regex: RegexId,
}

/// What a literal's atom says, where it is a membership of one constant. Takes constant time and no memory.
pub fn membership(atoms: &Atoms, literal: Lit) -> Option<Member>
    ensures some { IfSome result
        (λ found. Names atoms.now literal.atom (in_atom (constant_piece found.serial.0 ∷ []) found.regex)) }
    ensures none { IfNone result (subject_of atoms.now literal ≡ None) }
{
    let id = AtomId::of(literal);
    if id.number() >= atoms.len() {
        return None;
    }
    member_in(atoms.describe(id))
}

/// What an atom says, where it is a membership.
fn member_in(atom: &Atom<RegexId>) -> Option<Member>
    ensures some { IfSome result
        (λ found. atom_in atom.now ≡ in_atom (constant_piece found.serial.0 ∷ []) found.regex) }
    ensures none { IfNone result (constant_of (atom_in atom.now) ≡ None) }
{
    match atom.member() {
        Some(member) => Some(Member {
            serial: Serial(member.0),
            regex: member.1,
        }),
        None => None,
    }
}

/// What a literal's atom says, where it is wanted and a membership of one constant. Takes constant time and no memory.
pub(crate) fn asked(wanted: &WantedAtoms, atoms: &Atoms, literal: Lit) -> Option<Member>
    ensures some { IfSome result (λ found. subject_of atoms.now literal ≡ Some found.serial.0) }
    ensures wanted { IfSome result (λ found. is_wanted wanted.now literal.atom ≡ true) }
    ensures none { IfNone result ((x : ℕ) → literals_about atoms.now x (wanted_of wanted.now (literal ∷ [])) ≡ []) }
{
    let Some(member) = membership(atoms, literal) else {
        return None;
    };
    if !wanted.contains(literal.atom) {
        return None;
    }
    Some(member)
}

/// Takes the last literal that was taken in off the row of its constant, where its atom is wanted. Takes no memory.
pub(crate) fn forget(wanted: &WantedAtoms, atoms: &Atoms, rows: &mut Vec<Row>, literal: Lit)
    ensures { (ls : List TheLit) → AreMembers atoms.now rows.old.items (ls ++ wanted_of wanted.now (literal ∷ []))
        → AreMembers atoms.now rows.new.items ls }
{
    let Some(member) = asked(wanted, atoms, literal) else {
        return;
    };
    drop_member(rows, member.serial);
}

/// Takes the entries off whose level is above this one, and their literals off the rows. Takes no memory.
pub(crate) fn cut(
    wanted: &WantedAtoms,
    atoms: &Atoms,
    taken: &mut Vec<Entry>,
    rows: &mut Vec<Row>,
    level: usize,
)
    ensures taken { AreLevelled 0 taken.old.items → IsCut level taken.old.items taken.new.items }
    ensures members { AreMembers atoms.now rows.old.items (wanted_on wanted.now taken.old.items)
        → AreMembers atoms.now rows.new.items (wanted_on wanted.now taken.new.items) }
{
    while is_above(taken, level) {
        if let Some(entry) = taken.pop() {
            forget(wanted, atoms, rows, entry.literal());
        }
    }
}
