//! The lines of atoms.

ghost use Rattle.std.specs.Prelude.{◌≡◌, ◌<◌, ◌+◌, true, length, take, map, IfOk, OnOk};
ghost use Rattle.std.specs.List.{list_all};
ghost use Rattle.sb_script.specs.Steps.{line as ended};
ghost use Rattle.sb_rulebook.specs.Atoms.{and_atom, iff_atom};
ghost use Rattle.sb_rulebook.specs.Brought.{is_brought_atom};
ghost use Rattle.sb_rulebook.specs.Kept.{AllKept, Asked};
ghost use Rattle.sb_rulebook.specs.Lines.{text_of};
ghost use Rattle.sb_rulebook.specs.LineLaws.{are_small, is_small, is_small_literal, is_small_piece};
ghost use Rattle.sb_proof.specs.Lines.{piece_in, atom_in as line_atom, line_in};
ghost use Rattle.sb_proof.specs.Tapes.{with_bytes};
ghost use Rattle.sb_deriv.specs.Faithful.{Memo};
ghost use Rattle.sb_atoms.specs.Numbered.{atom_in, HasRegexBelow};
ghost use Rattle.sb_trace.specs.Putting.{CountsTapeFault};
ghost use Rattle.sb_trace.specs.Tracking.{OnlyNumbers, Tracks};
ghost use Rattle.sb_split.specs.Words.{HaveRegexesBelow, atoms_in, bool_atom, in_atom};
ghost use Rattle.sb_split.specs.Defining.{AreDue, Called, DefinesAtoms, IsLineOf, IsWritten};

use sb_atoms::{AtomId, Atoms};
use sb_lang::order::order_tells_apart;
use sb_lit::Lit;
use sb_proof::{Atom, Line, Piece, Tape, TapeFault};
use sb_regex::{Arena, RegexId};
use sb_term::Serial;
use sb_trace::Trace;
use smallvec::SmallVec;
use std::alloc::{AllocError, Global};

/// Puts the lines of the atoms from this number on, each behind those of its regex. Linear in the lines that are put.
/// After an error the tape may have a line of which nothing is known here, so nothing more may be put.
pub fn define_atoms<L: Tape>(
    alloc: Global,
    trace: &mut Trace,
    arena: &Arena,
    atoms: &Atoms,
    known: usize,
    tape: &mut L,
) -> Result<(), TapeFault>
    requires regexes { HaveRegexesBelow (length arena.now) atoms.now }
    ensures defines { OnOk result ((asked : Asked) (memo : Memo) (before : AllKept) → AreDue asked known atoms.now
        → Tracks arena.now memo trace.old before → before.atoms ≡ atoms_in arena.now (take known atoms.now)
        → DefinesAtoms asked before arena.now memo trace.new atoms.now (L.Tape.told tape.old) (L.Tape.told tape.new)) }
    ensures only { OnlyNumbers trace.old trace.new }
    ensures counts { CountsTapeFault result (L.Tape.faults tape.old) (L.Tape.faults tape.new) }
{
    let mut number = known;
    while number < atoms.len() {
        define_atom(alloc, trace, arena, atoms, number, tape)?;
        number += 1;
    }
    Ok(())
}

/// Puts the line of the atom of a number, behind those of its regex.
fn define_atom<L: Tape>(
    alloc: Global,
    trace: &mut Trace,
    arena: &Arena,
    atoms: &Atoms,
    number: usize,
    tape: &mut L,
) -> Result<(), TapeFault>
    requires inside { number < length atoms.now }
    requires regexes { HaveRegexesBelow (length arena.now) atoms.now }
    ensures { Called result
        (λ _. (asked : Asked) (memo : Memo) (before : AllKept) → AreDue asked number atoms.now
        → Tracks arena.now memo trace.old before → before.atoms ≡ atoms_in arena.now (take number atoms.now)
        → DefinesAtoms asked before arena.now memo trace.new (take (number + 1) atoms.now) (L.Tape.told tape.old)
        (L.Tape.told tape.new))
        (OnlyNumbers trace.old trace.new) (L.Tape.faults tape.old) (L.Tape.faults tape.new) }
{
    order_tells_apart();
    arena.normal_regexes_each_once();
    atoms.atoms_each_once();
    let id = AtomId::of(Lit {
        atom: number as u64,
        positive: true,
    });
    let line = line_of(alloc, trace, arena, atoms.describe(id), tape)?;
    put_line(Line::Atom(line), tape)
}

/// Puts a line.
pub fn put_line<L: Tape>(line: Line, tape: &mut L) -> Result<(), TapeFault>
    ensures told { OnOk result
        (L.Tape.told tape.new ≡ with_bytes (ended (text_of (line_in line))) (L.Tape.told tape.old)) }
    ensures counts { CountsTapeFault result (L.Tape.faults tape.old) (L.Tape.faults tape.new) }
{
    tape.put(&line)
}

/// An atom as its line has it, behind the lines of its regex.
fn line_of<L: Tape>(
    alloc: Global,
    trace: &mut Trace,
    arena: &Arena,
    atom: &Atom<RegexId>,
    tape: &mut L,
) -> Result<Atom<u64>, TapeFault>
    requires regex { HasRegexBelow (length arena.now) (atom_in atom.now) }
    requires brought { is_brought_atom (atom_in atom.now) ≡ true }
    ensures { Called result
        (λ line. (asked : Asked) (memo : Memo) (before : AllKept) → Tracks arena.now memo trace.old before
        → IsLineOf asked before arena.now memo trace.new (atom_in atom.now) (line_atom line) (L.Tape.told tape.old)
        (L.Tape.told tape.new))
        (OnlyNumbers trace.old trace.new) (L.Tape.faults tape.old) (L.Tape.faults tape.new) }
{
    match atom {
        Atom::Bool(serial) => Ok(constant_line(Serial(*serial))),
        Atom::In(pieces, regex) => member_line(alloc, trace, arena, pieces, *regex, tape),
        Atom::And(literals) => Ok(conjunction_line(alloc, literals.as_slice())?),
        Atom::Iff(one, other) => Ok(equivalence_line(*one, *other)),
        Atom::Le(..) | Atom::Sum(..) => unreachable!(),
    }
}

/// The membership of pieces, behind the lines of its regex.
fn member_line<L: Tape>(
    alloc: Global,
    trace: &mut Trace,
    arena: &Arena,
    pieces: &SmallVec<Piece, 1>,
    regex: RegexId,
    tape: &mut L,
) -> Result<Atom<u64>, TapeFault>
    requires { regex < length arena.now }
    ensures { Called result
        (λ line. (asked : Asked) (memo : Memo) (before : AllKept) → Tracks arena.now memo trace.old before
        → IsLineOf asked before arena.now memo trace.new (in_atom (map piece_in pieces.now.items) regex)
        (line_atom line) (L.Tape.told tape.old) (L.Tape.told tape.new))
        (OnlyNumbers trace.old trace.new) (L.Tape.faults tape.old) (L.Tape.faults tape.new) }
{
    let number = trace.number(arena, regex, tape)?;
    let all = copied_pieces(alloc, pieces.as_slice())?;
    Ok(Atom::In(all, number))
}

/// The pieces, of which each has a text.
pub(crate) fn copied_pieces(
    alloc: Global,
    pieces: &[Piece],
) -> Result<SmallVec<Piece, 1>, AllocError>
    ensures { IfOk result (λ all. (map piece_in all.items ≡ map piece_in pieces.now)
        × (list_all is_small_piece (map piece_in pieces.now) ≡ true)) }
{
    let mut all = SmallVec::with_capacity(alloc, pieces.len())?;
    for piece in pieces {
        all.push(copied_piece(alloc, piece)?)?;
    }
    Ok(all)
}

/// The piece, which has a text.
fn copied_piece(alloc: Global, piece: &Piece) -> Result<Piece, AllocError>
    ensures { IfOk result (λ other. (piece_in other ≡ piece_in piece.now)
        × (is_small_piece (piece_in piece.now) ≡ true)) }
{
    match piece {
        Piece::Constant(serial) => Ok(Piece::Constant(small(*serial))),
        Piece::Word(characters) => {
            let all = copied_characters(alloc, characters.as_slice())?;
            Ok(Piece::Word(all))
        }
    }
}

/// The characters, of which each has a text.
fn copied_characters(alloc: Global, characters: &[u64]) -> Result<Vec<u64>, AllocError>
    ensures { IfOk result (λ all. (all.items ≡ characters.now) × (are_small characters.now ≡ true)) }
{
    let mut all = Vec::with_capacity(alloc, characters.len())?;
    for character in characters {
        all.push(small(*character))?;
    }
    Ok(all)
}

/// The number, which has a text.
fn small(number: u64) -> u64
    ensures same { result ≡ number }
    ensures small { is_small number ≡ true }
{
    number
}

/// That a constant is true.
fn constant_line(serial: Serial) -> Atom<u64>
    ensures { IsWritten (bool_atom serial.0) (line_atom result) }
{
    Atom::Bool(serial.0)
}

/// That two literals are both true or both false.
fn equivalence_line(one: Lit, other: Lit) -> Atom<u64>
    ensures { IsWritten (iff_atom one other) (line_atom result) }
{
    Atom::Iff(one, other)
}

/// The conjunction of literals.
fn conjunction_line(alloc: Global, literals: &[Lit]) -> Result<Atom<u64>, AllocError>
    ensures { IfOk result (λ line. IsWritten (and_atom literals.now) (line_atom line)) }
{
    let all = copied_literals(alloc, literals)?;
    Ok(Atom::And(SmallVec::from_vec(all)))
}

/// The literals, of which each has a text. Linear in them.
pub fn copied_literals(alloc: Global, literals: &[Lit]) -> Result<Vec<Lit>, AllocError>
    ensures { IfOk result
        (λ all. (all.items ≡ literals.now) × (list_all is_small_literal literals.now ≡ true)) }
{
    let mut all = Vec::with_capacity(alloc, literals.len())?;
    for literal in literals {
        all.push(with_text(*literal))?;
    }
    Ok(all)
}

/// The literal, which has a text.
fn with_text(literal: Lit) -> Lit
    ensures same { result ≡ literal }
    ensures small { is_small_literal literal ≡ true }
{
    literal
}
