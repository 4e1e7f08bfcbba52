//! The pieces of a String term.

ghost use Rattle.std.specs.Prelude.{◌≡◌, ◌<◌, ◌++◌, ◌∷◌, false, List, [], length, IfOk, OnOk, MatchOption};
ghost use Rattle.sb_meaning.specs.Terms.{constant, text};
ghost use Rattle.sb_meaning.specs.Terms as meaning;
ghost use Rattle.sb_term.specs.Numbered.{term_at};
ghost use Rattle.sb_problem.specs.Normals.{is_joined, is_text_constant};
ghost use Rattle.sb_problem.specs.Parts.{parts_in};
ghost use Rattle.sb_problem.specs.Taking.{spelled, GoesOn, Taking};

use sb_term::{Serial, Sort, Symbol, Table, Term, TermId};
use std::alloc::AllocError;
use std::collections::BTreeSet;

/// A piece of a String term.
#[derive(Drop)]
pub enum Part {
    /// A String constant.
    Constant(Serial),
    /// A word, by its characters.
    Word(Vec<u32>),
}

/// The constant that a String term is, `None` exactly where it is no declared constant of that sort. Takes constant time
/// and no memory.
pub fn constant_of(table: &Table, id: TermId) -> Option<Serial>
    requires { id < length table.now }
    ensures { MatchOption result (is_text_constant (term_at table.now id) ≡ false)
        (λ serial. term_at table.now id ≡ constant serial.0 text) }
{
    let Term::Constant(serial, sort) = table.term(id) else {
        return None;
    };
    match sort {
        Sort::String => Some(*serial),
        Sort::Bool | Sort::Int | Sort::RegLan => None,
    }
}

/// Whether a term concatenates String terms. Takes constant time and no memory.
pub fn is_joined(table: &Table, id: TermId) -> bool
    requires { id < length table.now }
    ensures { result ≡ is_joined (term_at table.now id) }
{
    let Term::Apply(symbol, _) = table.term(id) else {
        return false;
    };
    match symbol {
        Symbol::StrConcat => true,
        _ => false,
    }
}

/// Puts the letters behind the pieces as a word, where there are some, and takes them away.
pub(crate) fn put_run(parts: &mut Vec<Part>, run: &mut Vec<u32>) -> Result<(), AllocError>
    ensures parts { OnOk result (parts_in parts.new.items ≡ parts_in parts.old.items ++ spelled run.old.items) }
    ensures run { OnOk result (run.new.items ≡ []) }
{
    if run.is_empty() {
        return Ok(());
    }
    let word = Vec::from_slice(*run.allocator(), run)?;
    run.clear();
    parts.push(Part::Word(word))?;
    Ok(())
}

/// Puts a constant behind the pieces. False where it was met before.
pub(crate) fn put_constant(
    serial: Serial,
    parts: &mut Vec<Part>,
    run: &mut Vec<u32>,
    met: &mut BTreeSet<u64>,
) -> Result<bool, AllocError>
    ensures { IfOk result (λ goes. (whole : meaning.Term) (left : List meaning.Term)
        → Taking whole (parts_in parts.old.items) run.old.items met.old.keys (left ++ constant serial.0 text ∷ [])
        → GoesOn goes whole (parts_in parts.new.items) run.new.items met.new.keys left) }
{
    let is_new = met.insert(serial.0)?;
    if !is_new {
        return Ok(false);
    }
    put_run(parts, run)?;
    parts.push(Part::Constant(serial))?;
    Ok(true)
}
