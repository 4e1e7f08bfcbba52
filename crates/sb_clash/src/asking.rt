//! What literals of memberships ask of a constant's word.

ghost use Rattle.std.specs.Prelude.{◌≡◌, get_or, length, IfOk};
ghost use Rattle.sb_lang.specs.Language.{language};
ghost use Rattle.sb_clash.specs.Words.{Extends, HaveRegexesBelow, bool_atom};
ghost use Rattle.sb_regex.specs.Numbered.{Names};
ghost use Rattle.sb_graph.specs.Witness.{IsFinding};
ghost use Rattle.sb_clash.specs.Literals as meaning;
ghost use Rattle.sb_clash.specs.Literals.{IsAbout, AreAbout, number_in, asked_by_all};
ghost use Rattle.sb_clash.specs.Asked.{CanBeAsked, Explores};

use sb_atoms::{AtomId, Atoms};
use sb_graph::{Explored, Graph, graph_stays};
use sb_lit::Lit;
use sb_proof::Atom;
use sb_regex::{Arena, RegexId};
use sb_term::Serial;
use std::alloc::{AllocError, Global};

/// The regex of a literal's membership.
fn regex_of(atoms: &Atoms, serial: Serial, literal: Lit) -> RegexId
    requires { IsAbout atoms.now serial.0 literal }
    ensures { result ≡ number_in (get_or atoms.now literal.atom (bool_atom 0)) }
{
    match atoms.describe(AtomId::of(literal)) {
        Atom::In(_, regex) => *regex,
        _ => unreachable!(),
    }
}

/// The regex that a literal asks for.
fn asked_by(
    arena: &mut Arena,
    atoms: &Atoms,
    serial: Serial,
    literal: Lit,
) -> Result<RegexId, AllocError>
    requires about { IsAbout atoms.now serial.0 literal }
    requires regexes { HaveRegexesBelow (length arena.old) atoms.now }
    ensures ok { IfOk result (λ id. Names arena.new id (meaning.asked_by arena.new atoms.now literal)) }
    ensures extends { Extends arena.old arena.new }
{
    let regex = regex_of(atoms, serial, literal);
    if literal.positive {
        Ok(regex)
    } else {
        arena.not(regex)
    }
}

/// The intersection of what literals of one constant's memberships ask for: the regex in which its word is where all of
/// them are true. It takes the time of a union of so many regexes. `AllocError` only for want of memory.
pub(crate) fn meet(
    alloc: Global,
    arena: &mut Arena,
    atoms: &Atoms,
    serial: Serial,
    literals: &[Lit],
) -> Result<RegexId, AllocError>
    requires about { AreAbout atoms.now serial.0 literals.now }
    requires regexes { HaveRegexesBelow (length arena.old) atoms.now }
    ensures ok { IfOk result (λ id. Names arena.new id (asked_by_all arena.new atoms.now literals.now)) }
    ensures extends { Extends arena.old arena.new }
{
    let mut ids = Vec::with_capacity(alloc, literals.len())?;
    for literal in literals {
        let id = asked_by(arena, atoms, serial, *literal)?;
        ids.push(id)?;
    }
    arena.and(&ids)
}

/// The shortest word that makes all of the literals of one constant's memberships true, the least by code points among
/// the shortest, or that there is none: then the intersection is marked as dead where `marks` is true, as it has to be
/// before lines deny these literals. Its cost is that of the intersection, and of [`Graph::least_word`], or else of
/// [`Graph::answer`].
pub fn least_word(
    alloc: Global,
    arena: &mut Arena,
    graph: &mut Graph,
    atoms: &Atoms,
    serial: Serial,
    literals: &[Lit],
    marks: bool,
) -> Result<Explored, AllocError>
    requires { CanBeAsked arena.old graph.old atoms.now serial.0 literals.now }
    ensures found { IfOk result (IsFinding (language (asked_by_all arena.new atoms.now literals.now))) }
    ensures explores { Explores arena.old arena.new graph.old graph.new }
{
    graph_stays();
    let root = meet(alloc, arena, atoms, serial, literals)?;
    if marks {
        return graph.answer(arena, root);
    }
    graph.least_word(arena, root)
}
