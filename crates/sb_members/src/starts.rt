//! The regexes in which the words of states begin, and their heads.

ghost use Rattle.std.specs.Prelude.{◌≡◌, ◌<◌, All, Contains, length, IfOk, OnOk};
ghost use Rattle.sb_regex.specs.Numbered.{AllNumbers, Extends};
ghost use Rattle.sb_members.specs.Starts.{AreStarts, IsFront};
ghost use Rattle.sb_members.specs.Passing.{GoesOn, IsWith};

use indexmap::IndexSet;
use sb_lang::constructors::mkalt_keeps_language;
use sb_lang::derivative::{derivative_has_rests, nullable_has_empty_word};
use sb_regex::{Arena, Node, RegexId};
use std::alloc::{AllocError, Global};

/// The states, what stands behind each head with the empty word in a concatenation among these regexes, and the members
/// of each union, each once.
///
/// A word of a concatenation begins in its first head, or, where that has the empty word, is one of what stands behind.
/// So a concatenation of n parts that may be empty gives its n ends. Linear in their number.
pub fn starts_of(
    alloc: Global,
    arena: &Arena,
    states: &[RegexId],
) -> Result<IndexSet<RegexId>, AllocError>
    requires { AllNumbers arena.now states.now }
    ensures { IfOk result (λ starts. AreStarts arena.now states.now starts.keys) }
{
    let mut starts = IndexSet::new(alloc);
    put_each(&mut starts, states)?;
    let mut place = 0;
    while place < starts.len() {
        let start = starts.as_slice()[place];
        pass(arena, &mut starts, start)?;
        place += 1;
    }
    Ok(starts)
}

/// Puts what stands behind a head with the empty word behind the others, or the members of a union.
fn pass(arena: &Arena, starts: &mut IndexSet<RegexId>, regex: RegexId) -> Result<(), AllocError>
    requires { regex < length arena.now }
    ensures { OnOk result (IsWith arena.now regex starts.old.keys starts.new.keys) }
{
    nullable_has_empty_word();
    match arena.node(regex) {
        Node::Cat(head, rest) => {
            if arena.nullable(*head) {
                return put_each(starts, &[*rest]);
            }
            Ok(())
        }
        Node::Alt(parts) => put_each(starts, parts.as_slice()),
        _ => Ok(()),
    }
}

/// Puts regexes behind the others, those that are not there.
fn put_each(starts: &mut IndexSet<RegexId>, regexes: &[RegexId]) -> Result<(), AllocError>
    ensures { OnOk result (GoesOn (Contains regexes.now) starts.old.keys starts.new.keys
        × All (Contains starts.new.keys) regexes.now) }
{
    for regex in regexes {
        starts.insert(*regex)?;
    }
    Ok(())
}

/// The head of a concatenation, and what stands behind it: of another regex that is itself, and the empty word. Of a
/// union it is none, since its members are starts too.
pub fn front_of(arena: &mut Arena, regex: RegexId) -> Result<(RegexId, RegexId), AllocError>
    requires { regex < length arena.old }
    ensures front { IfOk result (λ front. IsFront arena.new regex front.0 front.1) }
    ensures extends { Extends arena.old arena.new }
{
    derivative_has_rests();
    mkalt_keeps_language();
    match arena.node(regex) {
        Node::Cat(head, rest) => Ok((*head, *rest)),
        Node::Alt(_) => {
            let none = arena.none()?;
            Ok((none, none))
        }
        _ => {
            let empty = arena.eps()?;
            Ok((regex, empty))
        }
    }
}
