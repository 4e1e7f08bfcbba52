//! The terms that a term is made of by connectives.

ghost use Rattle.std.specs.Prelude.{◌≡◌, ◌<◌, true, length, All, IfOk};
ghost use Rattle.sb_script.specs.Brought.{is_structure};
ghost use Rattle.sb_term.specs.Descending.{AreReached};
ghost use Rattle.sb_term.specs.Numbered.{term_at, terms_at};
ghost use Rattle.sb_atoms.specs.Reaching.{is_connective, is_connection, connected_parts};

use sb_fragment::{Shape, arguments_of, membership, shape_of};
use sb_term::{Table, TermId, put_all};
use std::alloc::{AllocError, Global};
use std::collections::BTreeSet;

/// Whether a shape is a connective.
fn is_connective(shape: Shape) -> bool
    ensures { result ≡ is_connective shape }
{
    match shape {
        Shape::Connected(_) => true,
        Shape::Constant(_) | Shape::Always(_) | Shape::Alone => false,
        Shape::Member | Shape::Words(_) | Shape::Affix(_) | Shape::Other => false,
    }
}

/// Whether a term of Boolean structure is a connective of its arguments.
fn is_connection(table: &Table, id: TermId) -> bool
    requires number { id < length table.now }
    requires structure { is_structure (term_at table.now id) ≡ true }
    ensures { result ≡ is_connection (term_at table.now id) }
{
    match membership(table, id) {
        Some(_) => false,
        None => is_connective(shape_of(table, id)),
    }
}

/// What a term of Boolean structure is a connective of.
fn connected_parts(table: &Table, id: TermId) -> &[TermId]
    requires number { id < length table.now }
    requires structure { is_structure (term_at table.now id) ≡ true }
    ensures terms { terms_at table.now result.now ≡ connected_parts (term_at table.now id) }
    ensures below { All (λ i. i < id) result.now }
{
    if is_connection(table, id) {
        arguments_of(table, id)
    } else {
        &[]
    }
}

/// The terms of Boolean structure that one is made of by connectives, itself among them, each once, from the largest
/// number down, so the arguments of each stand behind it. Linear in them and their arguments, times a logarithm.
pub(crate) fn terms_reached(
    alloc: Global,
    table: &Table,
    id: TermId,
) -> Result<Vec<TermId>, AllocError>
    requires number { id < length table.now }
    requires structure { is_structure (term_at table.now id) ≡ true }
    ensures { IfOk result (λ ids. AreReached connected_parts table.now id ids.items) }
{
    table.terms_each_once();
    let mut ids = Vec::new(alloc);
    let mut left = BTreeSet::new(alloc);
    left.insert(id)?;
    while let Some(next) = left.pop_last() {
        put_all(&mut left, connected_parts(table, next))?;
        ids.push(next)?;
    }
    Ok(ids)
}
