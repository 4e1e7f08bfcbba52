//! A node of an arena, as a proof has it.

ghost use Rattle.std.specs.Prelude.{◌≡◌, Some, length, map, slice_get, is_some, All, IfOk};
ghost use Rattle.sb_regex.specs.Nodes.{node_parts};
ghost use Rattle.sb_regex.specs.declared.node.Node.TheVariants.{Rep};
ghost use Rattle.sb_proof.specs.Lines.{node_in};
ghost use Rattle.sb_trace.specs.Tracking.{number_in};
ghost use Rattle.sb_trace.specs.Defining.{IsNumbered, IsNodeIn};

use indexmap::IndexSet;
use sb_proof::Node as ProofNode;
use sb_regex::{Node, RegexId};
use std::alloc::{AllocError, Global};

/// The part of a node at a place.
pub(crate) fn part_at(node: &Node, place: usize) -> Option<RegexId>
    ensures { result ≡ slice_get (node_parts node.now) place }
{
    match node {
        Node::None | Node::Eps | Node::Set(_) => None,
        Node::Cat(first, second) | Node::Path(first, second) => match place {
            0 => Some(*first),
            1 => Some(*second),
            _ => None,
        },
        Node::Alt(parts) | Node::And(parts) => parts.as_slice().get(place).copied(),
        Node::Not(part) | Node::Star(part) | Node::Rep(part, _, _) => match place {
            0 => Some(*part),
            _ => None,
        },
    }
}

/// How many parts a node has.
pub(crate) fn part_count(node: &Node) -> usize
    ensures { result ≡ length (node_parts node.now) }
{
    match node {
        Node::None | Node::Eps | Node::Set(_) => 0,
        Node::Cat(..) | Node::Path(..) => 2,
        Node::Alt(parts) | Node::And(parts) => parts.len(),
        Node::Not(_) | Node::Star(_) | Node::Rep(..) => 1,
    }
}

/// Whether a regex has a number in the proof.
pub(crate) fn has_number(order: &IndexSet<RegexId>, regex: RegexId) -> bool
    ensures { result ≡ is_some (number_in order.now.keys regex) }
{
    order.get_index_of(&regex).is_some()
}

/// The number of a regex in the proof, which is there.
pub(crate) fn number_of(order: &IndexSet<RegexId>, regex: RegexId) -> u64
    requires { IsNumbered order.now.keys regex }
    ensures { number_in order.now.keys regex ≡ Some result }
{
    order.get_index_of(&regex).unwrap() as u64
}

/// The numbers of regexes in the proof.
pub(crate) fn numbers_of(
    alloc: Global,
    order: &IndexSet<RegexId>,
    regexes: &[RegexId],
) -> Result<Vec<u64>, AllocError>
    requires { All (IsNumbered order.now.keys) regexes.now }
    ensures { IfOk result (λ numbers. map (number_in order.now.keys) regexes.now ≡ map Some numbers.items) }
{
    let mut numbers = Vec::with_capacity(alloc, regexes.len())?;
    for regex in regexes {
        numbers.push(number_of(order, *regex))?;
    }
    Ok(numbers)
}

/// Ranges with both ends of each.
fn wide(alloc: Global, ranges: &[(u32, u32)]) -> Result<Vec<(u64, u64)>, AllocError>
    ensures { IfOk result (λ all. all.items ≡ ranges.now) }
{
    let mut all = Vec::with_capacity(alloc, ranges.len())?;
    for (first, last) in ranges {
        all.push((*first as u64, *last as u64))?;
    }
    Ok(all)
}

/// The node of a repetition.
fn proof_rep(order: &IndexSet<RegexId>, part: RegexId, least: u64, most: u64) -> ProofNode
    requires { IsNumbered order.now.keys part }
    ensures { IsNodeIn order.now.keys (Rep part least most) (node_in result) }
{
    ProofNode::Rep(number_of(order, part), least, most)
}

/// The node with the numbers that its parts have in the proof. Each of them has one.
pub(crate) fn proof_node(
    alloc: Global,
    order: &IndexSet<RegexId>,
    node: &Node,
) -> Result<ProofNode, AllocError>
    requires { All (IsNumbered order.now.keys) (node_parts node.now) }
    ensures { IfOk result (λ n. IsNodeIn order.now.keys node.now (node_in n)) }
{
    Ok(match node {
        Node::None => ProofNode::None,
        Node::Eps => ProofNode::Eps,
        Node::Set(ranges) => ProofNode::Set(wide(alloc, ranges)?),
        Node::Cat(first, second) => {
            ProofNode::Cat(number_of(order, *first), number_of(order, *second))
        }
        Node::Alt(parts) => ProofNode::Alt(numbers_of(alloc, order, parts)?),
        Node::And(parts) => ProofNode::And(numbers_of(alloc, order, parts)?),
        Node::Not(part) => ProofNode::Not(number_of(order, *part)),
        Node::Star(part) => ProofNode::Star(number_of(order, *part)),
        Node::Rep(part, least, most) => proof_rep(order, *part, *least, *most),
        Node::Path(first, second) => {
            ProofNode::Path(number_of(order, *first), number_of(order, *second))
        }
    })
}
