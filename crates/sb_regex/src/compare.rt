//! The order of regexes, by their nodes.

ghost use Rattle.std.specs.Prelude.{◌≡◌, ◌<◌, ◌↔◌, length};
ghost use Rattle.std.specs.declared.cmp.Ordering.TheVariants.{Equal};
ghost use Rattle.std.specs.Ordering.{nat_cmp, ordering_then};
ghost use Rattle.std.specs.Cmp.Lexicographic.{slice_cmp};
ghost use Rattle.sb_lang.specs.Order.{regex_cmp};
ghost use Rattle.sb_lang.specs.OrderLaws.{ends};
ghost use Rattle.sb_regex.specs.Numbered.{regex_at};
ghost use Rattle.sb_regex.specs.Interning.{node_kind};
ghost use Rattle.sb_regex.specs.declared.compare.Difference.TheVariants.{Decided};
ghost use Rattle.sb_regex.specs.Steps.{first_difference, IsDifference};

use crate::arena::Arena;
use crate::node::{Node, RegexId};
use sb_lang::order::{order_is_by_parts, order_is_total, order_tells_apart};
use std::cmp::Ordering;

/// What comparing two nodes tells of the order of their regexes.
pub enum Difference {
    /// It is this.
    Decided(Ordering),
    /// It is that of these parts.
    Parts(RegexId, RegexId),
}

impl Arena {
    /// The place of one regex before another in the order of normal regexes. Linear in the number of nodes on one
    /// path into the regex, and in the sizes of these nodes. Takes no memory.
    pub fn compare(&self, a: RegexId, b: RegexId) -> Ordering
        requires left { a < length self.now }
        requires right { b < length self.now }
        ensures value { result ≡ regex_cmp (regex_at self.now a) (regex_at self.now b) }
        ensures equal { (result ≡ Equal) ↔ (a ≡ b) }
    {
        self.normal_regexes_each_once();
        order_tells_apart();
        let mut left = a;
        let mut right = b;
        while left != right {
            match self.difference(left, right) {
                Difference::Decided(order) => return order,
                Difference::Parts(x, y) => {
                    left = x;
                    right = y;
                }
            }
        }
        Ordering::Equal
    }

    /// The first difference of two regexes' nodes. Equal numbers are of equal regexes, so parts that differ decide.
    pub(crate) fn difference(&self, a: RegexId, b: RegexId) -> Difference
        requires left { a < length self.now }
        requires right { b < length self.now }
        ensures { IsDifference self.now a b result }
    {
        self.normal_regexes_each_once();
        order_is_by_parts();
        order_is_total();
        order_tells_apart();
        let left = self.node(a);
        let right = self.node(b);
        match left {
            Node::None => by_kind(left, right),
            Node::Eps => by_kind(left, right),
            Node::Set(r) => {
                let Node::Set(s) = right else {
                    return by_kind(left, right);
                };
                Difference::Decided(compare_ranges(r.as_slice(), s.as_slice()))
            }
            Node::Cat(p, q) => {
                let Node::Cat(r, s) = right else {
                    return by_kind(left, right);
                };
                if p == r {
                    Difference::Parts(*q, *s)
                } else {
                    Difference::Parts(*p, *r)
                }
            }
            Node::Alt(ps) => {
                let Node::Alt(qs) = right else {
                    return by_kind(left, right);
                };
                first_difference(ps.as_slice(), qs.as_slice())
            }
            Node::And(ps) => {
                let Node::And(qs) = right else {
                    return by_kind(left, right);
                };
                first_difference(ps.as_slice(), qs.as_slice())
            }
            Node::Not(p) => {
                let Node::Not(q) = right else {
                    return by_kind(left, right);
                };
                Difference::Parts(*p, *q)
            }
            Node::Star(p) => {
                let Node::Star(q) = right else {
                    return by_kind(left, right);
                };
                Difference::Parts(*p, *q)
            }
            Node::Rep(p, least, most) => {
                let Node::Rep(q, fewest, greatest) = right else {
                    return by_kind(left, right);
                };
                if p == q {
                    by_bounds(*least, *most, *fewest, *greatest)
                } else {
                    Difference::Parts(*p, *q)
                }
            }
            Node::Path(p, q) => {
                let Node::Path(r, s) = right else {
                    return by_kind(left, right);
                };
                if p == r {
                    Difference::Parts(*q, *s)
                } else {
                    Difference::Parts(*p, *r)
                }
            }
        }
    }
}

/// The order of two repetitions of one body.
fn by_bounds(least: u64, most: u64, fewest: u64, greatest: u64) -> Difference
    ensures { result ≡ Decided (ordering_then (nat_cmp least fewest) (nat_cmp most greatest)) }
{
    Difference::Decided(least.cmp(&fewest).then(most.cmp(&greatest)))
}

/// The order of nodes of two kinds.
fn by_kind(left: &Node, right: &Node) -> Difference
    ensures { result ≡ Decided (nat_cmp (node_kind left.now) (node_kind right.now)) }
{
    Difference::Decided(left.kind().cmp(&right.kind()))
}

/// The order of two sets, by their range ends.
fn compare_ranges(left: &[(u32, u32)], right: &[(u32, u32)]) -> Ordering
    ensures { result ≡ slice_cmp nat_cmp (ends left.now) (ends right.now) }
{
    left.cmp(right)
}

/// The first members that differ, or the order of the lengths.
fn first_difference(left: &[RegexId], right: &[RegexId]) -> Difference
    ensures { result ≡ first_difference left.now right.now }
{
    for i in 0..left.len().min(right.len()) {
        let x = left[i];
        let y = right[i];
        if x != y {
            return Difference::Parts(x, y);
        }
    }
    Difference::Decided(left.len().cmp(&right.len()))
}
