//! What the derivative of a regex is made from.

ghost use Rattle.std.specs.Prelude.{◌≡◌, ℕ, ◌<◌, ◌≤◌, Bool, true, length, IfOk};
ghost use Rattle.std.specs.List.{list_any};
ghost use Rattle.sb_class.specs.Ranges.{in_range, in_ranges};
ghost use Rattle.sb_lang.specs.Constructors.{mkcat, mkalt, mkand, mknot, mkrep};
ghost use Rattle.sb_regex.specs.Numbered.{regex_at, regexes_at, AllNumbers, Extends, Names};
ghost use Rattle.sb_plain.specs.Making.{made, set_ranges, least_parts, OperandIsKnown, IsShape, IsShapeOfCat, IsShapeOfRep};

use sb_lang::fold::{intersection_of_members, union_of_members};
use sb_regex::{Arena, Node, RegexId};
use std::alloc::{AllocError, Global};

/// What makes the derivative of a regex of those of its parts.
#[derive(Drop)]
pub(crate) enum Operation {
    /// No word, whatever the character is.
    Nothing,
    /// The empty word, if the character is in these ranges.
    Set(Vec<(u32, u32)>),
    /// The first with this regex behind it.
    Cat(RegexId),
    /// The first with this regex behind it, or the second.
    CatOrRest(RegexId),
    /// The union of all.
    Alt,
    /// The intersection of all.
    And,
    /// The complement of the first.
    Not,
    /// The first with so many repetitions of this regex behind it.
    Rep(RegexId, u64, u64),
    /// The words along which the derivative takes the first to this regex.
    Path(RegexId),
}

/// How the derivative of a regex is made, and the parts whose derivatives it takes.
#[derive(Drop)]
pub(crate) struct Shape {
    pub(crate) operation: Operation,
    pub(crate) parts: Vec<RegexId>,
}

/// The shape of a regex. Linear in the number of its parts or ranges.
pub(crate) fn shape_of(alloc: Global, arena: &Arena, id: RegexId) -> Result<Shape, AllocError>
    requires { id < length arena.now }
    ensures { IfOk result (λ shape. IsShape arena.now id shape.operation shape.parts.items) }
{
    match arena.node(id) {
        Node::None => with_parts(alloc, Operation::Nothing, &[]),
        Node::Eps => with_parts(alloc, Operation::Nothing, &[]),
        Node::Set(ranges) => {
            let ranges = Vec::from_slice(alloc, ranges.as_slice())?;
            with_parts(alloc, Operation::Set(ranges), &[])
        }
        Node::Cat(a, b) => shape_of_cat(alloc, arena, *a, *b),
        Node::Alt(parts) => with_parts(alloc, Operation::Alt, parts.as_slice()),
        Node::And(parts) => with_parts(alloc, Operation::And, parts.as_slice()),
        Node::Not(a) => with_parts(alloc, Operation::Not, &[*a]),
        Node::Star(a) => with_parts(alloc, Operation::Cat(id), &[*a]),
        Node::Rep(a, least, most) => shape_of_rep(alloc, arena, *a, *least, *most),
        Node::Path(a, b) => with_parts(alloc, Operation::Path(*b), &[*a]),
    }
}

/// One repetition less stands behind the derivative of the body.
fn shape_of_rep(
    alloc: Global,
    arena: &Arena,
    a: RegexId,
    least: u64,
    most: u64,
) -> Result<Shape, AllocError>
    requires { a < length arena.now }
    ensures { IfOk result
        (λ shape. IsShapeOfRep arena.now a least most shape.operation shape.parts.items) }
{
    if most == 0 {
        return with_parts(alloc, Operation::Nothing, &[]);
    }
    with_parts(
        alloc,
        Operation::Rep(a, least.saturating_sub(1), most - 1),
        &[a],
    )
}

/// The second part counts where the first one is nullable.
fn shape_of_cat(alloc: Global, arena: &Arena, a: RegexId, b: RegexId) -> Result<Shape, AllocError>
    requires first { a < length arena.now }
    requires second { b < length arena.now }
    ensures { IfOk result (λ shape. IsShapeOfCat arena.now a b shape.operation shape.parts.items) }
{
    if arena.nullable(a) {
        with_parts(alloc, Operation::CatOrRest(b), &[a, b])
    } else {
        with_parts(alloc, Operation::Cat(b), &[a])
    }
}

fn with_parts(alloc: Global, operation: Operation, parts: &[RegexId]) -> Result<Shape, AllocError>
    ensures { IfOk result (λ shape. (shape.operation ≡ operation) × (shape.parts.items ≡ parts.now)) }
{
    let parts = Vec::from_slice(alloc, parts)?;
    Ok(Shape { operation, parts })
}

impl Operation {
    /// The ranges of a set.
    #[tactic(auto, unfolding(crate::specs::Making::set_ranges))]
    pub(crate) fn ranges(&self) -> &[(u32, u32)]
        ensures { result.now ≡ set_ranges self.now }
    {
        match self {
            Operation::Set(ranges) => ranges.as_slice(),
            Operation::Nothing | Operation::Cat(_) | Operation::CatOrRest(_) => &[],
            Operation::Alt | Operation::And | Operation::Not | Operation::Rep(..) => &[],
            Operation::Path(_) => &[],
        }
    }

    /// What is made by a character of these, the derivatives of the parts: one constructor, or two.
    #[tactic(auto, unfolding(crate::specs::Making::made, crate::specs::Making::least_parts))]
    pub(crate) fn make(
        &self,
        alloc: Global,
        arena: &mut Arena,
        c: u32,
        ids: &[RegexId],
    ) -> Result<RegexId, AllocError>
        requires members { AllNumbers arena.old ids.now }
        requires long { least_parts self.now ≤ length ids.now }
        requires operand { OperandIsKnown arena.old self.now }
        ensures ok { IfOk result
            (λ id. Names arena.new id (made arena.old self.now c (regexes_at arena.old ids.now))) }
        ensures extends { Extends arena.old arena.new }
    {
        match self {
            Operation::Nothing => arena.none(),
            Operation::Set(ranges) => {
                if contains(ranges, c) {
                    arena.eps()
                } else {
                    arena.none()
                }
            }
            Operation::Cat(b) => arena.cat(ids[0], *b),
            Operation::CatOrRest(b) => {
                let front = arena.cat(ids[0], *b)?;
                arena.alt(&[front, ids[1]])
            }
            Operation::Alt => union_of(alloc, arena, ids),
            Operation::And => intersection_of(alloc, arena, ids),
            Operation::Not => arena.not(ids[0]),
            Operation::Rep(a, least, most) => cat_with_rep(arena, ids[0], *a, *least, *most),
            Operation::Path(b) => arena.path(ids[0], *b),
        }
    }
}

/// A regex with repetitions of another one behind it.
fn cat_with_rep(
    arena: &mut Arena,
    front: RegexId,
    a: RegexId,
    least: u64,
    most: u64,
) -> Result<RegexId, AllocError>
    requires front { front < length arena.old }
    requires body { a < length arena.old }
    ensures ok { IfOk result
        (λ id. Names arena.new id (mkcat (regex_at arena.old front) (mkrep (regex_at arena.old a) least most))) }
    ensures extends { Extends arena.old arena.new }
{
    let rest = arena.rep(a, least, most)?;
    arena.cat(front, rest)
}

/// The union.
fn union_of(alloc: Global, arena: &mut Arena, ids: &[RegexId]) -> Result<RegexId, AllocError>
    requires { AllNumbers arena.old ids.now }
    ensures ok { IfOk result (λ id. Names arena.new id (mkalt (regexes_at arena.old ids.now))) }
    ensures extends { Extends arena.old arena.new }
{
    union_of_members();
    arena.normal_regexes_each_once();
    let members = without_runs(alloc, ids)?;
    arena.alt(&members)
}

/// The intersection.
fn intersection_of(alloc: Global, arena: &mut Arena, ids: &[RegexId]) -> Result<RegexId, AllocError>
    requires { AllNumbers arena.old ids.now }
    ensures ok { IfOk result (λ id. Names arena.new id (mkand (regexes_at arena.old ids.now))) }
    ensures extends { Extends arena.old arena.new }
{
    intersection_of_members();
    arena.normal_regexes_each_once();
    let members = without_runs(alloc, ids)?;
    arena.and(&members)
}

/// The numbers without those that are equal to the one before, as the many are that stand for none.
fn without_runs(alloc: Global, ids: &[RegexId]) -> Result<Vec<RegexId>, AllocError>
    ensures { IfOk result (λ some. (t : ℕ → Bool) → list_any t some.items ≡ list_any t ids.now) }
{
    let mut some = Vec::new(alloc);
    for id in ids {
        if !ends_with(&some, *id) {
            some.push(*id)?;
        }
    }
    Ok(some)
}

/// Whether a number is the last one.
fn ends_with(ids: &[RegexId], id: RegexId) -> bool
    ensures { result ≡ true → (t : ℕ → Bool) → t id ≡ true → list_any t ids.now ≡ true }
{
    match ids {
        [] => false,
        [.., last] => *last == id,
    }
}

/// Whether a number is in one of the ranges.
fn contains(ranges: &[(u32, u32)], c: u32) -> bool
    ensures { result ≡ in_ranges ranges.now c }
{
    for range in ranges {
        if lies_in(*range, c) {
            return true;
        }
    }
    false
}

#[tactic(auto, unfolding(sb_class::specs::Ranges::in_range))]
fn lies_in(range: (u32, u32), c: u32) -> bool
    ensures { result ≡ in_range range c }
{
    range.0 <= c && c <= range.1
}
