//! What is made of the targets of parts.

ghost use Rattle.std.specs.Prelude.{◌≡◌, ◌<◌, ◌∷◌, [], List, true, length, IfOk};
ghost use Rattle.sb_lang.specs.Regex.{Regex, none, eps, neg};
ghost use Rattle.sb_lang.specs.Constructors.{mkalt, mkand};
ghost use Rattle.sb_regex.specs.Numbered.{regex_at, regexes_at, AllNumbers, Extends, Names};
ghost use Rattle.sb_deriv.specs.Choices.{made, drops, absorbs, AreConstants, OperandIsKnown, IsShape};

use sb_lang::fold::union_of_one;
use sb_lang::order::order_tells_apart;
use sb_regex::{Arena, Node, RegexId};
use smallvec::SmallVec;
use std::alloc::{AllocError, Global};

/// The numbers of three regexes that are asked for again and again.
#[derive(Drop)]
pub(crate) struct Constants {
    pub(crate) none: RegexId,
    pub(crate) eps: RegexId,
    pub(crate) everything: RegexId,
}

impl Constants {
    /// The numbers in an arena.
    pub(crate) fn of(arena: &mut Arena) -> Result<Constants, AllocError>
        ensures ok { IfOk result (λ constants. AreConstants arena.new constants) }
        ensures extends { Extends arena.old arena.new }
    {
        let none = arena.none()?;
        let eps = arena.eps()?;
        let everything = arena.and(&[])?;
        Ok(Constants {
            none,
            eps,
            everything,
        })
    }

    pub(crate) fn again(&self) -> Constants
        ensures { result ≡ self.now }
    {
        Constants {
            none: self.none,
            eps: self.eps,
            everything: self.everything,
        }
    }

    /// Whether they are the numbers in an arena.
    pub(crate) fn are_of(&self, arena: &Arena) -> bool
        ensures { result ≡ true → AreConstants arena.now self.now }
    {
        is_none(arena, self.none)
            && is_eps(arena, self.eps)
            && is_complement(arena, self.everything, self.none)
    }
}

fn is_none(arena: &Arena, id: RegexId) -> bool
    ensures { result ≡ true → Names arena.now id none }
{
    id.number() < arena.len() && matches!(arena.node(id), Node::None)
}

fn is_eps(arena: &Arena, id: RegexId) -> bool
    ensures { result ≡ true → Names arena.now id eps }
{
    id.number() < arena.len() && matches!(arena.node(id), Node::Eps)
}

/// Whether the regex is the complement of another.
fn is_complement(arena: &Arena, id: RegexId, of: RegexId) -> bool
    ensures { result ≡ true → Names arena.now id (neg (regex_at arena.now of)) }
{
    if id.number() >= arena.len() {
        return false;
    }
    match arena.node(id) {
        Node::Not(a) => *a == of,
        _ => false,
    }
}

/// Whether the regex is a union whose parts are these, as they stand.
fn is_union(arena: &Arena, id: RegexId, ids: &[RegexId]) -> bool
    requires { id < length arena.now }
    ensures { result ≡ true → Names arena.now id (mkalt (regexes_at arena.now ids.now)) }
{
    order_tells_apart();
    arena.normal_regexes_each_once();
    match arena.node(id) {
        Node::Alt(parts) => parts.as_slice() == ids,
        _ => false,
    }
}

/// Whether the regex is an intersection whose parts are these, as they stand.
fn is_intersection(arena: &Arena, id: RegexId, ids: &[RegexId]) -> bool
    requires { id < length arena.now }
    ensures { result ≡ true → Names arena.now id (mkand (regexes_at arena.now ids.now)) }
{
    order_tells_apart();
    arena.normal_regexes_each_once();
    match arena.node(id) {
        Node::And(parts) => parts.as_slice() == ids,
        _ => false,
    }
}

/// What makes a regex of the targets of parts.
#[derive(Drop)]
pub(crate) enum Operation {
    /// The union of all.
    Alt,
    /// The intersection of all.
    And,
    /// The complement of the first.
    Not,
    /// The first with this regex behind it.
    Cat(RegexId),
    /// The words along which the derivative takes the first to this regex.
    Path(RegexId),
}

impl Operation {
    /// What is made of these, which the hint may be.
    pub(crate) fn make(
        &self,
        arena: &mut Arena,
        constants: &Constants,
        hint: RegexId,
        ids: &[RegexId],
    ) -> Result<RegexId, AllocError>
        requires constants { AreConstants arena.old constants.now }
        requires hint { hint < length arena.old }
        requires members { AllNumbers arena.old ids.now }
        requires operand { OperandIsKnown arena.old self.now }
        ensures ok { IfOk result (λ id. Names arena.new id (made arena.old self.now (regexes_at arena.old ids.now))) }
        ensures extends { Extends arena.old arena.new }
    {
        match ids {
            [] => Ok(self.of_none(constants)),
            [id] => self.of_one(arena, constants, *id),
            _ => {
                if self.gives(arena, ids, hint) {
                    return Ok(hint);
                }
                self.of_many(arena, ids)
            }
        }
    }

    /// Whether the regex is the union or intersection that is made of these.
    fn gives(&self, arena: &Arena, ids: &[RegexId], id: RegexId) -> bool
        requires { id < length arena.now }
        ensures { result ≡ true → Names arena.now id (made arena.now self.now (regexes_at arena.now ids.now)) }
    {
        match self {
            Operation::Alt => is_union(arena, id, ids),
            Operation::And => is_intersection(arena, id, ids),
            Operation::Not | Operation::Cat(_) | Operation::Path(_) => false,
        }
    }

    /// What is made of no regex.
    fn of_none(&self, constants: &Constants) -> RegexId
        ensures { (rs : List Regex) → AreConstants rs constants.now → Names rs result (made rs self.now []) }
    {
        match self {
            Operation::And => constants.everything,
            Operation::Alt | Operation::Not | Operation::Cat(_) | Operation::Path(_) =>
                constants.none,
        }
    }

    /// What is made of one regex.
    fn of_one(
        &self,
        arena: &mut Arena,
        constants: &Constants,
        id: RegexId,
    ) -> Result<RegexId, AllocError>
        requires constants { AreConstants arena.old constants.now }
        requires member { id < length arena.old }
        requires operand { OperandIsKnown arena.old self.now }
        ensures ok { IfOk result
            (λ made_id. Names arena.new made_id (made arena.old self.now (regex_at arena.old id ∷ []))) }
        ensures extends { Extends arena.old arena.new }
    {
        union_of_one();
        arena.normal_regexes_each_once();
        match self {
            Operation::Alt => Ok(id),
            Operation::And => {
                if id == constants.none {
                    return Ok(id);
                }
                arena.and(&[id])
            }
            Operation::Not => arena.not(id),
            Operation::Cat(b) => arena.cat(id, *b),
            Operation::Path(b) => arena.path(id, *b),
        }
    }

    /// What is made of two and more.
    fn of_many(&self, arena: &mut Arena, ids: &[RegexId]) -> Result<RegexId, AllocError>
        requires members { AllNumbers arena.old ids.now }
        requires operand { OperandIsKnown arena.old self.now }
        ensures ok { IfOk result (λ id. Names arena.new id (made arena.old self.now (regexes_at arena.old ids.now))) }
        ensures extends { Extends arena.old arena.new }
    {
        match self {
            Operation::Alt => arena.alt(ids),
            Operation::And => arena.and(ids),
            Operation::Not => match ids {
                [] => arena.none(),
                [a, ..] => arena.not(*a),
            },
            Operation::Cat(b) => match ids {
                [] => arena.none(),
                [a, ..] => arena.cat(*a, *b),
            },
            Operation::Path(b) => match ids {
                [] => arena.none(),
                [a, ..] => arena.path(*a, *b),
            },
        }
    }

    /// Whether the regex makes no difference among others.
    #[tactic(auto, unfolding(crate::specs::Choices::drops))]
    pub(crate) fn drops(&self, constants: &Constants, id: RegexId) -> bool
        ensures { result ≡ drops constants.now self.now id }
    {
        match self {
            Operation::Alt => id == constants.none,
            Operation::And => id == constants.everything,
            Operation::Not | Operation::Cat(_) | Operation::Path(_) => false,
        }
    }

    /// Whether the others make no difference to the regex.
    #[tactic(auto, unfolding(crate::specs::Choices::absorbs))]
    pub(crate) fn absorbs(&self, constants: &Constants, id: RegexId) -> bool
        ensures { result ≡ absorbs constants.now self.now id }
    {
        match self {
            Operation::Alt => id == constants.everything,
            Operation::And => id == constants.none,
            Operation::Not | Operation::Cat(_) | Operation::Path(_) => false,
        }
    }
}

/// How the derivative of a regex is made.
#[derive(Drop)]
pub(crate) enum Shape {
    /// It is none everywhere.
    Nowhere,
    /// Of a set with these ranges.
    Set(Vec<(u32, u32)>),
    /// Of a concatenation.
    Cat(RegexId, RegexId),
    /// Of a repetition: the body, and the least and the greatest number of times.
    Rep(RegexId, u64, u64),
    /// By an operation, from the derivatives of parts.
    Made(Operation, SmallVec<RegexId, 16>),
}

/// The shape of a regex. Linear in the number of its parts or ranges. Up to sixteen parts take no memory.
pub(crate) fn shape_of(alloc: Global, arena: &Arena, id: RegexId) -> Result<Shape, AllocError>
    requires { id < length arena.now }
    ensures { IfOk result (λ shape. IsShape arena.now id shape) }
{
    arena.normal_regexes_each_once();
    match arena.node(id) {
        Node::None => Ok(Shape::Nowhere),
        Node::Eps => Ok(Shape::Nowhere),
        Node::Set(ranges) => Ok(Shape::Set(Vec::from_slice(alloc, ranges.as_slice())?)),
        Node::Cat(a, b) => Ok(Shape::Cat(*a, *b)),
        Node::Alt(parts) => {
            let parts = SmallVec::from_slice(alloc, parts.as_slice())?;
            Ok(Shape::Made(Operation::Alt, parts))
        }
        Node::And(parts) => {
            let parts = SmallVec::from_slice(alloc, parts.as_slice())?;
            Ok(Shape::Made(Operation::And, parts))
        }
        Node::Not(a) => {
            let parts = SmallVec::from_slice(alloc, &[*a])?;
            Ok(Shape::Made(Operation::Not, parts))
        }
        Node::Star(a) => {
            let parts = SmallVec::from_slice(alloc, &[*a])?;
            Ok(Shape::Made(Operation::Cat(id), parts))
        }
        Node::Rep(a, least, most) => Ok(Shape::Rep(*a, *least, *most)),
        Node::Path(a, b) => {
            let parts = SmallVec::from_slice(alloc, &[*a])?;
            Ok(Shape::Made(Operation::Path(*b), parts))
        }
    }
}
