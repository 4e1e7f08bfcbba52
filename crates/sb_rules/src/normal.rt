//! Regexes that lines define, made in an arena where they are normal: where the constructor gives the node itself.

ghost use Rattle.std.specs.Prelude.{◌≡◌, ◌<◌, length, IfOk};
ghost use Rattle.sb_lang.specs.Regex.{set, cat, alt, and, neg, star, rep, path, regexes};
ghost use Rattle.sb_regex.specs.Numbered.{regex_at, regexes_at, AllNumbers, Extends};
ghost use Rattle.sb_rules.specs.Making.{IsNormalAs, is_cat_of, is_alt_of, is_and_of, is_not_of, is_star_of, is_rep_of, is_path_of, is_cat_node};

use crate::ranges::class_of;
use sb_class::Class;
use sb_lang::order::order_tells_apart;
use sb_regex::{Arena, Node, RegexId};
use std::alloc::{AllocError, Global};

/// The set of these ranges. Linear in their number.
pub(crate) fn set(
    alloc: Global,
    arena: &mut Arena,
    ranges: &[(u64, u64)],
) -> Result<Option<RegexId>, AllocError>
    ensures normal { IfOk result (λ found. IsNormalAs arena.new (set ranges.now) found) }
    ensures extends { Extends arena.old arena.new }
{
    let Some(class) = class_of(alloc, ranges)? else {
        return Ok(None);
    };
    set_of(arena, &class)
}

/// The set of a class, unless it is empty.
fn set_of(arena: &mut Arena, class: &Class) -> Result<Option<RegexId>, AllocError>
    ensures normal { IfOk result (λ found. IsNormalAs arena.new (set class.now) found) }
    ensures extends { Extends arena.old arena.new }
{
    if class.ranges().is_empty() {
        return Ok(None);
    }
    Ok(Some(arena.set(class)?))
}

/// The concatenation of two regexes. Constant time.
pub(crate) fn cat(arena: &mut Arena, a: RegexId, b: RegexId) -> Result<Option<RegexId>, AllocError>
    requires left { a < length arena.old }
    requires right { b < length arena.old }
    ensures normal { IfOk result
        (λ found. IsNormalAs arena.new (cat (regex_at arena.old a) (regex_at arena.old b)) found) }
    ensures extends { Extends arena.old arena.new }
{
    order_tells_apart();
    if is_cat(arena.node(a)) {
        return Ok(None);
    }
    let id = arena.cat(a, b)?;
    arena.normal_regexes_each_once();
    if is_cat_of(arena.node(id), a, b) {
        return Ok(Some(id));
    }
    Ok(None)
}

/// The union of regexes. It takes the time of the arena's union.
pub(crate) fn alt(arena: &mut Arena, ids: &[RegexId]) -> Result<Option<RegexId>, AllocError>
    requires { AllNumbers arena.old ids.now }
    ensures normal { IfOk result
        (λ found. IsNormalAs arena.new (alt (regexes (regexes_at arena.old ids.now))) found) }
    ensures extends { Extends arena.old arena.new }
{
    order_tells_apart();
    let id = arena.alt(ids)?;
    arena.normal_regexes_each_once();
    if is_alt_of(arena.node(id), ids) {
        return Ok(Some(id));
    }
    Ok(None)
}

/// The intersection of regexes. It takes the time of the arena's intersection.
pub(crate) fn and(arena: &mut Arena, ids: &[RegexId]) -> Result<Option<RegexId>, AllocError>
    requires { AllNumbers arena.old ids.now }
    ensures normal { IfOk result
        (λ found. IsNormalAs arena.new (and (regexes (regexes_at arena.old ids.now))) found) }
    ensures extends { Extends arena.old arena.new }
{
    order_tells_apart();
    let id = arena.and(ids)?;
    arena.normal_regexes_each_once();
    if is_and_of(arena.node(id), ids) {
        return Ok(Some(id));
    }
    Ok(None)
}

/// The complement of a regex. Constant time.
pub(crate) fn not(arena: &mut Arena, a: RegexId) -> Result<Option<RegexId>, AllocError>
    requires { a < length arena.old }
    ensures normal { IfOk result (λ found. IsNormalAs arena.new (neg (regex_at arena.old a)) found) }
    ensures extends { Extends arena.old arena.new }
{
    order_tells_apart();
    let id = arena.not(a)?;
    arena.normal_regexes_each_once();
    if is_not_of(arena.node(id), a) {
        return Ok(Some(id));
    }
    Ok(None)
}

/// The star of a regex. It takes the time of the arena's star.
pub(crate) fn star(arena: &mut Arena, a: RegexId) -> Result<Option<RegexId>, AllocError>
    requires { a < length arena.old }
    ensures normal { IfOk result (λ found. IsNormalAs arena.new (star (regex_at arena.old a)) found) }
    ensures extends { Extends arena.old arena.new }
{
    order_tells_apart();
    let id = arena.star(a)?;
    arena.normal_regexes_each_once();
    if is_star_of(arena.node(id), a) {
        return Ok(Some(id));
    }
    Ok(None)
}

/// The repetition of a regex, from one number of times to another. Constant time.
pub(crate) fn rep(
    arena: &mut Arena,
    a: RegexId,
    least: u64,
    most: u64,
) -> Result<Option<RegexId>, AllocError>
    requires { a < length arena.old }
    ensures normal { IfOk result
        (λ found. IsNormalAs arena.new (rep (regex_at arena.old a) least most) found) }
    ensures extends { Extends arena.old arena.new }
{
    order_tells_apart();
    let id = arena.rep(a, least, most)?;
    arena.normal_regexes_each_once();
    if is_rep_of(arena.node(id), a, least, most) {
        return Ok(Some(id));
    }
    Ok(None)
}

/// The words along which the derivative takes one regex to another. Constant time.
pub(crate) fn path(arena: &mut Arena, a: RegexId, b: RegexId) -> Result<Option<RegexId>, AllocError>
    requires left { a < length arena.old }
    requires right { b < length arena.old }
    ensures normal { IfOk result
        (λ found. IsNormalAs arena.new (path (regex_at arena.old a) (regex_at arena.old b)) found) }
    ensures extends { Extends arena.old arena.new }
{
    order_tells_apart();
    let id = arena.path(a, b)?;
    arena.normal_regexes_each_once();
    if is_path_of(arena.node(id), a, b) {
        return Ok(Some(id));
    }
    Ok(None)
}

fn is_cat(node: &Node) -> bool
    ensures { result ≡ is_cat_node node.now }
{
    match node {
        Node::Cat(..) => true,
        Node::None | Node::Eps | Node::Set(_) => false,
        Node::Alt(_) | Node::And(_) | Node::Not(_) | Node::Star(_) | Node::Rep(..) => false,
        Node::Path(..) => false,
    }
}

fn is_cat_of(node: &Node, a: RegexId, b: RegexId) -> bool
    ensures { result ≡ is_cat_of a b node.now }
{
    match node {
        Node::Cat(first, second) => *first == a && *second == b,
        Node::None | Node::Eps | Node::Set(_) => false,
        Node::Alt(_) | Node::And(_) | Node::Not(_) | Node::Star(_) | Node::Rep(..) => false,
        Node::Path(..) => false,
    }
}

fn is_alt_of(node: &Node, ids: &[RegexId]) -> bool
    ensures { result ≡ is_alt_of ids.now node.now }
{
    match node {
        Node::Alt(parts) => parts.as_slice() == ids,
        Node::None | Node::Eps | Node::Set(_) => false,
        Node::Cat(..) | Node::And(_) | Node::Not(_) | Node::Star(_) | Node::Rep(..) => false,
        Node::Path(..) => false,
    }
}

fn is_and_of(node: &Node, ids: &[RegexId]) -> bool
    ensures { result ≡ is_and_of ids.now node.now }
{
    match node {
        Node::And(parts) => parts.as_slice() == ids,
        Node::None | Node::Eps | Node::Set(_) => false,
        Node::Cat(..) | Node::Alt(_) | Node::Not(_) | Node::Star(_) | Node::Rep(..) => false,
        Node::Path(..) => false,
    }
}

fn is_not_of(node: &Node, a: RegexId) -> bool
    ensures { result ≡ is_not_of a node.now }
{
    match node {
        Node::Not(part) => *part == a,
        Node::None | Node::Eps | Node::Set(_) => false,
        Node::Cat(..) | Node::Alt(_) | Node::And(_) | Node::Star(_) | Node::Rep(..) => false,
        Node::Path(..) => false,
    }
}

fn is_star_of(node: &Node, a: RegexId) -> bool
    ensures { result ≡ is_star_of a node.now }
{
    match node {
        Node::Star(part) => *part == a,
        Node::None | Node::Eps | Node::Set(_) => false,
        Node::Cat(..) | Node::Alt(_) | Node::And(_) | Node::Not(_) | Node::Rep(..) => false,
        Node::Path(..) => false,
    }
}

fn is_rep_of(node: &Node, a: RegexId, least: u64, most: u64) -> bool
    ensures { result ≡ is_rep_of a least most node.now }
{
    match node {
        Node::Rep(part, fewest, greatest) => {
            *part == a && (*fewest == least && *greatest == most)
        }
        Node::None | Node::Eps | Node::Set(_) => false,
        Node::Cat(..) | Node::Alt(_) | Node::And(_) | Node::Not(_) | Node::Star(_) => false,
        Node::Path(..) => false,
    }
}

fn is_path_of(node: &Node, a: RegexId, b: RegexId) -> bool
    ensures { result ≡ is_path_of a b node.now }
{
    match node {
        Node::Path(from, to) => *from == a && *to == b,
        Node::None | Node::Eps | Node::Set(_) => false,
        Node::Cat(..) | Node::Alt(_) | Node::And(_) | Node::Not(_) => false,
        Node::Star(_) | Node::Rep(..) => false,
    }
}
