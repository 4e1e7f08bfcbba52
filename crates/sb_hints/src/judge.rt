//! Clauses that are learned by their hints.

ghost use Rattle.std.specs.Prelude.{◌≡◌, List, map, IfOk};
ghost use Rattle.std.specs.List.{list_all};
ghost use Rattle.std.specs.HashSet.{contains};
ghost use Rattle.sb_lit.specs.declared.clause.Lit.{Lit};
ghost use Rattle.sb_lit.specs.Clauses.{negation, are_ascending};
ghost use Rattle.sb_lit.specs.Hints.{course, finding, greatest_level, learned, stays_open};
ghost use Rattle.sb_hints.specs.Listing.{are_equal};
ghost use Rattle.sb_hints.specs.Judging.{IsJudged};
ghost use Rattle.sb_hints.specs.Following.{IsSetOf, GoesOn, clause_at, clauses_at, is_known, rises_to, as_finding, as_course, with_literal};

use crate::clauses::KeptClauses;
use sb_lit::Lit;
use std::alloc::{AllocError, Global};
use std::collections::HashSet;
use thiserror::Error;

/// Why a clause is not learned by its hints.
#[derive(Clone, Copy, Debug, Error)]
pub enum NotLearned {
    /// A hint names no kept clause.
    #[error("a hint names no kept clause")]
    UnknownHint,
    /// Some kept clause has only literals of the clause.
    #[error("a kept clause is part of the clause")]
    Repeated,
    /// A hint neither forces a literal nor is false, or stands behind one that is false.
    #[error("a hint forces no literal")]
    IdleHint,
    /// The last hint is not false, or the literals do not ascend.
    #[error("the clause does not follow by its hints")]
    NotByHints,
    /// There is not enough memory, and nothing is known of the clause.
    #[error("out of memory")]
    NoMemory,
}

impl From<AllocError> for NotLearned {
    ghost use Rattle.sb_hints.specs.declared.judge.NotLearned.TheVariants.{NoMemory};

    ghost from_gives = { λ _ error. error ≡ NoMemory };

    fn from(_error: AllocError) -> NotLearned {
        NotLearned::NoMemory
    }
}

/// What a clause gives where some literals are true.
#[derive(Clone, Copy)]
pub(crate) enum Finding {
    /// All its literals are false.
    Falsified,
    /// All its literals but this one are false, and this one has no value.
    Forces(Lit),
    /// Neither.
    Idle,
}

/// What hints give in order.
#[derive(Clone, Copy)]
pub(crate) enum Course {
    /// Each forces a literal but the last one, which is false.
    EndsFalse,
    /// Each forces a literal.
    StaysOpen,
    /// One neither forces a literal nor is false, or stands behind one that is false.
    HasIdleHint,
}

impl KeptClauses {
    /// The level of a clause that is learned by these hints, the numbers of kept clauses: the greatest of their
    /// levels. Where all literals of the clause are taken to be false, each hint has to force one more literal, and
    /// the last one has to be false.
    ///
    /// An error says why the clause is not learned; `NoMemory` says nothing of it. Linear in the literals of the
    /// clause and of the clauses that the hints name, beside what [`KeptClauses::is_repeated`] takes.
    pub fn learned(&self, clause: &[Lit], ids: &[u64]) -> Result<u64, NotLearned>
        ensures { IsJudged (learned self.now clause.now ids.now) result }
    {
        if !are_known(self, ids) {
            return Err(NotLearned::UnknownHint);
        }
        if self.is_repeated(clause)? {
            return Err(NotLearned::Repeated);
        }
        let mut held = negations(self.allocator(), clause)?;
        match follow(self, &mut held, ids)? {
            Course::EndsFalse => {
                if are_ascending(clause) {
                    return Ok(greatest_level(self, ids));
                }
                Err(NotLearned::NotByHints)
            }
            Course::StaysOpen => Err(NotLearned::NotByHints),
            Course::HasIdleHint => Err(NotLearned::IdleHint),
        }
    }
}

/// The set of the negations of these literals.
fn negations(alloc: Global, literals: &[Lit]) -> Result<HashSet<Lit>, AllocError>
    ensures { IfOk result (λ all. IsSetOf (map negation literals.now) (contains are_equal all)) }
{
    let mut all = HashSet::new(alloc);
    for literal in literals {
        all.insert(literal.negated())?;
    }
    Ok(all)
}

/// Whether there is a kept clause of each number.
fn are_known(kept: &KeptClauses, ids: &[u64]) -> bool
    ensures { result ≡ list_all (is_known kept.now) ids.now }
{
    ids.iter().all(|id| kept.level(*id).is_some())
}

/// The literals of the clause of a number, none where it is not kept.
fn literals_at(kept: &KeptClauses, id: u64) -> &[Lit]
    ensures { result.now ≡ (clause_at kept.now id).literals }
{
    match kept.clause(id) {
        Some(literals) => literals,
        None => &[],
    }
}

/// The greatest level of the clauses of these numbers.
fn greatest_level(kept: &KeptClauses, ids: &[u64]) -> u64
    ensures { result ≡ greatest_level (clauses_at kept.now ids.now) }
{
    let mut greatest = 0;
    for id in ids {
        greatest = kept.level(*id).unwrap_or(0).max(greatest);
    }
    greatest
}

/// Whether the literal comes behind the one before it, if there is one.
fn rises(before: Option<Lit>, literal: Lit) -> bool
    ensures { result ≡ rises_to before literal }
{
    match before {
        Some(last) => last.cmp(&literal).is_lt(),
        None => true,
    }
}

/// Whether the literals ascend, so that none is repeated. Linear, and takes no memory.
pub fn are_ascending(literals: &[Lit]) -> bool
    ensures { result ≡ are_ascending literals.now }
{
    let mut before = None;
    for literal in literals {
        if !rises(before, *literal) {
            return false;
        }
        before = Some(*literal);
    }
    true
}

impl Finding {
    /// What a clause gives that has one literal more.
    fn with(self, held: &HashSet<Lit>, literal: Lit) -> Finding
        ensures { as_finding result ≡ with_literal (contains are_equal held.now) (as_finding self) literal }
    {
        if held.contains(&literal.negated()) {
            return self;
        }
        match self {
            Finding::Falsified => {
                if held.contains(&literal) {
                    return Finding::Idle;
                }
                Finding::Forces(literal)
            }
            Finding::Forces(forced) => {
                if forced == literal {
                    return self;
                }
                Finding::Idle
            }
            Finding::Idle => Finding::Idle,
        }
    }
}

/// What a clause gives where these literals are true.
fn finding_of(held: &HashSet<Lit>, clause: &[Lit]) -> Finding
    ensures { (ls : List Lit) → IsSetOf ls (contains are_equal held.now) → as_finding result ≡ finding ls clause.now }
{
    let mut found = Finding::Falsified;
    for literal in clause {
        found = found.with(held, *literal);
    }
    found
}

/// What hints that stayed open give with one more. A literal that it forces is held from then on.
fn follow_open(held: &mut HashSet<Lit>, clause: &[Lit]) -> Result<Course, AllocError>
    ensures { IfOk result (λ next. (ls : List Lit) → IsSetOf ls (contains are_equal held.old)
        → GoesOn stays_open ls clause.now (as_course next) (contains are_equal held.new)) }
{
    match finding_of(held, clause) {
        Finding::Falsified => Ok(Course::EndsFalse),
        Finding::Forces(literal) => {
            held.insert(literal)?;
            Ok(Course::StaysOpen)
        }
        Finding::Idle => Ok(Course::HasIdleHint),
    }
}

impl Course {
    /// What hints give with one more.
    fn with(self, held: &mut HashSet<Lit>, clause: &[Lit]) -> Result<Course, AllocError>
        ensures { IfOk result (λ next. (ls : List Lit) → IsSetOf ls (contains are_equal held.old)
            → GoesOn (as_course self) ls clause.now (as_course next) (contains are_equal held.new)) }
    {
        match self {
            Course::StaysOpen => follow_open(held, clause),
            Course::EndsFalse | Course::HasIdleHint => Ok(Course::HasIdleHint),
        }
    }
}

/// What hints give in order, where these literals are true. A literal that one forces is held from then on.
fn follow(kept: &KeptClauses, held: &mut HashSet<Lit>, ids: &[u64]) -> Result<Course, AllocError>
    ensures { IfOk result (λ c. (ls : List Lit) → IsSetOf ls (contains are_equal held.old)
        → as_course c ≡ course ls (clauses_at kept.now ids.now)) }
{
    let mut course = Course::StaysOpen;
    for id in ids {
        course = course.with(held, literals_at(kept, *id))?;
    }
    Ok(course)
}
