//! What is decided next.

ghost use Rattle.std.specs.Prelude.{◌≡◌, ℕ, true, false, ◌≤◌, List, take, drop, Some, None, Ok, MatchOption};
ghost use Rattle.std.specs.List.{slice_get, list_all};
ghost use Rattle.sb_lit.specs.declared.clause.Lit.{Lit as TheLit};
ghost use Rattle.sb_lit.specs.Clauses.{is_among, is_true_under};
ghost use Rattle.sb_trail.specs.Assignments.{held, value_of, current_level};
ghost use Rattle.sb_clauses.specs.Propagation.{State, are_reserved};
ghost use Rattle.sb_search.specs.Found.{has_value, are_true};
ghost use Rattle.sb_search.specs.Searching.{have_places, IsNextAssumption, IsNextWanted, IsSearching, IsNext};
ghost use Rattle.sb_search.specs.declared.stage.Next.TheVariants.{Free};

use crate::choices::Choices;
use crate::restarts::Restarts;
use crate::theory::Theory;
use sb_clauses::Engine;
use sb_lit::Lit;
use sb_trail::Trail;

/// How far a search is with its assumptions and the atoms that are wanted.
#[derive(Drop)]
pub(crate) struct Stage {
    /// The decisions up to this level are assumptions.
    pub levels: usize,
    /// The assumptions before this place are true, where no other decision was made.
    pub next: usize,
    /// The place of the wanted atom that was found last where none waited. Those before it have values, but where levels
    /// were taken back.
    pub at: u64,
    pub choices: Choices,
    pub restarts: Restarts,
}

/// What is decided next.
#[derive(Clone, Copy)]
pub(crate) enum Next {
    /// This assumption, which has no value.
    Assume(Lit),
    /// All assumptions are true: this atom, which is wanted and has no value; nothing where none is left.
    Free(Option<u64>),
}

impl Next {
    /// Whether nothing is left to decide.
    pub fn is_last(self) -> bool
        ensures { self ≡ Free None → result ≡ true }
    {
        match self {
            Next::Assume(_) => false,
            Next::Free(atom) => atom.is_none(),
        }
    }
}

impl Stage {
    /// What is decided next; an `Err` is an assumption that is false.
    pub fn next<T: Theory>(
        &mut self,
        theory: &T,
        engine: &Engine,
        assumptions: &[Lit],
    ) -> Result<Next, Lit>
        requires { IsSearching (T.wanted theory.now) assumptions.now self.old.levels self.old.next engine.now }
        ensures levels { self.new.levels ≡ self.old.levels }
        ensures searching { IsSearching (T.wanted theory.now) assumptions.now self.new.levels self.new.next engine.now }
        ensures next { IsNext (T.wanted theory.now) assumptions.now self.new.levels engine.now result }
    {
        let trail = engine.trail();
        if trail.current_level() > self.levels {
            return Ok(Next::Free(free(theory, trail, &mut self.choices, &mut self.at)));
        }
        match next_assumption(trail, assumptions, &mut self.next) {
            Some(literal) => given(trail, literal),
            None => Ok(Next::Free(free(theory, trail, &mut self.choices, &mut self.at))),
        }
    }
}

/// An assumption that is not true: it has no value, or is false.
fn given(trail: &Trail, literal: Lit) -> Result<Next, Lit>
    requires { is_true_under (held trail.now.literals) literal ≡ false }
    ensures { (wanted : List ℕ) (assumptions : List TheLit) (levels : ℕ) (search : State) → search.trail ≡ trail.now
        → current_level trail.now.literals ≤ levels → is_among assumptions literal ≡ true
        → are_reserved trail.now.reserved assumptions ≡ true → IsNext wanted assumptions levels search result }
{
    if trail.literal_value(literal).is_none() {
        Ok(Next::Assume(literal))
    } else {
        Err(literal)
    }
}

/// A wanted atom without a value, where all assumptions are true: one that waits, or else one that is looked for.
fn free<T: Theory>(theory: &T, trail: &Trail, choices: &mut Choices, at: &mut u64) -> Option<u64>
    ensures { (assumptions : List TheLit) (levels : ℕ) (search : State) → search.trail ≡ trail.now
        → are_true (held trail.now.literals) assumptions ≡ true
        → have_places trail.now.reserved (T.wanted theory.now) ≡ true
        → IsNext (T.wanted theory.now) assumptions levels search (Ok (Free result)) }
{
    match choices.next(trail) {
        Some(atom) => Some(atom),
        None => next_wanted(theory, trail, at),
    }
}

/// The first assumption from the place on that is not true. The place becomes its own.
fn next_assumption(trail: &Trail, assumptions: &[Lit], next: &mut usize) -> Option<Lit>
    requires { are_true (held trail.now.literals) (take next.old assumptions.now) ≡ true }
    ensures first { are_true (held trail.now.literals) (take next.new assumptions.now) ≡ true }
    ensures next { IsNextAssumption (held trail.now.literals) assumptions.now result }
{
    while *next < assumptions.len() {
        let literal = assumptions[*next];
        if trail.literal_value(literal) != Some(true) {
            return Some(literal);
        }
        *next += 1;
    }
    None
}

/// A wanted atom without a value: the first from the place on, or else the first of all. The place becomes its own.
fn next_wanted<T: Theory>(theory: &T, trail: &Trail, at: &mut u64) -> Option<u64>
    ensures { IsNextWanted (T.wanted theory.now) trail.now.literals result }
{
    if let Some((place, atom)) = open_from(theory, trail, *at) {
        *at = place;
        return Some(atom);
    }
    let (place, atom) = open_from(theory, trail, 0)?;
    *at = place;
    Some(atom)
}

/// The first place from this one on whose atom has no value, with that atom.
#[tactic(auto, using(crate::proofs::Places::open_turn, crate::proofs::Places::open_end))]
fn open_from<T: Theory>(theory: &T, trail: &Trail, from: u64) -> Option<(u64, u64)>
    ensures { MatchOption result
        (list_all (has_value trail.now.literals) (drop from (T.wanted theory.now)) ≡ true)
        (λ found. (value_of trail.now.literals found.1 ≡ None)
        × (slice_get (T.wanted theory.now) found.0 ≡ Some found.1)) }
{
    let mut at = from;
    while let Some(atom) = theory.wanted_at(at) {
        if trail.value(atom).is_none() {
            return Some((at, atom));
        }
        at += 1;
    }
    None
}
