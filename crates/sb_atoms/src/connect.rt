//! The literals that connectives make of literals.

ghost use Rattle.std.specs.Prelude.{◌≡◌, true, if◌then◌else◌, [], length, map, option_map, IfOk};
ghost use Rattle.std.specs.Ordering.{is_gt};
ghost use Rattle.sb_lit.specs.Clauses.{literal_order, negation};
ghost use Rattle.sb_rulebook.specs.Atoms.{iff_atom};
ghost use Rattle.sb_rulebook.specs.Translation as rules;
ghost use Rattle.sb_atoms.specs.Connecting as connecting;
ghost use Rattle.sb_proof.specs.Lines.{atom_in};
ghost use Rattle.sb_rulebook.specs.Brought.{is_brought_atom};
ghost use Rattle.sb_fragment.specs.declared.shape.Connective.TheVariants as connective;
ghost use Rattle.sb_atoms.specs.Growing.{is_below, are_below, are_pairs_below, GrownByGates, Gives, GivesLike};

use crate::order::in_order;
use crate::table::Atoms;
use sb_fragment::{Connective, compared};
use sb_lit::Lit;
use sb_proof::Atom;
use sb_regex::RegexId;
use std::alloc::{AllocError, Global};

/// The literal with the other sign.
fn negated(found: Option<Lit>) -> Option<Lit>
    ensures { result ≡ rules.negated found }
{
    match found {
        Some(literal) => Some(literal.negated()),
        None => None,
    }
}

impl Atoms {
    /// It is true, or false.
    pub(crate) fn always(&mut self, adds: bool, truth: bool) -> Result<Option<Lit>, AllocError>
        ensures ok { IfOk result (λ found. Gives is_below adds self.new
            (λ atoms. if truth then rules.conjunction atoms [] else rules.negated (rules.conjunction atoms [])) found) }
        ensures grows { GrownByGates adds self.old self.new }
    {
        let none = Vec::new(self.allocator());
        if truth {
            self.conjunction(adds, none)
        } else {
            self.denial(adds, none)
        }
    }

    /// All are true.
    pub(crate) fn conjunction(
        &mut self,
        adds: bool,
        literals: Vec<Lit>,
    ) -> Result<Option<Lit>, AllocError>
        requires { are_below (length self.old) literals.items ≡ true }
        ensures ok { IfOk result
            (λ found. Gives is_below adds self.new (λ atoms. rules.conjunction atoms literals.items) found) }
        ensures grows { GrownByGates adds self.old self.new }
    {
        let ordered = in_order(self.allocator(), literals)?;
        if let [literal] = ordered.as_slice() {
            return Ok(Some(*literal));
        }
        self.literal(adds, Atom::And(ordered))
    }

    /// Not all are true.
    fn denial(&mut self, adds: bool, literals: Vec<Lit>) -> Result<Option<Lit>, AllocError>
        requires { are_below (length self.old) literals.items ≡ true }
        ensures ok { IfOk result (λ found. Gives is_below adds self.new
            (λ atoms. rules.negated (rules.conjunction atoms literals.items)) found) }
        ensures grows { GrownByGates adds self.old self.new }
    {
        Ok(negated(self.conjunction(adds, literals)?))
    }

    /// Some is true.
    fn disjunction(&mut self, adds: bool, literals: &[Lit]) -> Result<Option<Lit>, AllocError>
        requires { are_below (length self.old) literals.now ≡ true }
        ensures ok { IfOk result
            (λ found. Gives is_below adds self.new (λ atoms. rules.disjunction atoms literals.now) found) }
        ensures grows { GrownByGates adds self.old self.new }
    {
        let negations = negations(self.allocator(), literals)?;
        self.denial(adds, negations)
    }

    /// Where the first is true the second is.
    fn implication(&mut self, adds: bool, one: Lit, other: Lit) -> Result<Option<Lit>, AllocError>
        requires one { is_below (length self.old) one ≡ true }
        requires other { is_below (length self.old) other ≡ true }
        ensures ok { IfOk result
            (λ found. Gives is_below adds self.new (λ atoms. rules.implication atoms one other) found) }
        ensures grows { GrownByGates adds self.old self.new }
    {
        let literals = Vec::from_slice(self.allocator(), &[one, other.negated()])?;
        self.denial(adds, literals)
    }

    /// Both are true, or both false.
    fn equivalence(&mut self, adds: bool, one: Lit, other: Lit) -> Result<Option<Lit>, AllocError>
        requires one { is_below (length self.old) one ≡ true }
        requires other { is_below (length self.old) other ≡ true }
        ensures ok { IfOk result
            (λ found. Gives is_below adds self.new (λ atoms. rules.equivalence atoms one other) found) }
        ensures grows { GrownByGates adds self.old self.new }
    {
        self.literal(adds, equivalence_of(one, other))
    }

    /// Each makes true what is behind it.
    fn implications(&mut self, adds: bool, literals: &[Lit]) -> Result<Option<Lit>, AllocError>
        requires { are_below (length self.old) literals.now ≡ true }
        ensures ok { IfOk result (λ found. GivesLike adds self.new rules.implications literals.now found) }
        ensures grows { GrownByGates adds self.old self.new }
    {
        if literals.is_empty() {
            return Ok(None);
        }
        let mut left = literals.len() - 1;
        let mut last = literals[left];
        while left > 0 {
            left -= 1;
            let Some(literal) = self.implication(adds, literals[left], last)? else {
                return Ok(None);
            };
            last = literal;
        }
        Ok(Some(last))
    }

    /// An odd number of them is true.
    fn exclusive(&mut self, adds: bool, literals: &[Lit]) -> Result<Option<Lit>, AllocError>
        requires { are_below (length self.old) literals.now ≡ true }
        ensures ok { IfOk result (λ found. GivesLike adds self.new rules.exclusive literals.now found) }
        ensures grows { GrownByGates adds self.old self.new }
    {
        let [first, others @ ..] = literals else {
            return Ok(None);
        };
        let mut first = *first;
        for other in others {
            let Some(literal) = self.equivalence(adds, first, *other)? else {
                return Ok(None);
            };
            first = literal.negated();
        }
        Ok(Some(first))
    }

    /// The second where the first is true, else the third.
    fn choice(&mut self, adds: bool, literals: &[Lit]) -> Result<Option<Lit>, AllocError>
        requires { are_below (length self.old) literals.now ≡ true }
        ensures ok { IfOk result (λ found. GivesLike adds self.new rules.choice literals.now found) }
        ensures grows { GrownByGates adds self.old self.new }
    {
        let [condition, one, other] = literals else {
            return Ok(None);
        };
        let Some(then) = self.implication(adds, *condition, *one)? else {
            return Ok(None);
        };
        let Some(otherwise) = self.implication(adds, condition.negated(), *other)? else {
            return Ok(None);
        };
        let both = Vec::from_slice(self.allocator(), &[then, otherwise])?;
        self.conjunction(adds, both)
    }

    /// The literals of equivalences, or of their negations.
    fn equivalences(
        &mut self,
        adds: bool,
        distinct: bool,
        pairs: &[(Lit, Lit)],
    ) -> Result<Option<Vec<Lit>>, AllocError>
        requires { are_pairs_below (length self.old) pairs.now ≡ true }
        ensures ok { IfOk result (λ found. Gives are_below adds self.new
            (λ atoms. connecting.equivalences atoms distinct pairs.now) (option_map (λ v. v.items) found)) }
        ensures grows { GrownByGates adds self.old self.new }
    {
        let mut literals = Vec::new(self.allocator());
        for (one, other) in pairs {
            let Some(literal) = self.equivalence(adds, *one, *other)? else {
                return Ok(None);
            };
            literals.push(signed(distinct, literal))?;
        }
        Ok(Some(literals))
    }

    /// All are equal, or each two are not.
    fn comparison(
        &mut self,
        adds: bool,
        distinct: bool,
        literals: &[Lit],
    ) -> Result<Option<Lit>, AllocError>
        requires { are_below (length self.old) literals.now ≡ true }
        ensures ok { IfOk result
            (λ found. GivesLike adds self.new (connecting.connected (connective.Compare distinct)) literals.now found) }
        ensures grows { GrownByGates adds self.old self.new }
    {
        let pairs = compared(self.allocator(), distinct, literals)?;
        match self.equivalences(adds, distinct, &pairs)? {
            Some(found) => self.conjunction(adds, found),
            None => Ok(None),
        }
    }

    /// What a connective makes of literals.
    pub(crate) fn connected(
        &mut self,
        adds: bool,
        connective: Connective,
        literals: Vec<Lit>,
    ) -> Result<Option<Lit>, AllocError>
        requires { are_below (length self.old) literals.items ≡ true }
        ensures ok { IfOk result
            (λ found. GivesLike adds self.new (connecting.connected connective) literals.items found) }
        ensures grows { GrownByGates adds self.old self.new }
    {
        match connective {
            Connective::Not => Ok(denied(&literals)),
            Connective::And => self.conjunction(adds, literals),
            Connective::Or => self.disjunction(adds, &literals),
            Connective::Implies => self.implications(adds, &literals),
            Connective::Xor => self.exclusive(adds, &literals),
            Connective::Ite => self.choice(adds, &literals),
            Connective::Compare(distinct) => self.comparison(adds, distinct, &literals),
        }
    }
}

/// The atom that the two are both true, or both false.
fn equivalence_of(one: Lit, other: Lit) -> Atom<RegexId>
    ensures brought { is_brought_atom (atom_in result) ≡ true }
    ensures is { atom_in result ≡ (if is_gt (literal_order one other) then iff_atom other one else iff_atom one other) }
{
    if one > other {
        Atom::Iff(other, one)
    } else {
        Atom::Iff(one, other)
    }
}

/// The negation of one literal.
fn denied(literals: &[Lit]) -> Option<Lit>
    ensures { result ≡ rules.negated (rules.only_one literals.now) }
{
    match literals {
        [literal] => Some(literal.negated()),
        _ => None,
    }
}

/// The negations of literals.
fn negations(alloc: Global, literals: &[Lit]) -> Result<Vec<Lit>, AllocError>
    ensures { IfOk result (λ all. all.items ≡ map negation literals.now) }
{
    let mut all = Vec::new(alloc);
    for literal in literals {
        all.push(literal.negated())?;
    }
    Ok(all)
}

/// The literal itself, or its negation where the two that it compares are to be distinct.
pub(crate) fn signed(distinct: bool, literal: Lit) -> Lit
    ensures { result ≡ connecting.with_sign distinct literal }
{
    if distinct { literal.negated() } else { literal }
}
