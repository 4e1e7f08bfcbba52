//! The table of terms.

ghost use Rattle.std.specs.Prelude.{◌≡◌, ◌<◌, Bool, true, length, [], IfOk};
ghost use Rattle.std.specs.List.{list_all};
ghost use Rattle.sb_meaning.specs.Terms as terms;
ghost use Rattle.sb_meaning.specs.Terms.{terms_of};
ghost use Rattle.sb_meaning.specs.Sorts.{result_of, sort_of};
ghost use Rattle.sb_term.specs.Nodes.{node_term, ArgumentsBelow, IsWritten};
ghost use Rattle.sb_term.specs.Numbered.{term_at, terms_at, Names, AllNumbers, Extends, AreDistinct};
ghost use Rattle.sb_term.specs.Parameters.{has_parameters, have_parameters};
ghost use Rattle.sb_term.specs.Symbols.{sort_in, symbol_in};

use crate::sort::{Sort, Symbol};
use crate::term::{Term, TermId};
use indexmap::IndexSet;
use std::alloc::{AllocError, Global};
use std::marker::Model;

/// Terms by their numbers, each once.
#[derive(Drop)]
pub struct Table {
    nodes: IndexSet<Term>,
    /// By number whether a parameter stands in the term.
    parametric: Vec<bool>,
}

impl Model for Table {
    ghost use Rattle.std.specs.Prelude.{List};
    ghost use Rattle.std.specs.Coded.{coded_list};
    ghost use Rattle.sb_meaning.specs.Terms as meaning;
    ghost use Rattle.sb_meaning.proofs.CallerLemmas.{coded_term};

    ghost Value = { List meaning.Term };

    ghost coded = { coded_list coded_term };

    ghost use Rattle.sb_term.specs.Nodes.{terms_of_table};
    ghost use Rattle.sb_term.specs.Interning.{IsTable, AreMarked};

    ghost view = { λ table. terms_of_table table.nodes.keys };

    ghost invariant = { λ table. IsTable (terms_of_table table.nodes.keys) table.nodes.keys
        × AreMarked (terms_of_table table.nodes.keys) table.parametric.items };
}

/// The sort of what a symbol makes.
fn made_by(symbol: Symbol) -> Sort
    ensures { sort_in result ≡ result_of (symbol_in symbol) }
{
    match symbol {
        Symbol::Plus | Symbol::Times | Symbol::Minus | Symbol::StrLen => Sort::Int,
        Symbol::StrConcat => Sort::String,
        Symbol::StrToRe
        | Symbol::ReNone
        | Symbol::ReAll
        | Symbol::ReAllChar
        | Symbol::ReConcat
        | Symbol::ReUnion
        | Symbol::ReInter
        | Symbol::ReDiff
        | Symbol::ReStar
        | Symbol::RePlus
        | Symbol::ReOpt
        | Symbol::ReComp
        | Symbol::ReRange
        | Symbol::RePower(_)
        | Symbol::ReLoop(..) => Sort::RegLan,
        Symbol::True
        | Symbol::False
        | Symbol::Not
        | Symbol::And
        | Symbol::Or
        | Symbol::Implies
        | Symbol::Xor
        | Symbol::Ite
        | Symbol::Equal
        | Symbol::Distinct
        | Symbol::AtMost
        | Symbol::Less
        | Symbol::AtLeast
        | Symbol::Greater
        | Symbol::StrInRe
        | Symbol::StrPrefixOf
        | Symbol::StrSuffixOf
        | Symbol::StrContains => Sort::Bool,
    }
}

impl Table {
    /// A table without terms. Takes no memory.
    pub fn new(alloc: Global) -> Table
        ensures { result ≡ [] }
    {
        Table {
            nodes: IndexSet::new(alloc),
            parametric: Vec::new(alloc),
        }
    }

    /// The number of terms. The numbers of terms are those below it.
    pub fn len(&self) -> usize
        ensures { result ≡ length self.now }
    {
        self.nodes.len()
    }

    /// The term of a number. Takes constant time and no memory.
    pub fn term(&self, id: TermId) -> &Term
        requires { id < length self.now }
        ensures value { node_term self.now result.now ≡ term_at self.now id }
        ensures arguments { ArgumentsBelow id result.now }
        ensures written { IsWritten result.now }
    {
        &self.nodes[id.number()]
    }

    /// The sort of a term. Takes constant time and no memory.
    pub fn sort(&self, id: TermId) -> Sort
        requires { id < length self.now }
        ensures { sort_in result ≡ sort_of (term_at self.now id) }
    {
        match self.term(id) {
            Term::Constant(_, sort) | Term::Parameter(_, sort) => *sort,
            Term::Word(_) => Sort::String,
            Term::Numeral(_) => Sort::Int,
            Term::Apply(symbol, _) => made_by(*symbol),
        }
    }

    /// Whether a parameter stands in the term of a number. Takes constant time and no memory.
    pub fn is_open(&self, id: TermId) -> bool
        requires { id < length self.now }
        ensures { result ≡ has_parameters (term_at self.now id) }
    {
        self.parametric[id.number()]
    }

    /// Whether a parameter stands in one of the terms.
    fn is_one_open(&self, ids: &[TermId]) -> bool
        requires { AllNumbers self.now ids.now }
        ensures { result ≡ have_parameters (terms_of (terms_at self.now ids.now)) }
    {
        for id in ids {
            if self.is_open(*id) {
                return true;
            }
        }
        false
    }

    /// Whether a parameter stands in a term whose arguments are terms of the table.
    fn has_parameters(&self, term: &Term) -> bool
        requires { ArgumentsBelow (length self.now) term.now }
        ensures { result ≡ has_parameters (node_term self.now term.now) }
    {
        match term {
            Term::Parameter(..) => true,
            Term::Apply(_, arguments) => self.is_one_open(arguments.as_slice()),
            Term::Constant(..) | Term::Word(_) | Term::Numeral(_) => false,
        }
    }

    /// Numbers are equal exactly where their terms are.
    pub fn terms_each_once(&self)
        ensures { AreDistinct self.now }
    {
        let _nodes = &self.nodes;
    }

    /// The number of a term, a new one where it has none. By hash, linear in what the term holds itself. `AllocError`
    /// for want of memory, and where there are 2^32 terms; the table may hold one term more then.
    pub fn add(&mut self, term: Term) -> Result<TermId, AllocError>
        requires arguments { ArgumentsBelow (length self.old) term }
        requires written { IsWritten term }
        ensures ok { IfOk result (λ id. Names self.new id (node_term self.old term)) }
        ensures extends { Extends self.old self.new }
        ensures only { (test : terms.Term → Bool) → list_all test self.old ≡ true
            → test (node_term self.old term) ≡ true → list_all test self.new ≡ true }
    {
        let mark = self.has_parameters(&term);
        self.parametric.reserve(1)?;
        let (number, is_new) = self.nodes.insert_full(term)?;
        if !is_new {
            return TermId::new(number);
        }
        self.parametric.push(mark)?;
        TermId::new(number)
    }
}
