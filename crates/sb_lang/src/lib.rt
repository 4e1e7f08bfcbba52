//! The language of regular expressions: definitions in `specs/`, and their laws here.
//!
//! A RegLan term has its words by recursion on its syntax (SMT-LIB theory of Unicode Strings). A regex is the form
//! that the solver keeps: normal ones are what the normalising constructors build, and have an order, nullability and
//! a derivative by a character ("Symbolic Boolean Derivatives", Stanford, Veanes and Bjørner, PLDI 2021). The one idea
//! is that a language is a test on words: so complement has its excluded middle, and the two kinds of syntax meet in
//! one law, `normal_has_terms_words`. Laws stand on all lists of numbers and on all regexes, normal or not, where they
//! can: only a star of every character, and the law of the terms, speak of words of characters.
//!
//! There is no program code here. Each function is a law with an empty body: a caller calls it to have the law.
#![tactic(auto)]

pub mod affixes;
pub mod constructors;
pub mod derivative;
pub mod fold;
pub mod languages;
pub mod normal;
pub mod normal_form;
pub mod order;
pub mod sets;
pub mod sorted;
