//! Which checks are decided: whether live assertions are inside the fragment, sizes included, and where not, by which
//! rule.
//!
//! A rule asks of a term what is known of it by its arguments, so [`Measures`] keep that by the term's number: a term
//! that is shared is measured once, and there is no recursion on a term's tree. The layers above ask
//! [`Fragment::stand`] of all live assertions, which keeps what it knows of them from one check to the next, and
//! [`Measures::fits_structure`] of one. They take an assertion about one constant apart by [`membership`], and Boolean
//! structure over memberships, comparisons and affixes by [`shape_of`].
#![tactic(auto)]

mod affixes;
mod fitting;
mod keeper;
mod measure;
mod measures;
mod memberships;
mod pairs;
mod repeated;
mod ruled;
mod rules;
mod shape;
mod sides;

pub use affixes::part_and_whole;
pub use keeper::Fragment;
pub use measure::Measure;
pub use measures::{Measures, Sides};
pub use memberships::{membership, term_and_regex};
pub use pairs::compared;
pub use rules::{Problem, Reason, Standing, fragment_is_of_each};
pub use shape::{AffixKind, Connective, Shape, arguments_of, shape_of};
