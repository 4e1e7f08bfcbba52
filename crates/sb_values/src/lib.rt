//! Values of String constants that make memberships of concatenations true.
//!
//! A [`Problem`] is a list of goals: that the concatenation of some parts, constants and words, is in the language of a
//! regex, or is not. It answers words of the constants, or that there are none, or that its fuel ended. What it
//! finds is
//! a hint: the layer above tests the words, and puts lines for a refutation of its own. So no contract says that an
//! answer is right; they say that the arena grows, and that what is known of its regexes stays and is right.
//!
//! # What there is to choose
//!
//! A word of `x y` is in a language where some word of `x` leads the regex to a derivative, a *seam*, which has a word
//! of `y`. So the words of `x` fall into classes, one for each seam `q`: those of the path from the regex to `q`. To
//! choose a seam of `x` is to ask of its word to be on that path, one membership more, and leaves the goal `y` in `q`.
//! The last constant of a goal has no choice: it is asked to be in what is left. Once no goal is left, each constant's
//! word is any in the intersection of what it is asked for, and the least is taken. All seams together leave nothing
//! out, so where each fails there are no values.
//!
//! # The data
//!
//! All is by number: constants by their place in the problem, regexes by the arena's.
//! - `own`, by constant: the intersection of what its word is asked for, a regex of the arena. Derivatives of such
//!   intersections and paths are kept in the graph, so no table of products is kept here, and a later call finds them.
//! - `items`, by goal: the place of its next part, and the regex that is left there. The parts of all goals are one
//!   list,
//!   and the characters of all words another.
//! - `walks`. The walk of what is left of a goal has states of a place, the goal's regex there, and what is left of the
//!   constant's own regex: each character leads on in both, and where the constant's may end, the next part begins. It
//!   is walked forward, breadth first, and then back from the states that accept. The live seams of a constant are read
//!   off it, shortest word first; those of the constants behind it too, as long as what these are asked for is the
//!   same.
//!   A goal keeps its walk until then, so a goal of many parts is walked once where no constant comes twice.
//! - `frames`, `seams`, `owns` and `lefts`: the choices that are open, an explicit stack, with the seams that are left of
//!   each,
//!   and what was changed since, which is undone one by one. A call costs no copy of a table.
//! - `failed`: what was found to fail, by what is left of the goals and what the constants in them are asked for. The
//!   same comes again along other ways, where two choices lead to one state.
//!
//! # The order
//!
//! Goals that share no constant are solved one component after the other. Of the open goals the one with the fewest
//! live
//! seams is next: none fails at once, and one is no choice. Its seams are tried shortest word first.
//!
//! Fuel counts states: of walks, of explorations and of the search itself. A search without fuel would end as well, but
//! it may be long: constants that are bits make it a search over truth values.
#![tactic(auto)]

mod groups;
mod look;
mod problem;
mod search;
mod walk;

pub use problem::{Problem, Values};
