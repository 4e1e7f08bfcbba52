//! What is known of the languages of regexes: a [`Graph`] finds the word of a language that is shortest, and least among
//! those as long, or marks the regex as dead. It explores the regex's derivatives breadth first, in the order of
//! characters.
//!
//! The one idea is that words are met in the order of their lengths, and of their code points where those are equal,
//! so the first regex with the empty word is reached by the word that is wanted, and none that comes later is expanded.
//! Where there is none, the regexes that were met are closed under derivatives by characters, and none of them has a
//! word. Such regexes are marked; the marks stay, and so do the words that were found.
//!
//! An exploration may meet very many derivatives that are unions, so a walk over their members takes turns with it: a
//! word of a union is a word of a member. A state of the walk is a member: of a union, or of what an intersection becomes
//! once the unions in it are divided, as long as these are few. The states behind it are the members of its derivatives,
//! so where a language has many derivatives, as (a|b)*a(a|b)^n has 2^n, the walk meets no more states than there are
//! members. Those that one word leads to take their turn together. A walk that comes to its end shows that there is no
//! word, and one that expands as many states as it may says no more: then a search for a word of one length after the
//! other, depth first, finds a short word that lies behind many states.
//!
//! The layer above asks for the least word, for a mark, and for the derivatives that are kept.
#![tactic(auto)]

mod depth;
mod edges;
mod graph;
mod laws;
mod members;
mod queue;
mod search;
mod turn;

pub use depth::find_by_length;
pub use graph::{Explored, Graph, Within};
pub use laws::{graph_stays, marked_has_no_word};
pub use members::{Outcome, find_word};
