//! The clauses that are kept, and unit propagation of them on a trail.
//!
//! A clause is kept under a number that is never given again, with the level at which it holds; a level that
//! is taken back drops its clauses. An [`Engine`] owns the clauses and the trail that they are propagated on, and
//! contracts see it as both: the list of what is kept at each number, and the trail. The layers above add clauses,
//! decide, propagate, and go back along the reasons of a conflict.
//!
//! Each clause has two watched literals, and propagation looks only at clauses of which a watched literal has
//! become false: the other one is then true, or another literal is watched in its place. It goes over what is new on
//! the trail. Going back on the trail leaves the watch lists as they are. A new clause comes to its watch lists in the
//! next propagation. The watched literals stand in tables of their own, so a clause of which the other one is true is
//! passed over without a look at the clause; and so does a spare literal of each clause, the one that was watched last,
//! which is watched again, still without a look at the clause, where it is not false.
//!
//! Names. The propagation queue is the trail; its head is `queue.head`, and `queue.marks` are the levels at whose end
//! all clauses were fine, since going back on the trail takes the head back to one of them. `WatchLists` are the watch
//! lists, by literal; `Watches` are the first or the second watch of each clause, with their lists; `home` is the watch
//! list where a clause belongs; `listing` attaches new clauses, and `Arrival` is what one comes to. In `watch`,
//! `partner` is the other watched literal, `Holds` is a satisfied clause, `Moves` a new watch, `Forces` a unit clause
//! and `False` a conflict; `Way` is what a number of a watch list comes to by all that is known of it. `Spares` is what is
//! known of clauses before they are looked at. To `settle` is to propagate to the fixpoint, and clauses are fine where the
//! watch invariant holds of them.
#![tactic(auto)]

mod clauses;
mod engine;
mod links;
mod listing;
mod marks;
mod occurrences;
mod place;
mod propagated;
mod record;
mod settle;
mod spare;
mod walk;
mod watch;
mod watch_lists;
mod watches;
mod way;

pub use clauses::Clauses;
pub use engine::Engine;
pub use propagated::Propagated;
