//! The store.

ghost use Rattle.std.specs.Prelude.{List};
ghost use Rattle.sb_meaning.specs.Terms.{Term};
ghost use Rattle.sb_store.specs.Stores.{ArenaGrows, IsStoreOf, RegexesGrowAlone};

use sb_fragment::Measures;
use sb_graph::{Graph, graph_stays};
use sb_plain::{Plain, right_stays};
use sb_problem::{Normals, normals_stay};
use sb_regex::Arena;
use std::alloc::Global;

/// The regexes of a session, what is known of them, and what is known of its terms.
#[derive(Drop)]
pub struct Store {
    pub arena: Arena,
    /// What was explored of regexes.
    pub graph: Graph,
    /// What is remembered of walks along words.
    pub plain: Plain,
    /// The normal regexes of terms.
    pub normals: Normals,
    /// What the fragment asks of terms.
    pub measures: Measures,
}

impl Store {
    /// Nothing is known. Takes no memory.
    pub fn new(alloc: Global) -> Store
        ensures { (terms : List Term) → IsStoreOf terms result }
    {
        Store {
            arena: Arena::new(alloc),
            graph: Graph::new(alloc),
            plain: Plain::new(alloc),
            normals: Normals::new(alloc),
            measures: Measures::new(alloc),
        }
    }
}

/// What is known of regexes and terms stays so where regexes are added.
pub fn regexes_grow()
    ensures arena { ArenaGrows }
    ensures alone { RegexesGrowAlone }
{
    graph_stays();
    right_stays();
    normals_stay();
}
