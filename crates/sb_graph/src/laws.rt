//! Laws of graphs.

ghost use Rattle.sb_graph.specs.Laws.{GraphStays, MarkedHasNoWord};

use sb_deriv::faithful_stays;
use sb_lang::derivative::{derivative_along_has_rests, nullable_has_empty_word};

/// What a graph knows stays true when the arena grows.
pub fn graph_stays()
    ensures { GraphStays }
{
    faithful_stays();
}

/// A regex that a graph marks has no word.
pub fn marked_has_no_word()
    ensures { MarkedHasNoWord }
{
    nullable_has_empty_word();
    derivative_along_has_rests();
}
