//! Laws of what is known of a script's assertions.

ghost use Rattle.sb_decide.specs.Laws.{KnowsStays, KnowsGrown, ReadyGrown};

use sb_problem::normals_stay;

/// What is known stays true from command to command: as terms keep their numbers and assertions their places.
pub fn knows_stays()
    ensures { KnowsStays }
{
    normals_stay();
}

/// What is known stays true as what is known of regexes and terms grows.
pub fn knows_grown()
    ensures { KnowsGrown }
{}

/// A check that is ready stays so as what is known of regexes and terms grows.
pub fn ready_grown()
    ensures { ReadyGrown }
{}
