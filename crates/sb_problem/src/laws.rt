//! Laws of what is known of terms.

ghost use Rattle.sb_problem.specs.Laws.{NormalsStay};

/// What is known of terms stays true when the table and the arena grow.
pub fn normals_stay()
    ensures { NormalsStay }
{}
