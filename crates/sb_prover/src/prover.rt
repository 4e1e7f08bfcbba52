//! The prover.

ghost use Rattle.std.specs.Prelude.{◌≡◌, ℕ, List, take, true, Option, IfSome, OnOk};
ghost use Rattle.sb_rulebook.specs.Judging.{Progress, beginning, met};
ghost use Rattle.sb_meaning.specs.Terms.{Sort, Term};
ghost use Rattle.sb_rulebook.specs.Kept.{Asked};
ghost use Rattle.sb_sound.specs.Certified.{last_lines};
ghost use Rattle.sb_proof.specs.Tapes.{with_bytes};
ghost use Rattle.sb_trace.specs.Putting.{CountsTapeFault};
ghost use Rattle.sb_atoms.specs.Numbered.{HaveRegexesBelow};
ghost use Rattle.sb_prover.specs.Proving.{IsAbreast, HaveLevels, AreLow, leaving, GoesDown, AbreastStays, TrueGoesOn, TrueGrown, RegexesStayBelow, LevelsStay, EntriesMoveLive, EntriesStayFit};
ghost use Rattle.sb_solve.specs.Words.{are_declared};
ghost use Rattle.sb_solve.specs.Truth.{IsTrue};
ghost use Rattle.sb_store.specs.declared.store.Store.{Store};
ghost use Rattle.sb_prover.specs.Saying.{first_lines, Tells};

use sb_proof::{Line, Tape, TapeFault};
use sb_refute::Evidence;
use sb_sound::scripts::entries_lead_on;
use sb_sound::steps::{
    all_dropped_is_sound, continued_stays_sound, dropped_stays_sound, nothing_is_sound,
};
use std::alloc::Global;
use std::marker::Model;

/// The format of the proofs that are written.
const FORMAT: u64 = 1;

/// What of the regexes, atoms and clauses of a script stands in the proof that is written along it.
#[derive(Drop)]
pub struct Prover {
    pub(crate) alloc: Global,
    pub(crate) evidence: Evidence,
    /// The first line stands in the proof.
    begun: bool,
}

impl Model for Prover {
    ghost use Rattle.sb_prover.specs.Proving.{Proving};

    ghost Value = { Proving };

    ghost view = { λ prover. record { evidence = prover.evidence; begun = prover.begun } };
}

impl Prover {
    /// Nothing stands in the proof. Takes no memory.
    pub fn new(alloc: Global) -> Prover
        ensures abreast { (store : Store) → IsAbreast store result beginning }
        ensures regexes { (n : ℕ) → HaveRegexesBelow n result.evidence.atoms }
        ensures declared { (sorts : List Sort) → are_declared sorts result.evidence.atoms ≡ true }
        ensures levels { (live : List (Option Term × ℕ)) → HaveLevels live result.evidence }
        ensures sound { (asked : Asked) (store : Store) → IsTrue asked store.arena store.graph.memo result.evidence }
    {
        nothing_is_sound();
        Prover {
            alloc,
            evidence: Evidence::new(alloc),
            begun: false,
        }
    }

    /// Goes along where levels are left: those above a level, or all assertions where that is none. So many assertions
    /// stay; their clauses do, and so does the empty clause where its level stays. Takes no memory, and time linear in
    /// what is forgotten.
    pub fn leave(&mut self, level: Option<u64>, count: usize)
        ensures left { (store : Store) (live : List (Option Term × ℕ)) (p : Progress) → IsAbreast store self.old p
            → HaveLevels live self.old.evidence → IfSome level (λ n. AreLow n (take count live))
            → IsAbreast store self.new (met (leaving level) p) }
        ensures levels { (live : List (Option Term × ℕ)) → HaveLevels live self.old.evidence
            → HaveLevels (take count live) self.new.evidence }
        ensures atoms { self.new.evidence.atoms ≡ self.old.evidence.atoms }
        ensures sound { (store : Store) (before now : Asked) → GoesDown level before now
            → HaveLevels before.live self.old.evidence → IfSome level (λ n. AreLow n (take count before.live))
            → IsTrue before store.arena store.graph.memo self.old.evidence
            → IsTrue now store.arena store.graph.memo self.new.evidence }
    {
        dropped_stays_sound();
        all_dropped_is_sound();
        match level {
            Some(level) => self.evidence.leave_above(level, count),
            None => self.evidence.leave_all(),
        }
    }

    /// Puts the last line, and the first one before it where no check had it put. Constant time.
    pub fn finish<L: Tape>(&mut self, tape: &mut L) -> Result<(), TapeFault>
        ensures told { OnOk result ((store : Store) (p : Progress) → IsAbreast store self.old p
            → L.Tape.told tape.new ≡ with_bytes (last_lines p) (L.Tape.told tape.old)) }
        ensures counts { CountsTapeFault result (L.Tape.faults tape.old) (L.Tape.faults tape.new) }
    {
        self.begin(tape)?;
        tape.put(&Line::End)?;
        Ok(())
    }

    /// Puts the first line where it does not stand in the proof.
    pub(crate) fn begin<L: Tape>(&mut self, tape: &mut L) -> Result<(), TapeFault>
        ensures told { OnOk result
            (Tells (first_lines self.old.begun) (L.Tape.told tape.old) (L.Tape.told tape.new)) }
        ensures begun { OnOk result (self.new ≡ record self.old { begun = true }) }
        ensures counts { CountsTapeFault result (L.Tape.faults tape.old) (L.Tape.faults tape.new) }
    {
        if self.begun {
            return Ok(());
        }
        tape.put(&Line::Header(FORMAT))?;
        self.begun = true;
        Ok(())
    }
}

/// A proof that has come so far stays so where the store grows.
pub fn abreast_stays()
    ensures { AbreastStays }
{}

/// What the evidence knows stays true where the script goes on, and where the store grows.
pub fn true_stays()
    ensures goes_on { TrueGoesOn }
    ensures grown { TrueGrown }
{
    continued_stays_sound();
}

/// Atoms whose regexes are below a number have them below a greater one, so also where the arena grew.
pub fn regexes_stay_below()
    ensures { RegexesStayBelow }
{}

/// Clauses of assertions keep the levels that they have where more assertions are live.
pub fn levels_stay()
    ensures { LevelsStay }
{}

/// What an entry of a script makes of the live assertions with their levels: where levels are left a front of them
/// stays, of which none is above the level down to which they were left; else all stay in front.
pub fn entries_move_live()
    ensures { EntriesMoveLive }
{}

/// Behind each entry of a script its terms fit the sorts of the constants, where they did before, and the script goes
/// on: where levels are left with the assertions of the levels that stay, else with all.
pub fn entries_stay_fit()
    ensures { EntriesStayFit }
{
    entries_lead_on();
}
