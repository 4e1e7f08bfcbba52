//! Runs of a case, each in a world of its own.

use crate::compare::{compare_kept, expect_answers, expect_status, status_of};
use crate::cuts::{add_answers, cut_of, cut_status};
use crate::programs::Programs;
use crate::stage::{Stage, add_file, front_of, prepare};
use crate::verdicts::verdicts_of;
use sb_cases::buffer::Buffer;
use sb_cases::case::{Case, Kind};
use sb_cases::directive::Directive;
use sb_world::{CalmWorld, MemWorld, OutPort};

/// Runs a case once, and compares what comes with what is wanted.
pub fn run<P: Programs>(case: &Case, stage: &mut Stage) {
    match case.kind {
        Kind::Both => {
            run_in_world::<P>(Kind::Both, case, stage);
            run_in_world::<P>(Kind::Kept, case, stage);
        }
        Kind::Calm => run_in_calm::<P>(Kind::Calm, case, stage),
        Kind::Confirmed => {
            run_in_calm::<P>(Kind::Confirmed, case, stage);
            run_in_calm::<P>(Kind::Kept, case, stage);
        }
        _ => run_in_world::<P>(case.kind, case, stage),
    }
}

/// Runs a case once in a world of its own.
fn run_in_world<P: Programs>(kind: Kind, case: &Case, stage: &mut Stage) {
    let mut world = MemWorld::new(case.alloc);
    run_in::<P>(kind, case, stage, &mut world);
    drop(world);
}

/// Runs a case once in a world of its own where nothing fails.
fn run_in_calm<P: Programs>(kind: Kind, case: &Case, stage: &mut Stage) {
    let mut world = CalmWorld::new(case.alloc);
    run_calmly::<P>(kind, case, stage, &mut world);
    drop(world);
}

/// Runs a case once in a world.
fn run_in<P: Programs>(kind: Kind, case: &Case, stage: &mut Stage, world: &mut MemWorld) {
    prepare(case, stage, world);
    match kind {
        Kind::Kept => check_kept::<P>(case, stage, world),
        Kind::Check => check_given::<P>(case, stage, world),
        Kind::Both => solve_file::<P>(case, stage, world),
        Kind::Session => answer_entries::<P>(case, stage, world),
        _ => solve_input::<P>(case, stage, world),
    }
}

/// Runs a case once in a world where nothing fails.
fn run_calmly<P: Programs>(kind: Kind, case: &Case, stage: &mut Stage, world: &mut CalmWorld) {
    match kind {
        Kind::Kept => check_calmly::<P>(case, stage, world),
        Kind::Confirmed => prove_calmly::<P>(case, stage, world),
        _ => solve_calmly::<P>(case, stage, world),
    }
}

/// Runs the solver over the script on standard input.
fn solve_input<P: Programs>(case: &Case, stage: &mut Stage, world: &mut MemWorld) {
    let front = front_of(case.block(Directive::Script), stage.turn.script);
    let set = world.set_standard_input(front);
    stage.note(set);
    if case.last(Directive::Cuts) > 0 {
        return solve_cut::<P>(case, stage, front, world);
    }
    let usual = if case.has(Directive::Proof) {
        "--proof p"
    } else {
        ""
    };
    let words = words_for(case, usual);
    solve::<P>(case, stage, words, world);
}

/// Runs the solver over a front of the script.
fn solve_cut<P: Programs>(case: &Case, stage: &mut Stage, front: &[u8], world: &mut MemWorld) {
    let cut = cut_of(front);
    stage.set_words(case.alloc, "strsolve", "");
    let status = P::solve(case.alloc, &stage.words, world, limit_of(case));
    expect_status(&mut stage.run, cut_status(&cut), status);
    let mut wanted = Buffer::new(case.alloc);
    add_answers(&cut, case.block(Directive::Answers), &mut wanted);
    compare_kept(&mut stage.run, wanted.bytes(), world);
    if !wanted.is_whole() {
        stage.whole = false;
    }
}

/// Hands the entries of the script to a session.
fn answer_entries<P: Programs>(case: &Case, stage: &mut Stage, world: &mut MemWorld) {
    match P::answer(case.alloc, case.block(Directive::Script), world) {
        Ok(status) => expect_status(&mut stage.run, status_of(case), status),
        Err(_) => stage.whole = false,
    }
    expect_answers(&mut stage.run, case, world.written(OutPort::Answers));
}

/// Runs the solver over the script in a file, and keeps the proof.
fn solve_file<P: Programs>(case: &Case, stage: &mut Stage, world: &mut MemWorld) {
    add_file(stage, world, "s", case.block(Directive::Script));
    solve::<P>(case, stage, "--proof p s", world);
    stage.keep(world.written(OutPort::Proof));
}

/// Runs the checker over the script and the proof.
fn check_given<P: Programs>(case: &Case, stage: &mut Stage, world: &mut MemWorld) {
    if case.has(Directive::Script) {
        add_file(stage, world, "s", case.block(Directive::Script));
    }
    if case.has(Directive::Proof) {
        let added = world.add_file("p", stage.front());
        stage.note(added);
    }
    let words = words_for(case, "s p");
    let status = check::<P>(case, stage, words, world);
    expect_status(&mut stage.run, status_of(case), status);
    stage.compare(case, world);
}

/// Runs the checker over the proof that was kept.
fn check_kept<P: Programs>(case: &Case, stage: &mut Stage, world: &mut MemWorld) {
    add_file(stage, world, "s", case.block(Directive::Script));
    let added = world.add_file("p", stage.written.bytes());
    stage.note(added);
    let status = check::<P>(case, stage, "s p", world);
    expect_status(&mut stage.run, "accepted", status);
    let verdicts = verdicts_of(case);
    compare_kept(&mut stage.run, verdicts.bytes(), world);
}

/// Runs the solver with these words.
fn solve<P: Programs>(case: &Case, stage: &mut Stage, words: &str, world: &mut MemWorld) {
    stage.set_words(case.alloc, "strsolve", words);
    let status = P::solve(case.alloc, &stage.words, world, limit_of(case));
    expect_status(&mut stage.run, status_of(case), status);
    stage.compare(case, world);
}

/// Runs the checker with these words.
fn check<P: Programs>(
    case: &Case,
    stage: &mut Stage,
    words: &str,
    world: &mut MemWorld,
) -> &'static str {
    stage.set_words(case.alloc, "strcheck", words);
    P::check(case.alloc, &stage.words, world, limit_of(case))
}

/// The limit of the case on what a program reads; none where it has its own.
fn limit_of(case: &Case) -> Option<u64> {
    match case.first(Directive::Limit) {
        0 => None,
        _ => Some(case.last(Directive::Limit)),
    }
}

/// Runs the solver over the script on standard input, in a world where nothing fails.
fn solve_calmly<P: Programs>(case: &Case, stage: &mut Stage, world: &mut CalmWorld) {
    let set = world.set_standard_input(case.block(Directive::Script));
    stage.note(set);
    stage.set_words(case.alloc, "strsolve", "");
    let status = P::solve(case.alloc, &stage.words, world, None);
    expect_status(&mut stage.run, status_of(case), status);
    expect_answers(&mut stage.run, case, world.written(OutPort::Answers));
}

/// Runs the solver over the script in a file, in a world where nothing fails, and keeps the proof.
fn prove_calmly<P: Programs>(case: &Case, stage: &mut Stage, world: &mut CalmWorld) {
    let added = world.add_file("s", case.block(Directive::Script));
    stage.note(added);
    stage.set_words(case.alloc, "strsolve", "--proof p s");
    let status = P::solve(case.alloc, &stage.words, world, None);
    expect_status(&mut stage.run, status_of(case), status);
    stage.keep(world.written(OutPort::Proof));
}

/// Runs the checker over the proof that was kept, in a world where nothing fails.
fn check_calmly<P: Programs>(case: &Case, stage: &mut Stage, world: &mut CalmWorld) {
    let script = world.add_file("s", case.block(Directive::Script));
    stage.note(script);
    let proof = world.add_file("p", stage.written.bytes());
    stage.note(proof);
    stage.set_words(case.alloc, "strcheck", "s p");
    let status = P::check(case.alloc, &stage.words, world, None);
    expect_status(&mut stage.run, "accepted", status);
}

/// The words behind the program's name.
fn words_for<'a>(case: &'a Case, usual: &'a str) -> &'a str {
    if case.has(Directive::Words) {
        return case.words(Directive::Words);
    }
    usual
}
