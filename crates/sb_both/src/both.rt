//! A script, its proof, and the check of the proof.

ghost use Rattle.std.specs.Prelude.{◌≡◌, ℕ, ◌^◌, ◌<◌, ◌⊎◌, List, length, map, string_bytes, Some, IfOk};
ghost use Rattle.sb_world.specs.Worlds.{calm_outside};
ghost use Rattle.sb_world.specs.Outside.{output_at};
ghost use Rattle.sb_both.specs.Both.{IsConfirmed};
ghost use Rattle.sb_both.specs.Runs.{Proves};

use sb_check::{CheckStatus, check_top};
use sb_rulebook::laws::printed_proof_is_accepted;
use sb_session::{SolveStatus, solve_top};
use sb_sound::outcome::solved_entries;
use sb_world::{CalmWorld, OutPort};
use std::alloc::{AllocError, Global};

/// The file that holds the script, in both worlds.
const SCRIPT: &str = "script";

/// The file to which the proof goes, and from which it is read.
const PROOF: &str = "proof";

/// Answers the script, and checks the proof that was written.
///
/// Each program runs in a world of its own, where a call fails only for want of memory; the second has the bytes that
/// the first wrote to its proof as a file. A script that is answered has its proof accepted, unless memory runs out, or
/// script or proof have as many bytes as the checker's limit; and where it is accepted each verdict in it is true. An
/// error comes where there is no memory for the files and the words. The cost is that of both programs.
pub fn solve_and_check(
    alloc: Global,
    script: &[u8],
) -> Result<(SolveStatus, CheckStatus), AllocError>
    ensures answered { IfOk result (λ statuses. length script.now < 2 ^ 32 → (statuses.0 ≡ SolveStatus.Done)
        ⊎ ((statuses.0 ≡ SolveStatus.Unfinished) ⊎ (statuses.0 ≡ SolveStatus.NoMemory))) }
    ensures accepted { IfOk result (λ statuses.
        (statuses.0 ≡ SolveStatus.Done) ⊎ (statuses.0 ≡ SolveStatus.Unfinished)
        → (statuses.1 ≡ CheckStatus.Accepted)
        ⊎ ((statuses.1 ≡ CheckStatus.NoMemory) ⊎ (statuses.1 ≡ CheckStatus.InputLimit))) }
    ensures means { IfOk result (λ statuses. statuses.1 ≡ CheckStatus.Accepted → IsConfirmed script.now) }
{
    let mut world = CalmWorld::new(alloc);
    let solved = solve(alloc, script, &mut world)?;
    let mut other = CalmWorld::new(alloc);
    let checked = check(alloc, script, world.written(OutPort::Proof), &mut other)?;
    Ok((solved, checked))
}

/// Answers the script, and writes its proof.
fn solve(alloc: Global, script: &[u8], world: &mut CalmWorld) -> Result<SolveStatus, AllocError>
    ensures answered { IfOk result (λ status. length script.now < 2 ^ 32 → (status ≡ SolveStatus.Done)
        ⊎ ((status ≡ SolveStatus.Unfinished) ⊎ (status ≡ SolveStatus.NoMemory))) }
    ensures proved { IfOk result (λ status. (status ≡ SolveStatus.Done) ⊎ (status ≡ SolveStatus.Unfinished)
        → (proof : List ℕ) → (output_at OutPort.Proof (calm_outside world.new)).written ≡ Some proof
        → Proves script.now proof) }
{
    solved_entries();
    printed_proof_is_accepted();
    let words = words_of(alloc, &["strsolve", "--proof", PROOF, SCRIPT])?;
    world.add_file(SCRIPT, script)?;
    Ok(solve_top(alloc, &words, world))
}

/// Checks the proof of the script.
fn check(
    alloc: Global,
    script: &[u8],
    proof: &[u8],
    world: &mut CalmWorld,
) -> Result<CheckStatus, AllocError>
    ensures accepted { IfOk result (λ status. Proves script.now proof.now → (status ≡ CheckStatus.Accepted)
        ⊎ ((status ≡ CheckStatus.NoMemory) ⊎ (status ≡ CheckStatus.InputLimit))) }
    ensures means { IfOk result (λ status. status ≡ CheckStatus.Accepted → IsConfirmed script.now) }
{
    let words = words_of(alloc, &["strcheck", SCRIPT, PROOF])?;
    world.add_file(SCRIPT, script)?;
    world.add_file(PROOF, proof)?;
    Ok(check_top(alloc, &words, world))
}

/// The words, as a program is given them.
fn words_of(alloc: Global, words: &[&str]) -> Result<Vec<String>, AllocError>
    ensures { IfOk result (λ owned. map string_bytes owned.items ≡ map (λ word. word.now) words.now) }
{
    let mut owned = Vec::new(alloc);
    for word in words {
        owned.push(String::from_str(alloc, word)?)?;
    }
    Ok(owned)
}
