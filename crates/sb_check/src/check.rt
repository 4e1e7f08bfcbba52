//! The top call of the checker.

ghost use Rattle.std.specs.Prelude.{◌≡◌, ℕ, ◌+◌, ◌^◌, ◌<◌, ◌⊎◌, true, false, List, length, take, map, string_bytes, Some, Ok, Err, IfOk, IfErr, OnOk, OnErr};
ghost use Rattle.sb_world.specs.Outside.{Outside, Rose, CountsFault, open_at, write_at};
ghost use Rattle.sb_rulebook.specs.Lines as rulebook;
ghost use Rattle.sb_sound.specs.Outcomes.{IsAccepted};
ghost use Rattle.sb_proof.specs.Lines.{said_in};
ghost use Rattle.sb_stack.specs.Steps.{IsEntry, entry_of};
ghost use Rattle.sb_input.specs.TakingEntries as entries;
ghost use Rattle.sb_input.specs.TakingEntries.{Advances, IsCutShort};
ghost use Rattle.sb_words.specs.CheckerWords.{are_taken};
ghost use Rattle.sb_check.specs.Standing.{IsStanding};
ghost use Rattle.sb_check.specs.Going.{CountsCheckerFault, HasRunOut};
ghost use Rattle.sb_check.specs.Running.{Asked, AreHeld, AreLeft, IsAsked, IsBounded, IsOpened, Run as RunBy, RunOf, WrongWords, CountsFaults, MeansSo, asked_for, status_by};
ghost use Rattle.sb_check.specs.Texts.{verdict_line};
ghost use Rattle.sb_check.specs.Sofar.{GoesOn, HasEnded, FindsEntry, Turns, HasAccepted, Stops, Concludes, is_cut};

use crate::checker::{Checked, Checker, CheckerFault};
use crate::reason::Reason;
use crate::text;
use sb_input::{Entries, EntriesFault, Lines};
use sb_proof::Said;
use sb_reader::Next;
use sb_sound::outcome::one_outcome;
use sb_sound::proofs::accepted_script_is_true;
use sb_words::NoRun;
use sb_words::checker::read_words;
use sb_world::{InPort, OutPort, World, WorldError, write_all};
use std::alloc::Global;

/// How a run of the checker ended.
#[derive(Clone, Copy, PartialEq, Eq)]
pub enum CheckStatus {
    /// The proof is accepted: each of its verdicts follows.
    Accepted,
    /// A line of the proof is refused.
    Refused,
    /// The program's words are wrong, or ask for a text.
    Usage,
    /// The outside failed.
    Fault,
    /// There was not enough memory; or 2^64 - 2 bytes may be read, and the numbers of lines or of checks ran out.
    NoMemory,
    /// So many bytes as the limit were read, of the script before its end and `(exit)`, or of the proof before its end.
    InputLimit,
}

/// Of the script and of the proof at most so many bytes are read.
const INPUT_LIMIT: u64 = 0x1_0000_0000;

const ACCEPTED: &[u8] = b"accepted\n";

/// Checks the proof that the words ask for, `strcheck SCRIPT PROOF` with the program's name first, and reads at most
/// 2^32 bytes of either: `check_within` of this limit.
pub fn check_top<W: World>(alloc: Global, words: &[String], world: &mut W) -> CheckStatus
    ensures usage { are_taken (map string_bytes words.now) ≡ false
        → WrongWords result (W.outside world.old) (W.outside world.new) }
    ensures run { are_taken (map string_bytes words.now) ≡ true → (asked : Asked)
        → IsAsked (map string_bytes words.now) (2 ^ 32) asked
        → RunBy asked result (W.outside world.old) (W.outside world.new) }
    ensures faults { CountsFaults result (W.faults world.old) (W.faults world.new) }

    // What a yes means.
    ensures means { result ≡ CheckStatus.Accepted → (asked : Asked) (script proof : List ℕ)
        → IsAsked (map string_bytes words.now) (2 ^ 32) asked → AreHeld asked (W.outside world.old) script proof
        → MeansSo script proof (W.outside world.old) (W.outside world.new) }

    // What a no means: the proof is not accepted along with the script.
    ensures refused { result ≡ CheckStatus.Refused → (asked : Asked) (script proof : List ℕ)
        → IsAsked (map string_bytes words.now) (2 ^ 32) asked → AreHeld asked (W.outside world.old) script proof
        → (said : List rulebook.Said) → IsAccepted script proof said → ⊥ }

    // Nothing else than want of memory keeps a proof from being accepted or refused, where no fault comes, the script's
    // end or exit is below the limit, and the proof too.
    ensures complete { are_taken (map string_bytes words.now) ≡ true
        → (Rose (W.faults world.old) (W.faults world.new) → ⊥) → (asked : Asked) (script proof : List ℕ)
        → IsAsked (map string_bytes words.now) (2 ^ 32) asked → AreHeld asked (W.outside world.old) script proof
        → IsBounded (2 ^ 32) script → length proof < 2 ^ 32
        → (result ≡ CheckStatus.Accepted) ⊎ ((result ≡ CheckStatus.Refused) ⊎ (result ≡ CheckStatus.NoMemory)) }
{
    check_within(alloc, words, world, INPUT_LIMIT)
}

/// Checks the proof that the words ask for, and reads at most so many bytes of the script, and of the proof. The script
/// is opened first, then the proof. For each check of the script a line `check N: VERDICT` is written once its verdict
/// in the proof follows, N from 1; then `accepted`, or `refused at line N: REASON` for the first line of the proof that
/// does not follow. Words that are not taken get a text on standard error and nothing else, `--help` and `--version`
/// too.
///
/// `Accepted` means that each `unsat` is of assertions that no values make true, that the values in the proof make all
/// assertions of each `sat` true, that each `unknown` came at the limit, and that each `unsupported` stands where the
/// fragment is left, whoever wrote the proof. `Refused` comes only where the proof is not accepted along with the
/// script, `Fault` only where the world's count of faults rose. `InputLimit` comes only where so many bytes as the
/// limit were read of the script, and neither its end nor `(exit)`, or of the proof, and not its end, and no line in
/// what was read is refused. Where a fault or want of memory cuts the run short, what was written is a front of such a
/// text.
pub fn check_within<W: World>(
    alloc: Global,
    words: &[String],
    world: &mut W,
    limit: u64,
) -> CheckStatus
    ensures usage { are_taken (map string_bytes words.now) ≡ false
        → WrongWords result (W.outside world.old) (W.outside world.new) }
    ensures run { are_taken (map string_bytes words.now) ≡ true → (asked : Asked)
        → IsAsked (map string_bytes words.now) limit asked
        → RunBy asked result (W.outside world.old) (W.outside world.new) }
    ensures faults { CountsFaults result (W.faults world.old) (W.faults world.new) }
    ensures means { result ≡ CheckStatus.Accepted → (asked : Asked) (script proof : List ℕ)
        → IsAsked (map string_bytes words.now) limit asked → AreHeld asked (W.outside world.old) script proof
        → MeansSo script proof (W.outside world.old) (W.outside world.new) }
    ensures refused { result ≡ CheckStatus.Refused → (asked : Asked) (script proof : List ℕ)
        → IsAsked (map string_bytes words.now) limit asked → AreHeld asked (W.outside world.old) script proof
        → (said : List rulebook.Said) → IsAccepted script proof said → ⊥ }
    ensures complete { are_taken (map string_bytes words.now) ≡ true
        → (Rose (W.faults world.old) (W.faults world.new) → ⊥) → (asked : Asked) (script proof : List ℕ)
        → IsAsked (map string_bytes words.now) limit asked → AreHeld asked (W.outside world.old) script proof
        → IsBounded limit script → length proof < limit
        → (result ≡ CheckStatus.Accepted) ⊎ ((result ≡ CheckStatus.Refused) ⊎ (result ≡ CheckStatus.NoMemory)) }
{
    accepted_script_is_true();
    one_outcome();
    match read_words(alloc, words) {
        Ok(asked) => check_files(alloc, asked.script, asked.proof, limit, world),
        Err(NoRun::Told(text)) => refuse_words(text.as_bytes(), world),
        Err(NoRun::NoMemory) => CheckStatus::NoMemory,
    }
}

/// A script and its proof, as far as both were gone through.
#[derive(Drop)]
struct Run {
    alloc: Global,
    entries: Entries,
    lines: Lines,
    checker: Checker,
    /// The number of the next check, from 1.
    next_check: u64,
}

/// Goes through the script and its proof to the end of both, and writes the verdicts.
fn check_script<W: World>(run: &mut Run, world: &mut W) -> Result<(), CheckerFault>
    requires { IsStanding run.old.checker.judge }
    ensures ok { OnOk result ((limit : ℕ) (script proof : List ℕ) (old : Outside)
        → GoesOn limit script proof run.old old (W.outside world.old)
        → HasAccepted limit script proof old (W.outside world.new)) }
    ensures err { IfErr result (λ fault. (limit : ℕ) (script proof : List ℕ) (old : Outside)
        → GoesOn limit script proof run.old old (W.outside world.old)
        → Stops fault limit script proof old (W.outside world.new)) }
    ensures faults { CountsCheckerFault result (W.faults world.old) (W.faults world.new) }
{
    while turn(run, world)? {}
    finish(run, world)
}

/// Goes through the next entry, and says whether a further one may come.
fn turn<W: World>(run: &mut Run, world: &mut W) -> Result<bool, CheckerFault>
    requires { IsStanding run.old.checker.judge }
    ensures ok { IfOk result (λ more. (limit : ℕ) (script proof : List ℕ) (old : Outside)
        → GoesOn limit script proof run.old old (W.outside world.old)
        → Turns more limit script proof run.new old (W.outside world.new)) }
    ensures fewer { result ≡ Ok true
        → entries.most_to_come run.new.entries < entries.most_to_come run.old.entries }
    ensures standing { OnOk result (IsStanding run.new.checker.judge) }
    ensures err { IfErr result (λ fault. (limit : ℕ) (script proof : List ℕ) (old : Outside)
        → GoesOn limit script proof run.old old (W.outside world.old)
        → Stops fault limit script proof old (W.outside world.new)) }
    ensures faults { CountsCheckerFault result (W.faults world.old) (W.faults world.new) }
{
    let next = advance(&mut run.entries, world)?;
    match next {
        Next::NotYet => Err(CheckerFault::Limit),
        Next::Ended(_) => Ok(false),
        Next::Command(_) | Next::Refused(_) => check_entry(&next, run, world),
    }
}

/// Finds the next entry of the script.
fn advance<W: World>(entries: &mut Entries, world: &mut W) -> Result<Next, CheckerFault>
    ensures ok { IfOk result
        (λ found. Advances found entries.old entries.new (W.outside world.old) (W.outside world.new)) }
    ensures err { IfErr result
        (λ fault. is_cut fault × IsCutShort entries.old (W.outside world.old) (W.outside world.new)) }
    ensures faults { CountsCheckerFault result (W.faults world.old) (W.faults world.new) }
{
    match entries.advance(world) {
        Ok(next) => Ok(next),
        Err(EntriesFault::Fault) => Err(CheckerFault::Fault),
        Err(EntriesFault::NoMemory) => Err(CheckerFault::NoMemory),
    }
}

/// Goes through an entry, and says whether a further one may come.
fn check_entry<W: World>(entry: &Next, run: &mut Run, world: &mut W) -> Result<bool, CheckerFault>
    requires entry { IsEntry entry.now }
    requires standing { IsStanding run.old.checker.judge }
    ensures ok { IfOk result (λ more. (limit : ℕ) (script proof : List ℕ) (old : Outside)
        → FindsEntry (entry_of entry.now) limit script proof run.old old (W.outside world.old)
        → Turns more limit script proof run.new old (W.outside world.new)) }
    ensures standing { OnOk result (IsStanding run.new.checker.judge) }
    ensures entries { OnOk result (run.new.entries ≡ run.old.entries) }
    ensures err { IfErr result (λ fault. (limit : ℕ) (script proof : List ℕ) (old : Outside)
        → FindsEntry (entry_of entry.now) limit script proof run.old old (W.outside world.old)
        → Stops fault limit script proof old (W.outside world.new)) }
    ensures faults { CountsCheckerFault result (W.faults world.old) (W.faults world.new) }
{
    match run.checker.command(entry, &mut run.lines, world)? {
        Checked::Goes => Ok(true),
        Checked::Ends => Ok(false),
        Checked::Said(said) => {
            write_verdict(&said, run, world)?;
            Ok(true)
        }
    }
}

/// Writes the verdict of a check, unless its number is the last one of 64 bits.
fn write_verdict<W: World>(said: &Said, run: &mut Run, world: &mut W) -> Result<(), CheckerFault>
    ensures run { OnOk result (run.new ≡ record run.old { next_check = run.old.next_check + 1 }) }
    ensures ok { OnOk result
        (W.outside world.new
        ≡ write_at OutPort.Answers (verdict_line run.old.next_check (said_in said.now)) (W.outside world.old)) }
    ensures err { OnErr result ((out : ℕ) × (W.outside world.new
        ≡ write_at OutPort.Answers (take out (verdict_line run.old.next_check (said_in said.now)))
        (W.outside world.old))) }
    ensures faults { CountsCheckerFault result (W.faults world.old) (W.faults world.new) }
    ensures kind { IfErr result is_cut }
    ensures numbers { IfErr result (λ fault. HasRunOut fault run.old.next_check) }
{
    if run.next_check == u64::MAX {
        return Err(CheckerFault::PastNumbers);
    }
    let text = text::verdict_line(run.alloc, run.next_check, said)?;
    write_all(world, OutPort::Answers, text.as_bytes())?;
    run.next_check += 1;
    Ok(())
}

/// Takes what is left of the proof where the script has ended.
fn finish<W: World>(run: &mut Run, world: &mut W) -> Result<(), CheckerFault>
    requires { IsStanding run.old.checker.judge }
    ensures ok { OnOk result ((limit : ℕ) (script proof : List ℕ) (old : Outside)
        → HasEnded limit script proof run.old old (W.outside world.old)
        → HasAccepted limit script proof old (W.outside world.new)) }
    ensures err { IfErr result (λ fault. (limit : ℕ) (script proof : List ℕ) (old : Outside)
        → HasEnded limit script proof run.old old (W.outside world.old)
        → Stops fault limit script proof old (W.outside world.new)) }
    ensures faults { CountsCheckerFault result (W.faults world.old) (W.faults world.new) }
{
    run.checker.finish(&mut run.lines, world)
}

/// Opens the script and the proof of these names, and checks them.
fn check_files<W: World>(
    alloc: Global,
    script: &str,
    proof: &str,
    limit: u64,
    world: &mut W,
) -> CheckStatus
    ensures run { RunBy (asked_for script.entry.now proof.entry.now limit) result
        (W.outside world.old) (W.outside world.new) }
    ensures faults { CountsFaults result (W.faults world.old) (W.faults world.new) }
{
    match open_files(script, proof, world) {
        Ok(()) => check_opened(alloc, limit, world),
        Err(WorldError::Failed) => CheckStatus::Fault,
        Err(WorldError::NoMemory) => CheckStatus::NoMemory,
    }
}

/// Opens the script and the proof.
fn open_files<W: World>(script: &str, proof: &str, world: &mut W) -> Result<(), WorldError>
    ensures ok { OnOk result (W.outside world.new
        ≡ open_at InPort.Proof (Some proof.entry.now)
        (open_at InPort.Script (Some script.entry.now) (W.outside world.old))) }
    ensures err { OnErr result ((W.outside world.new ≡ W.outside world.old)
        ⊎ (W.outside world.new ≡ open_at InPort.Script (Some script.entry.now) (W.outside world.old))) }
    ensures counts { CountsFault result (W.faults world.old) (W.faults world.new) }
{
    world.open_input(InPort::Script, Some(script))?;
    world.open_input(InPort::Proof, Some(proof))
}

/// Checks the script and the proof that are opened.
fn check_opened<W: World>(alloc: Global, limit: u64, world: &mut W) -> CheckStatus
    ensures opened { IsOpened result }
    ensures run { (script proof : List ℕ) → AreLeft (W.outside world.old) script proof
        → RunOf result limit script proof (W.outside world.old) (W.outside world.new) }
    ensures faults { CountsFaults result (W.faults world.old) (W.faults world.new) }
{
    let mut run = Run {
        alloc,
        entries: Entries::new(alloc, limit),
        lines: Lines::new(alloc, limit),
        checker: Checker::new(alloc),
        next_check: 1,
    };
    let outcome = check_script(&mut run, world);
    drop(run);
    conclude(alloc, outcome, world)
}

/// Writes what came of the proof, and gives the status.
fn conclude<W: World>(
    alloc: Global,
    outcome: Result<(), CheckerFault>,
    world: &mut W,
) -> CheckStatus
    ensures opened { IsOpened result }
    ensures run { (limit : ℕ) (script proof : List ℕ) (old : Outside)
        → Concludes outcome limit script proof old (W.outside world.old)
        → RunOf result limit script proof old (W.outside world.new) }
    ensures faults { (before : ℕ) → CountsCheckerFault outcome before (W.faults world.old)
        → CountsFaults result before (W.faults world.new) }
{
    match outcome {
        Ok(()) => written(
            write_all(world, OutPort::Answers, ACCEPTED),
            CheckStatus::Accepted,
        ),
        Err(CheckerFault::Refused(n, reason)) => write_refusal(alloc, n, reason, world),
        Err(CheckerFault::Limit) => CheckStatus::InputLimit,
        Err(CheckerFault::Fault) => CheckStatus::Fault,
        Err(CheckerFault::NoMemory) => CheckStatus::NoMemory,
        Err(CheckerFault::PastNumbers) => CheckStatus::NoMemory,
    }
}

/// Writes which line is refused, and why.
fn write_refusal<W: World>(alloc: Global, n: u64, reason: Reason, world: &mut W) -> CheckStatus
    ensures opened { IsOpened result }
    ensures run { (limit : ℕ) (script proof : List ℕ) (old : Outside)
        → Stops (CheckerFault.Refused n reason) limit script proof old (W.outside world.old)
        → RunOf result limit script proof old (W.outside world.new) }
    ensures faults { CountsFaults result (W.faults world.old) (W.faults world.new) }
{
    match text::refusal_line(alloc, n, reason) {
        Ok(text) => written(
            write_all(world, OutPort::Answers, text.as_bytes()),
            CheckStatus::Refused,
        ),
        Err(_) => CheckStatus::NoMemory,
    }
}

/// The status where the last line was written, or not.
fn written(outcome: Result<(), WorldError>, status: CheckStatus) -> CheckStatus
    ensures { result ≡ status_by outcome status }
{
    match outcome {
        Ok(()) => status,
        Err(WorldError::Failed) => CheckStatus::Fault,
        Err(WorldError::NoMemory) => CheckStatus::NoMemory,
    }
}

/// Writes the text to standard error.
fn refuse_words<W: World>(text: &[u8], world: &mut W) -> CheckStatus
    ensures text { WrongWords result (W.outside world.old) (W.outside world.new) }
    ensures faults { CountsFaults result (W.faults world.old) (W.faults world.new) }
{
    written(write_all(world, OutPort::Faults, text), CheckStatus::Usage)
}
