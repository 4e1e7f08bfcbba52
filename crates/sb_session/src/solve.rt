//! The top call of the solver.

ghost use Rattle.std.specs.Prelude.{◌≡◌, ℕ, ◌^◌, ◌<◌, ◌⊎◌, true, false, List, [], ◌++◌, length, map, string_bytes, IfOk, OnOk, OnErr, MatchOption};
ghost use Rattle.std.specs.Option.{option_copied};
ghost use Rattle.sb_world.specs.Outside.{Outside, Rose, CountsFault, read_at};
ghost use Rattle.sb_world.specs.Moved.{moved_by, writing};
ghost use Rattle.sb_reader.specs.Feeding as feed;
ghost use Rattle.sb_script.specs.State.{start};
ghost use Rattle.sb_stack.specs.Stacked.{state_of};
ghost use Rattle.sb_stack.specs.Steps.{IsEntry};
ghost use Rattle.sb_words.specs.SolverWords.{are_taken};
ghost use Rattle.sb_rulebook.specs.Judging.{beginning};
ghost use Rattle.sb_session.specs.Commanding.{CountsStop, IsTracked, is_proved};
ghost use Rattle.sb_session.specs.Certifying.{IsCertified};
ghost use Rattle.sb_session.specs.Progress.{Sofar, status_by};
ghost use Rattle.sb_session.specs.Reading.{Cut};
ghost use Rattle.sb_session.specs.Pausing.{Pauses};
ghost use Rattle.sb_session.specs.Underway.{Turns, StaysOpen, IsRead, AllRead};
ghost use Rattle.sb_session.specs.Replying.{Asked, AnswersBy, asked_for, asked_by, asks_proof};
ghost use Rattle.sb_session.specs.Solve.{created, opened, Run, WrongWords, CountsFaults, CutShort, CutInText, IsBounded};

use crate::command::{Session, Stop, Went};
use sb_reader::{Ending, Feed, Next};
use sb_sound::certified::{certified_is_accepted, certified_to_exit_is_accepted};
use sb_sound::counts::lines_are_counted;
use sb_words::NoRun;
use sb_words::solver::read_words;
use sb_world::{InPort, OutPort, World, WorldError, write_all};
use std::alloc::{AllocError, Global};

/// How a run of the solver ended.
#[derive(Clone, Copy, PartialEq, Eq)]
pub enum SolveStatus {
    /// The script was read to its end, or to `(exit)`, and all of it is answered.
    Done,
    /// The script ended within a form.
    Unfinished,
    /// The program's words are wrong, or ask for a text.
    Usage,
    /// The outside failed.
    Fault,
    /// There was not enough memory, or without a proof a check took as many steps as it may, 2^64 - 1.
    NoMemory,
    /// So many bytes as the limit were read, and neither the script's end nor `(exit)`.
    InputLimit,
}

const UNFINISHED: &[u8] = b"(error \"unexpected end of input\")\n";

/// Of a script at most so many bytes are read.
const INPUT_LIMIT: u64 = 0x1_0000_0000;

/// How many bytes are asked of the world at a time.
const PIECE: usize = 0x1_0000;

/// Answers the script that the words ask for, `strsolve [--proof FILE] [SCRIPT]` with the program's name first, and
/// reads at most 2^32 bytes of it: `solve_within` of this limit.
pub fn solve_top<W: World>(alloc: Global, words: &[String], world: &mut W) -> SolveStatus
    ensures usage { are_taken (map string_bytes words.now) ≡ false
        → WrongWords result (W.outside world.old) (W.outside world.new) }

    // What is read of the script, and what is answered. Who relies on the answers alone needs no other clause, and none
    // of the definitions of proofs.
    ensures answers { are_taken (map string_bytes words.now) ≡ true
        → AnswersBy (asked_by (map string_bytes words.now) (2 ^ 32)) result (W.outside world.old)
        (W.outside world.new) }

    // The same with the lines of the proof.
    ensures run { are_taken (map string_bytes words.now) ≡ true
        → Run (asked_by (map string_bytes words.now) (2 ^ 32)) result (W.outside world.old) (W.outside world.new) }
    ensures faults { CountsFaults result (W.faults world.old) (W.faults world.new) }

    // Where the script is answered and a proof is asked for, an accepted proof of it is written.
    ensures certified { are_taken (map string_bytes words.now) ≡ true
        → asks_proof (asked_by (map string_bytes words.now) (2 ^ 32)) ≡ true
        → (result ≡ SolveStatus.Done) ⊎ (result ≡ SolveStatus.Unfinished)
        → IsCertified (asked_by (map string_bytes words.now) (2 ^ 32)) (W.outside world.old) (W.outside world.new) }

    // Nothing else than want of memory, or without a proof a check of 2^64 - 1 steps, keeps a script whose end or exit
    // is below the limit from being answered, where no fault comes.
    ensures complete { are_taken (map string_bytes words.now) ≡ true
        → (Rose (W.faults world.old) (W.faults world.new) → ⊥)
        → ((script : List ℕ)
        × IsBounded (asked_by (map string_bytes words.now) (2 ^ 32)) script (W.outside world.old))
        → (result ≡ SolveStatus.Done) ⊎ ((result ≡ SolveStatus.Unfinished) ⊎ (result ≡ SolveStatus.NoMemory)) }
{
    solve_within(alloc, words, world, INPUT_LIMIT)
}

/// Answers the script that the words ask for, and reads at most so many bytes of it: that of the file SCRIPT, or
/// without one of standard input. The script is opened first, then FILE is created, then entries are answered. Words
/// that are not taken get a text on standard error and nothing else, `--help` and `--version` too.
///
/// After each read all whole commands in what was read are answered before the next read. The status is
/// `Usage` where the words are not taken, `Fault` only where the world's count of faults rose, and `InputLimit`
/// where so many bytes of the script as the limit were read and neither its end nor `(exit)`. Where a fault or want of
/// memory cuts the run short, the answers written are a prefix of all of them.
pub fn solve_within<W: World>(
    alloc: Global,
    words: &[String],
    world: &mut W,
    limit: u64,
) -> SolveStatus
    ensures usage { are_taken (map string_bytes words.now) ≡ false
        → WrongWords result (W.outside world.old) (W.outside world.new) }
    ensures answers { are_taken (map string_bytes words.now) ≡ true
        → AnswersBy (asked_by (map string_bytes words.now) limit) result (W.outside world.old) (W.outside world.new) }
    ensures run { are_taken (map string_bytes words.now) ≡ true
        → Run (asked_by (map string_bytes words.now) limit) result (W.outside world.old) (W.outside world.new) }
    ensures faults { CountsFaults result (W.faults world.old) (W.faults world.new) }
    ensures certified { are_taken (map string_bytes words.now) ≡ true
        → asks_proof (asked_by (map string_bytes words.now) limit) ≡ true
        → (result ≡ SolveStatus.Done) ⊎ (result ≡ SolveStatus.Unfinished)
        → IsCertified (asked_by (map string_bytes words.now) limit) (W.outside world.old) (W.outside world.new) }
    ensures complete { are_taken (map string_bytes words.now) ≡ true
        → (Rose (W.faults world.old) (W.faults world.new) → ⊥)
        → ((script : List ℕ) × IsBounded (asked_by (map string_bytes words.now) limit) script (W.outside world.old))
        → (result ≡ SolveStatus.Done) ⊎ ((result ≡ SolveStatus.Unfinished) ⊎ (result ≡ SolveStatus.NoMemory)) }
{
    certified_is_accepted();
    certified_to_exit_is_accepted();
    lines_are_counted();
    match read_words(alloc, words) {
        Ok(asked) => status_of(answer_files(alloc, asked.script, asked.proof, limit, world)),
        Err(NoRun::Told(text)) => status_of(refuse_words(text.as_bytes(), world)),
        Err(NoRun::NoMemory) => SolveStatus::NoMemory,
    }
}

/// The status of a run, a fault's too.
fn status_of(outcome: Result<SolveStatus, Stop>) -> SolveStatus
    ensures { result ≡ status_by outcome }
{
    match outcome {
        Ok(status) => status,
        Err(Stop::Fault) => SolveStatus::Fault,
        Err(Stop::NoMemory | Stop::Spent) => SolveStatus::NoMemory,
    }
}

/// Writes the text to standard error.
fn refuse_words<W: World>(text: &[u8], world: &mut W) -> Result<SolveStatus, Stop>
    ensures ok { IfOk result (λ status. (status ≡ SolveStatus.Usage)
        × (W.outside world.new ≡ moved_by (writing (OutPort.Faults, text.now)) (W.outside world.old))
        × CountsFaults status (W.faults world.old) (W.faults world.new)) }
    ensures err { OnErr result (CutInText text.now (W.outside world.old) (W.outside world.new)) }
    ensures faults { CountsStop result (W.faults world.old) (W.faults world.new) }
{
    write_all(world, OutPort::Faults, text)?;
    Ok(SolveStatus::Usage)
}

/// Opens the script of this name, or standard input, creates the proof where it has a name, and answers the script.
fn answer_files<W: World>(
    alloc: Global,
    script: Option<&str>,
    proof: Option<&str>,
    limit: u64,
    world: &mut W,
) -> Result<SolveStatus, Stop>
    ensures ok { IfOk result
        (λ status. Run (asked_for (option_copied script.entry) (option_copied proof.entry) limit) status
        (W.outside world.old) (W.outside world.new)
        × CountsFaults status (W.faults world.old) (W.faults world.new)) }
    ensures err { OnErr result (CutShort (asked_for (option_copied script.entry) (option_copied proof.entry) limit)
        (W.outside world.old) (W.outside world.new)) }
    ensures faults { CountsStop result (W.faults world.old) (W.faults world.new) }
{
    world.open_input(InPort::Script, script)?;
    create_proof(proof, world)?;
    let mut buffer = empty_piece(alloc)?;
    let mut feed = Feed::new(alloc);
    let mut session = Session::new(alloc, proof.is_some());
    let outcome = answer_script(&mut buffer, limit as usize, &mut feed, &mut session, world);
    drop(session);
    outcome
}

/// Creates what takes the proof, where it has a name.
fn create_proof<W: World>(name: Option<&str>, world: &mut W) -> Result<(), WorldError>
    ensures created { OnOk result (W.outside world.new ≡ created (option_copied name.entry) (W.outside world.old)) }
    ensures err { OnErr result (W.outside world.new ≡ W.outside world.old) }
    ensures counts { CountsFault result (W.faults world.old) (W.faults world.new) }
{
    match name {
        Some(_) => world.create_output(OutPort::Proof, name),
        None => Ok(()),
    }
}

/// Reads the script that is opened piece by piece, as much at a time as the buffer holds and the limit leaves, and
/// answers it.
fn answer_script<W: World>(
    buffer: &mut [u8],
    limit: usize,
    feed: &mut Feed,
    session: &mut Session,
    world: &mut W,
) -> Result<SolveStatus, Stop>
    requires buffer { 0 < length buffer.old }
    requires feed { feed.old ≡ ([], false) }
    requires state { state_of session.old.stack ≡ start }
    requires goes_on { session.old.ended ≡ false }
    requires tracked { IsTracked session.old beginning }
    ensures ok { IfOk result (λ status. (asked : Asked) (old : Outside) → asked.limit ≡ limit
        → is_proved session.old ≡ asks_proof asked → W.outside world.old ≡ opened asked old
        → Run asked status old (W.outside world.new)) }
    ensures counts { IfOk result (λ status. CountsFaults status (W.faults world.old) (W.faults world.new)) }
    ensures err { OnErr result ((asked : Asked) (old : Outside) → asked.limit ≡ limit
        → is_proved session.old ≡ asks_proof asked → W.outside world.old ≡ opened asked old
        → CutShort asked old (W.outside world.new)) }
    ensures faults { CountsStop result (W.faults world.old) (W.faults world.new) }
{
    let mut count = 0;
    while count < limit {
        let room = (limit - count).min(buffer.len());
        let read = world.read(InPort::Script, &mut buffer[..room])?;
        if read == 0 {
            return answer_end(feed, session, world);
        }
        if answer_piece(&buffer[..read], feed, session, world)? == Pause::Exited {
            session.finish(world)?;
            return Ok(SolveStatus::Done);
        }
        count += read;
    }
    Ok(SolveStatus::InputLimit)
}

/// Room for one piece.
fn empty_piece(alloc: Global) -> Result<Vec<u8>, AllocError>
    ensures { IfOk result (λ piece. length piece.items ≡ PIECE) }
{
    vec![in alloc; 0u8; PIECE]
}

/// Why no further entry is answered.
#[derive(Clone, Copy, PartialEq, Eq)]
enum Pause {
    /// The last entry was `(exit)`.
    Exited,
    /// No whole entry is left, and more bytes may come.
    Waiting,
    /// No whole entry is left, and no more bytes come.
    Ended(Ending),
}

/// Takes a piece of the script that was read, and answers all entries that are whole.
fn answer_piece<W: World>(
    piece: &[u8],
    feed: &mut Feed,
    session: &mut Session,
    world: &mut W,
) -> Result<Pause, Stop>
    requires feed { feed.old.1 ≡ false }
    requires session { session.old.ended ≡ false }
    ensures ok { IfOk result (λ pause. (opened : Outside) (bytes : List ℕ) (before : Outside)
        → Sofar opened bytes feed.old session.old before
        → W.outside world.old ≡ read_at InPort.Script (length piece.now) before
        → Pauses pause opened (bytes ++ piece.now) feed.new session.new (W.outside world.new)) }
    ensures err { OnErr result ((opened : Outside) (bytes : List ℕ) (before : Outside)
        → Sofar opened bytes feed.old session.old before
        → W.outside world.old ≡ read_at InPort.Script (length piece.now) before
        → Cut (is_proved session.old) opened (bytes ++ piece.now) false (W.outside world.new)) }
    ensures finished { IfOk result (λ pause. feed.new.1 ≡ false) }
    ensures goes_on { IfOk result (λ pause. StaysOpen pause session.new) }
    ensures kind { OnOk result (is_proved session.new ≡ is_proved session.old) }
    ensures faults { CountsStop result (W.faults world.old) (W.faults world.new) }
{
    feed.push(piece)?;
    answer_entries(feed, session, world)
}

/// Answers all entries that are whole.
fn answer_entries<W: World>(
    feed: &mut Feed,
    session: &mut Session,
    world: &mut W,
) -> Result<Pause, Stop>
    requires { session.old.ended ≡ false }
    ensures ok { IfOk result (λ pause. (opened : Outside) (bytes : List ℕ)
        → Sofar opened bytes feed.old session.old (W.outside world.old)
        → Pauses pause opened bytes feed.new session.new (W.outside world.new)) }
    ensures goes_on { IfOk result (λ pause. StaysOpen pause session.new) }
    ensures err { OnErr result ((opened : Outside) (bytes : List ℕ)
        → Sofar opened bytes feed.old session.old (W.outside world.old)
        → Cut (is_proved session.old) opened bytes feed.old.1 (W.outside world.new)) }
    ensures finished { feed.new.1 ≡ feed.old.1 }
    ensures kind { OnOk result (is_proved session.new ≡ is_proved session.old) }
    ensures faults { CountsStop result (W.faults world.old) (W.faults world.new) }
{
    loop {
        if let Some(pause) = answer_next(feed, session, world)? {
            return Ok(pause);
        }
    }
}

/// Answers the next entry, where it is whole; `None` where a further one may come.
fn answer_next<W: World>(
    feed: &mut Feed,
    session: &mut Session,
    world: &mut W,
) -> Result<Option<Pause>, Stop>
    requires { session.old.ended ≡ false }
    ensures ok { IfOk result (λ turn. (opened : Outside) (bytes : List ℕ)
        → Sofar opened bytes feed.old session.old (W.outside world.old)
        → Turns turn opened bytes feed.new session.new (W.outside world.new)) }
    ensures goes_on { IfOk result
        (λ turn. MatchOption turn ((session.new.ended ≡ false) × (length feed.new.0 < length feed.old.0))
        (λ pause. StaysOpen pause session.new)) }
    ensures err { OnErr result ((opened : Outside) (bytes : List ℕ)
        → Sofar opened bytes feed.old session.old (W.outside world.old)
        → Cut (is_proved session.old) opened bytes feed.old.1 (W.outside world.new)) }
    ensures finished { feed.new.1 ≡ feed.old.1 }
    ensures kind { OnOk result (is_proved session.new ≡ is_proved session.old) }
    ensures faults { CountsStop result (W.faults world.old) (W.faults world.new) }
{
    let next = feed.next()?;
    answer_what_came(&next, session, world)
}

/// Answers what came next; `None` where it was an entry, and a further one may come.
fn answer_what_came<W: World>(
    next: &Next,
    session: &mut Session,
    world: &mut W,
) -> Result<Option<Pause>, Stop>
    requires { session.old.ended ≡ false }
    ensures ok { IfOk result (λ turn. (opened : Outside) (bytes : List ℕ) (old new : feed.Unanswered)
        → feed.IsNext next.now old new → Sofar opened bytes old session.old (W.outside world.old)
        → Turns turn opened bytes new session.new (W.outside world.new)) }
    ensures goes_on { IfOk result
        (λ turn. MatchOption turn (IsEntry next.now × (session.new.ended ≡ false))
        (λ pause. StaysOpen pause session.new)) }
    ensures err { OnErr result ((opened : Outside) (bytes : List ℕ) (old new : feed.Unanswered)
        → feed.IsNext next.now old new → Sofar opened bytes old session.old (W.outside world.old)
        → Cut (is_proved session.old) opened bytes old.1 (W.outside world.new)) }
    ensures kind { OnOk result (is_proved session.new ≡ is_proved session.old) }
    ensures faults { CountsStop result (W.faults world.old) (W.faults world.new) }
{
    match next {
        Next::NotYet => Ok(Some(Pause::Waiting)),
        Next::Ended(ending) => Ok(Some(Pause::Ended(*ending))),
        Next::Command(_) | Next::Refused(_) => match session.answer(next, world)? {
            Went::Go => Ok(None),
            Went::Exited => Ok(Some(Pause::Exited)),
        },
    }
}

/// Answers what is left once the script was read to its end.
fn answer_end<W: World>(
    feed: &mut Feed,
    session: &mut Session,
    world: &mut W,
) -> Result<SolveStatus, Stop>
    requires { session.old.ended ≡ false }
    ensures ok { IfOk result (λ status. (asked : Asked) (old : Outside) (bytes : List ℕ)
        → AllRead asked old bytes feed.old session.old (W.outside world.old)
        → Run asked status old (W.outside world.new)) }
    ensures counts { IfOk result (λ status. CountsFaults status (W.faults world.old) (W.faults world.new)) }
    ensures err { OnErr result ((asked : Asked) (old : Outside) (bytes : List ℕ)
        → AllRead asked old bytes feed.old session.old (W.outside world.old)
        → CutShort asked old (W.outside world.new)) }
    ensures faults { CountsStop result (W.faults world.old) (W.faults world.new) }
{
    feed.finish();
    let pause = answer_entries(feed, session, world)?;
    end_script(pause, session, world)
}

/// Answers the end of the script, and ends the proof.
fn end_script<W: World>(
    pause: Pause,
    session: &mut Session,
    world: &mut W,
) -> Result<SolveStatus, Stop>
    ensures ok { IfOk result (λ status. (asked : Asked) (old : Outside) (bytes : List ℕ) (kept : feed.Unanswered)
        → IsRead asked old bytes → kept.1 ≡ true → is_proved session.old ≡ asks_proof asked
        → Pauses pause (opened asked old) bytes kept session.old (W.outside world.old)
        → Run asked status old (W.outside world.new)) }
    ensures counts { IfOk result (λ status. CountsFaults status (W.faults world.old) (W.faults world.new)) }
    ensures err { OnErr result ((asked : Asked) (old : Outside) (bytes : List ℕ) (kept : feed.Unanswered)
        → IsRead asked old bytes → kept.1 ≡ true → is_proved session.old ≡ asks_proof asked
        → Pauses pause (opened asked old) bytes kept session.old (W.outside world.old)
        → CutShort asked old (W.outside world.new)) }
    ensures faults { CountsStop result (W.faults world.old) (W.faults world.new) }
{
    if pause == Pause::Ended(Ending::Unfinished) {
        write_all(world, OutPort::Answers, UNFINISHED)?;
        session.finish(world)?;
        return Ok(SolveStatus::Unfinished);
    }
    session.finish(world)?;
    Ok(SolveStatus::Done)
}
