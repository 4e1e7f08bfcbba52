//! Assertions under words and truth values.

ghost use Rattle.std.specs.Prelude.{◌≡◌, ◌<◌, true, length, take, IfOk};
ghost use Rattle.std.specs.List.{list_all};
ghost use Rattle.sb_regex.specs.Numbered.{Extends};
ghost use Rattle.sb_term.specs.Numbered.{term_at};
ghost use Rattle.sb_problem.specs.Known.{AreNormals};
ghost use Rattle.sb_plain.specs.Memory.{IsRight};
ghost use Rattle.sb_script.specs.Fragment.{is_decided};
ghost use Rattle.sb_models.specs.Knowing.{AreTrueBy, IsTruthBy, assertions_of};
ghost use Rattle.sb_models.specs.Tried.{marks_of, IsOfSame, MayPass};

use sb_atoms::eval;
use sb_fragment::membership;
use sb_plain::Plain;
use sb_problem::Normals;
use sb_regex::Arena;
use sb_stack::Stack;
use sb_term::{Table, TermId};
use sb_word::Word;
use std::alloc::AllocError;
use std::collections::HashSet;

/// Whether the term asks something of the word of one constant alone, whose word is not said to be another one.
fn is_of_same(table: &Table, id: TermId, changed: &HashSet<u64>) -> bool
    requires { id < length table.now }
    ensures { result ≡ true → IsOfSame (marks_of changed.now) (term_at table.now id) }
{
    let Some((serial, _)) = membership(table, id) else {
        return false;
    };
    !changed.contains(&serial.0)
}

/// Whether the term, of the assertion at a place, is of such a constant, and among the first so many.
fn may_pass(table: &Table, id: TermId, place: usize, changed: &HashSet<u64>, held: usize) -> bool
    requires { id < length table.now }
    ensures { result ≡ true → (place < held) × IsOfSame (marks_of changed.now) (term_at table.now id) }
{
    place < held && is_of_same(table, id, changed)
}

/// Whether all live assertions are true under words and truth values, where those before a place are, and where those of
/// the first so many are that ask something of the word of one constant alone, which is no other one than before.
pub(crate) fn all_hold(
    plain: &mut Plain,
    normals: &mut Normals,
    arena: &mut Arena,
    stack: &Stack,
    words: &[Word],
    truths: &[bool],
    changed: &HashSet<u64>,
    held: usize,
    from: usize,
) -> Result<bool, AllocError>
    requires decided { list_all is_decided (assertions_of stack.now) ≡ true }
    requires pass { MayPass words.now truths.now (marks_of changed.now) held (assertions_of stack.now) }
    requires before { AreTrueBy words.now truths.now (take from (assertions_of stack.now)) }
    requires normals { AreNormals stack.now.table arena.old normals.old }
    requires right { IsRight arena.old plain.old }
    ensures ok { IfOk result (IsTruthBy words.now truths.now (assertions_of stack.now)) }
    ensures extends { Extends arena.old arena.new }
    ensures normals { AreNormals stack.now.table arena.new normals.new }
    ensures right { IsRight arena.new plain.new }
{
    let table = stack.table();
    let assertions = stack.assertions();
    for place in from..assertions.len() {
        let assertion = assertions[place];
        let Some(id) = assertion.term else {
            return Ok(false);
        };
        if may_pass(table, id, place, changed, held) {
            continue;
        }
        if !eval(plain, normals, arena, table, id, words, truths)? {
            return Ok(false);
        }
    }
    Ok(true)
}
