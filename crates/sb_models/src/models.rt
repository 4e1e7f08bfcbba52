//! What is known of live assertions.

ghost use Rattle.std.specs.Prelude.{◌≡◌, ℕ, true, false, length, map, take, IfOk};
ghost use Rattle.std.specs.List.{list_all};
ghost use Rattle.sb_regex.specs.Numbered.{Extends};
ghost use Rattle.sb_problem.specs.Known.{AreNormals};
ghost use Rattle.sb_plain.specs.Memory.{IsRight};
ghost use Rattle.sb_script.specs.Fragment.{in_fragment, is_decided};
ghost use Rattle.sb_script.specs.State.{terms_in};
ghost use Rattle.sb_rulebook.specs.Verdicts.{are_model_of};
ghost use Rattle.sb_fragment.specs.Measures.{AreMeasures};
ghost use Rattle.sb_proof.specs.Lines.{value_in};
ghost use Rattle.sb_stack.specs.Speaking.{speaks_of};
ghost use Rattle.sb_stack.specs.Stacked.{Stacked, state_of, question_of, live_in};
ghost use Rattle.sb_models.specs.Knowing.{Knows, AreTrueBy, IsTruthBy, assertions_of};
ghost use Rattle.sb_models.specs.Tried.{are_kinds, are_tried, marks_of, MayPass};
ghost use Rattle.sb_models.specs.Laws.{LeavesKnown};

use crate::changes::change;
use crate::kinds::are_kinds;
use crate::truths::{are_assumed, are_same, truths_of};
use crate::trying::all_hold;
use sb_fragment::{Fragment, Measures, Standing, fragment_is_of_each};
use sb_plain::Plain;
use sb_problem::Normals;
use sb_proof::Value;
use sb_regex::Arena;
use sb_stack::{LiveConstant, Stack};
use sb_word::Word;
use std::alloc::{AllocError, Global};
use std::collections::HashSet;
use std::mem;

/// What is known of the live assertions of a script from one check to the next.
#[derive(Drop)]
pub struct Models {
    /// Which of them are known to be decided ones.
    pub fragment: Fragment,
    /// So many, from the first on, are known to be true under the words and truth values of the last model.
    pub held: usize,
    /// These words, the one of each constant at its serial, and the empty one at any other.
    pub words: Vec<Word>,
    /// These truth values, by serial, false past the last one.
    pub truths: Vec<bool>,
    /// The constants that were live there.
    pub constants: Vec<LiveConstant>,
}

impl Models {
    /// Nothing is known. Takes no memory.
    pub fn new(alloc: Global) -> Models
        ensures { (stack : Stacked) → Knows result stack }
    {
        Models {
            fragment: Fragment::new(),
            held: 0,
            words: Vec::new(alloc),
            truths: Vec::new(alloc),
            constants: Vec::new(alloc),
        }
    }

    /// Takes back what is known to so many assertions, those that are still there where levels were left. Takes no
    /// memory; constant time.
    pub fn leave(&mut self, count: usize)
        ensures { LeavesKnown count self.old self.new }
    {
        self.fragment.leave(count);
        self.held = self.held.min(count);
    }

    /// Whether all live assertions are decided ones. Its cost and its error are those of [`Fragment::stand`].
    pub fn is_inside(&mut self, measures: &mut Measures, stack: &Stack) -> Result<bool, AllocError>
        requires knows { Knows self.old stack.now }
        requires measures { AreMeasures stack.now.table measures.old }
        ensures ok { IfOk result (λ inside. inside ≡ in_fragment (state_of stack.now)) }
        ensures knows { Knows self.new stack.now }
        ensures measures { AreMeasures stack.now.table measures.new }
    {
        fragment_is_of_each();
        let standing = self
            .fragment
            .stand(measures, stack.table(), stack.assertions())?;
        match standing {
            Standing::Inside(_) => Ok(true),
            Standing::Outside(_) => Ok(false),
        }
    }

    /// Whether the values, in the order of the live constants, are a model of the live assertions, which are decided
    /// ones, and of the assumptions of the check: there is a value of its sort for each constant, and the words and
    /// truth values make each assertion and each assumption true. Where they are, they are kept.
    ///
    /// Where each constant has the word and the truth value that it had in the last model, and each one declared since
    /// has the empty word, or false, only the assertions behind those that were true there are looked at. Else all are,
    /// and one that was true there and asks something of the word of one constant alone, which has the word that it had
    /// there, is passed over in constant time. For each other one the cost is that of [`sb_atoms::eval`]. Linear in the
    /// values and assumptions besides, and in the constants of the last model that are gone; no memory is taken for a
    /// value that is the word of its constant in the last model. Where a Bool constant is true, linear in the constants
    /// declared before it too.
    /// After values that are none of a model, and after want of memory, the next call looks at all assertions.
    /// `AllocError` only for want of memory.
    pub fn is_model(
        &mut self,
        alloc: Global,
        plain: &mut Plain,
        normals: &mut Normals,
        arena: &mut Arena,
        stack: &Stack,
        values: &[Value],
    ) -> Result<bool, AllocError>
        requires knows { Knows self.old stack.now }
        requires inside { in_fragment (state_of stack.now) ≡ true }
        requires normals { AreNormals stack.now.table arena.old normals.old }
        requires right { IsRight arena.old plain.old }
        ensures ok { IfOk result
            (λ model. model ≡ are_model_of (question_of stack.now) (map value_in values.now)) }
        ensures knows { Knows self.new stack.now }
        ensures extends { Extends arena.old arena.new }
        ensures normals { AreNormals stack.now.table arena.new normals.new }
        ensures right { IsRight arena.new plain.new }
    {
        fragment_is_of_each();
        let _declared = stack.declared();
        let _assertions = stack.assertions();
        let constants = stack.constants()?;
        if values.len() != constants.len() {
            return Ok(false);
        }
        if !are_kinds(&constants, values) {
            return Ok(false);
        }
        self.hold_under(alloc, plain, normals, arena, stack, constants, values)
    }

    /// Whether the words of the values are words, and all live assertions and assumptions are true where the live
    /// constants have these values, one each. Where they are, they are kept.
    fn hold_under(
        &mut self,
        alloc: Global,
        plain: &mut Plain,
        normals: &mut Normals,
        arena: &mut Arena,
        stack: &Stack,
        constants: Vec<LiveConstant>,
        values: &[Value],
    ) -> Result<bool, AllocError>
        requires knows { Knows self.old stack.now }
        requires decided { list_all is_decided (assertions_of stack.now) ≡ true }
        requires named { list_all (speaks_of (map live_in constants.items)) (terms_in (assertions_of stack.now)) ≡ true }
        requires kinds { are_kinds (map live_in constants.items) (map value_in values.now) ≡ true }
        requires long { length values.now ≡ length constants.items }
        requires normals { AreNormals stack.now.table arena.old normals.old }
        requires right { IsRight arena.old plain.old }
        ensures ok { IfOk result (λ truth. truth
            ≡ are_tried (map live_in constants.items) (map value_in values.now) (assertions_of stack.now)
            stack.now.assumptions) }
        ensures knows { Knows self.new stack.now }
        ensures extends { Extends arena.old arena.new }
        ensures normals { AreNormals stack.now.table arena.new normals.new }
        ensures right { IsRight arena.new plain.new }
    {
        let held = mem::replace(&mut self.held, 0);
        let before = mem::replace(&mut self.constants, Vec::new(alloc));
        let mut words = mem::replace(&mut self.words, Vec::new(alloc));
        let last = mem::replace(&mut self.truths, Vec::new(alloc));
        let Some(changed) = change(alloc, &mut words, &before, &constants, values)? else {
            return Ok(false);
        };
        let truths = truths_of(alloc, &constants, values)?;
        if !are_assumed(&truths, stack.assumptions()) {
            return Ok(false);
        }
        let same = are_same(&last, &truths);
        if !are_true(
            plain, normals, arena, stack, &words, &truths, &changed, same, held,
        )? {
            return Ok(false);
        }
        self.fragment.inside = stack.assertions().len();
        self.held = self.fragment.inside;
        self.words = words;
        self.truths = truths;
        self.constants = constants;
        Ok(true)
    }
}

/// Whether all live assertions are true under words and truth values. Of the first so many those are that ask something
/// of the word of one constant alone, but where it has another word than before; and all are where no word is another
/// one, and the truth values are the same.
fn are_true(
    plain: &mut Plain,
    normals: &mut Normals,
    arena: &mut Arena,
    stack: &Stack,
    words: &[Word],
    truths: &[bool],
    changed: &HashSet<u64>,
    same: bool,
    held: usize,
) -> Result<bool, AllocError>
    requires decided { list_all is_decided (assertions_of stack.now) ≡ true }
    requires pass { MayPass words.now truths.now (marks_of changed.now) held (assertions_of stack.now) }
    requires before { same ≡ true → ((serial : ℕ) → marks_of changed.now serial ≡ false)
        → AreTrueBy words.now truths.now (take held (assertions_of stack.now)) }
    requires normals { AreNormals stack.now.table arena.old normals.old }
    requires right { IsRight arena.old plain.old }
    ensures ok { IfOk result (IsTruthBy words.now truths.now (assertions_of stack.now)) }
    ensures extends { Extends arena.old arena.new }
    ensures normals { AreNormals stack.now.table arena.new normals.new }
    ensures right { IsRight arena.new plain.new }
{
    if same && changed.is_empty() {
        return all_hold(
            plain, normals, arena, stack, words, truths, changed, 0, held,
        );
    }
    all_hold(
        plain, normals, arena, stack, words, truths, changed, held, 0,
    )
}
