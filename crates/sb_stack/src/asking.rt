//! What a script asks of the solver: options, information, models, values and unsatisfiable assumptions
//! (SMT-LIB 2.6, sections 4.1.7, 4.1.8, 4.2.6, 4.2.7).

ghost use Rattle.std.specs.Prelude.{◌≡◌, List, true, map, IfOk, MatchResult};
ghost use Rattle.std.specs.List.{list_all};
ghost use Rattle.sb_meaning.specs.Values.{Valuation};
ghost use Rattle.sb_script.specs.State.{State, refuted};
ghost use Rattle.sb_script.specs.Replies as meaning;
ghost use Rattle.sb_script.specs.Steps as steps;
ghost use Rattle.sb_script.specs.Options as options;
ghost use Rattle.sb_stack.specs.Commands.{forms_in};
ghost use Rattle.sb_stack.specs.Stacked.{state_of, live_constants, values_at};
ghost use Rattle.sb_script.specs.Options.{truth_text};
ghost use Rattle.sb_stack.specs.Settings.{text_in};
ghost use Rattle.sb_stack.specs.Taking.{IsAnswered, asks};
ghost use Rattle.sb_stack.specs.Values.{item_in, is_live_item, answers_by};

use crate::assuming::assumptions_line;
use crate::option::{Setting, info_line, setting_named};
use crate::reply::{error_line, truth_line, unsupported_line};
use crate::stack::{Mode, Stack};
use crate::value::{
    Item, all_constants, constants, first_unknown, items, model_line, some_malformed, values_line,
};
use sb_reader::Shapes;
use sb_word::Word;
use std::alloc::{AllocError, Global};

impl Stack {
    pub(crate) fn get_option(&self, key: &[u8]) -> Result<Vec<u8>, AllocError>
        ensures { IfOk result
            (λ text. IsAnswered (options.get_option key.now (state_of self.now)) text (state_of self.now)
            (state_of self.now)) }
    {
        match setting_named(key) {
            Some(setting) => truth_line(self.alloc, self.value_of(setting)),
            None => self.leave_out(),
        }
    }

    /// The value of an option.
    fn value_of(&self, setting: Setting) -> bool
        ensures { truth_text result ≡ text_in setting (state_of self.now) }
    {
        match setting {
            Setting::PrintSuccess => self.print_success,
            Setting::ProduceModels => self.produce_models,
            Setting::ProduceAssumptions => self.produce_unsat_assumptions,
            Setting::GlobalDeclarations => self.scope.is_global(),
        }
    }

    pub(crate) fn get_info(&self, key: &[u8]) -> Result<Vec<u8>, AllocError>
        ensures { IfOk result
            (λ text. IsAnswered (options.get_info key.now (state_of self.now)) text (state_of self.now)
            (state_of self.now)) }
    {
        if key == b":reason-unknown".as_slice() {
            return self.reason_unknown();
        }
        match info_line(key) {
            Some(line) => Vec::from_slice(self.alloc, line),
            None => unsupported_line(self.alloc),
        }
    }

    /// Says why the last check was not decided.
    fn reason_unknown(&self) -> Result<Vec<u8>, AllocError>
        ensures { IfOk result
            (λ text. IsAnswered (options.reason_unknown (state_of self.now).mode (state_of self.now)) text
            (state_of self.now) (state_of self.now)) }
    {
        match self.mode {
            Mode::Unknown => Vec::from_slice(self.alloc, b"(:reason-unknown resource-limit)\n"),
            Mode::Plain | Mode::Sat | Mode::Unsat => error_line(self.alloc, b"no unknown answer"),
        }
    }

    /// The words and truth values of the last check, or why there are none.
    fn model(&self) -> Result<(&[Word], &[bool]), &'static [u8]>
        ensures { MatchResult result (λ values. (answer : Valuation → steps.Step)
            → meaning.with_values (state_of self.now) answer
            ≡ answer (values_at (live_constants self.now) values.0.now values.1.now))
            (λ message. (answer : Valuation → steps.Step)
            → meaning.with_values (state_of self.now) answer ≡ steps.fails message.now (state_of self.now)) }
    {
        if !self.produce_models {
            return Err(b"models not enabled");
        }
        match self.mode {
            Mode::Sat => Ok((&self.words, &self.truths)),
            Mode::Plain | Mode::Unsat | Mode::Unknown => Err(b"no model"),
        }
    }

    pub(crate) fn get_model(&self) -> Result<Vec<u8>, AllocError>
        ensures { IfOk result
            (λ text. IsAnswered (meaning.get_model (state_of self.now)) text (state_of self.now) (state_of self.now)) }
    {
        let _declared = self.scope.declared();
        match self.model() {
            Ok(values) => {
                let constants = constants(self.alloc, &self.scope)?;
                model_line(self.alloc, values.0, values.1, &constants)
            }
            Err(message) => error_line(self.alloc, message),
        }
    }

    /// Answers with those of the last check's assumptions that contradict what is asserted.
    pub(crate) fn get_unsat_assumptions(&self) -> Result<Vec<u8>, AllocError>
        ensures { IfOk result
            (λ text. IsAnswered (meaning.get_unsat_assumptions (state_of self.now)) text (state_of self.now)
            (state_of self.now)) }
    {
        if !self.produce_unsat_assumptions {
            return self.fail(b"assumptions not enabled");
        }
        self.contradicted()
    }

    /// The same, where the option is on.
    fn contradicted(&self) -> Result<Vec<u8>, AllocError>
        ensures { IfOk result
            (λ text. IsAnswered (meaning.contradicted (state_of self.now).mode (state_of self.now)) text
            (state_of self.now) (state_of self.now)) }
    {
        match self.mode {
            Mode::Unsat => self.contradicting(),
            Mode::Plain | Mode::Sat | Mode::Unknown => error_line(self.alloc, b"no unsat answer"),
        }
    }

    /// The line of the assumptions that the last check named.
    fn contradicting(&self) -> Result<Vec<u8>, AllocError>
        ensures { IfOk result
            (λ text. IsAnswered
            (meaning.contradicted (refuted self.now.unsat_assumptions) (state_of self.now)) text (state_of self.now)
            (state_of self.now)) }
    {
        let _declared = self.scope.declared();
        let constants = constants(self.alloc, &self.scope)?;
        assumptions_line(self.alloc, self.unsat_assumptions.as_slice(), &constants)
    }

    pub(crate) fn get_value(&self, forms: Shapes<'_>) -> Result<Vec<u8>, AllocError>
        ensures { IfOk result
            (λ text. IsAnswered (meaning.get_value (forms_in forms.entry) (state_of self.now)) text (state_of self.now)
            (state_of self.now)) }
    {
        let _declared = self.scope.declared();
        let items = items(self.alloc, &self.scope, forms)?;
        self.answer_items(&items)
    }

    fn answer_items(&self, items: &[Item]) -> Result<Vec<u8>, AllocError>
        requires { list_all (is_live_item (live_constants self.now)) (map item_in items.now) ≡ true }
        ensures { IfOk result
            (λ text. IsAnswered (asks (map item_in items.now) (state_of self.now)) text (state_of self.now)
            (state_of self.now)) }
    {
        if some_malformed(items) {
            return self.fail(b"malformed command");
        }
        match first_unknown(items) {
            Some(name) => self.fail_with_name(b"unknown symbol ", name),
            None => self.values_of(items),
        }
    }

    /// Answers a question for items that all stand for something.
    fn values_of(&self, items: &[Item]) -> Result<Vec<u8>, AllocError>
        requires { list_all (is_live_item (live_constants self.now)) (map item_in items.now) ≡ true }
        ensures { IfOk result
            (λ text. IsAnswered (meaning.values_of (map item_in items.now) (state_of self.now)) text (state_of self.now)
            (state_of self.now)) }
    {
        match self.model() {
            Ok(values) => answer_values(self.alloc, values.0, values.1, items),
            Err(message) => self.fail(message),
        }
    }
}

/// Answers with the values of items, where all are constants.
fn answer_values(
    alloc: Global,
    words: &[Word],
    truths: &[bool],
    items: &[Item],
) -> Result<Vec<u8>, AllocError>
    ensures { IfOk result (λ text. (s : State)
        → IsAnswered (answers_by words.now truths.now (map item_in items.now) s) text s s) }
{
    match all_constants(alloc, items)? {
        Some(constants) => values_line(alloc, words, truths, &constants),
        None => unsupported_line(alloc),
    }
}
