//! The stack.

ghost use Rattle.std.specs.Prelude.{◌≡◌, ℕ, ◌≤◌, Bool, List, [], ◌++◌, true, map, length, Result, Ok, IfOk, OnOk, OnErr};
ghost use Rattle.std.specs.List.{All, list_all};
ghost use Rattle.sb_reader.specs.Entries as entries;
ghost use Rattle.sb_reader.specs.Forms.{form_of, shape_of};
ghost use Rattle.sb_meaning.specs.Terms as terms;
ghost use Rattle.sb_script.specs.Faults.{Fault, unsupported};
ghost use Rattle.sb_script.specs.Names.{name_in_text};
ghost use Rattle.sb_script.specs.Reading.{read};
ghost use Rattle.sb_script.specs.Scopes.{constants_in};
ghost use Rattle.sb_script.specs.State.{State, start, live, live_terms, names_of, constants_of, fits, plain, with_assertion};
ghost use Rattle.sb_script.specs.Replies as meaning;
ghost use Rattle.sb_script.specs.Steps as steps;
ghost use Rattle.sb_script.specs.Options as options;
ghost use Rattle.sb_script.specs.Replies.{step_of};
ghost use Rattle.sb_script.specs.Verdicts.{verdict_text, settled};
ghost use Rattle.sb_sorts.specs.Reads.{ReadsAs, Faults};
ghost use Rattle.sb_sorts.specs.Scopes.{names_in, serials_in, ascend_below, are_sorted};
ghost use Rattle.sb_term.specs.Symbols.{sort_in};
ghost use Rattle.sb_script.specs.Brought.{is_brought_sort};
ghost use Rattle.sb_sorts.specs.Bodies.{bound_in};
ghost use Rattle.sb_term.specs.Numbered.{term_at, Extends};
ghost use Rattle.sb_term.specs.Serials.{all_below};
ghost use Rattle.sb_stack.specs.Commands.{effect_of, forms_in};
ghost use Rattle.sb_stack.specs.declared.stack.Step.TheVariants as code;
ghost use Rattle.sb_stack.specs.Keeping.{Keeps, KeepsBy, StandsFor};
ghost use Rattle.sb_stack.specs.Speaking.{speaks_of, are_assumed};
ghost use Rattle.sb_stack.specs.Assumptions.{assumed_in, assumes, assumes_known, is_live_assumed};
ghost use Rattle.sb_stack.specs.Stacked.{state_of, assertion_of, assertion_in, values_at, live_constants, live_in, are_words, have_levels, HasNumberBelow, without_words, AreAssumed};
ghost use Rattle.sb_stack.specs.Steps.{verdict_in, found, IsStep, IsUnder, IsMoved, IsEntry, entry_of};
ghost use Rattle.sb_stack.specs.Taking.{IsAnswered, answered_in, with_print_success, with_produce_models, with_produce_assumptions, declares, asserts};

use crate::assuming::{
    Assumed, Assumption, all_literals, assumed_forms, first_unknown, some_wrong_sort,
};
use crate::command::{Command, command_of};
use crate::constant::LiveConstant;
use crate::level::Level;
use crate::option::{Setting, is_logic, setting_named, sort_of, truth_in};
use crate::reply::{
    error_line, error_line_with_name, fault_line, quoted_line, refusal_text, success_line,
    unsupported_line,
};
use crate::value::live_constants;
use crate::verdict::Verdict;
use sb_reader::{Next, Sexpr, Shape, Shapes};
use sb_script::laws::reading_keeps;
use sb_sorts::{DeclareError, Parameter, ReadFault, Scope, read_body};
use sb_term::{Assertion, Sort, Table, TermId};
use sb_word::Word;
use std::alloc::{AllocError, Global};
use std::marker::Model;
use std::mem;

/// What the last check found, until the script says something new.
#[derive(Clone, Copy)]
pub(crate) enum Mode {
    Plain,
    /// The last words and truth values are a model.
    Sat,
    Unsat,
    Unknown,
}

/// What becomes of an entry.
#[derive(Drop)]
pub enum Step {
    /// It is answered by these bytes, their line feed included, or by none.
    Answer(Vec<u8>),
    /// A check is asked for, under the stack's `assumptions`: `settle` answers it.
    Check,
    /// Levels are left, with what was asserted there, and what was declared unless it is to stay: it is answered by these
    /// bytes, and so many levels above the first one are left. None: all assertions went.
    Left(Vec<u8>, Option<usize>),
    /// The run ends, with these bytes as its last answer.
    Exit(Vec<u8>),
}

/// The state of a script between two commands.
#[derive(Drop)]
pub struct Stack {
    pub(crate) alloc: Global,
    pub(crate) logic_set: bool,
    /// A logic was set, or something declared, defined or asserted.
    pub(crate) begun: bool,
    pub(crate) print_success: bool,
    pub(crate) produce_models: bool,
    pub(crate) produce_unsat_assumptions: bool,
    pub(crate) scope: Scope,
    pub(crate) mode: Mode,
    /// The word of each constant of sort String at its serial, as the last check that found some had it.
    pub(crate) words: Vec<Word>,
    /// The truth value of each constant of sort Bool at its serial, as that check had it.
    pub(crate) truths: Vec<bool>,
    /// The assumptions of the last check, none once levels were left.
    pub(crate) assumptions: Vec<Assumption>,
    /// Those that contradict what was asserted, as the last check that was `unsat` had them.
    pub(crate) unsat_assumptions: Vec<Assumption>,
    pub(crate) table: Table,
    pub(crate) assertions: Vec<Assertion>,
    /// The levels above the first one, the outermost first.
    pub(crate) levels: Vec<Level>,
}

impl Model for Stack {
    ghost use Rattle.sb_stack.specs.Stacked.{Stacked};
    ghost use Rattle.std.specs.Prelude.{reverse};
    ghost use Rattle.std.specs.Coded.{codes};
    ghost use Rattle.sb_meaning.proofs.CallerLemmas.{coded_term};
    ghost use Rattle.sb_stack.specs.Keeping.{IsStacked};

    ghost Value = { Stacked };

    ghost coded = { Prim.hlevel (codes, coded_term) };

    ghost view = { λ s. record {
      logic_set = s.logic_set;
      begun = s.begun;
      print_success = s.print_success;
      produce_models = s.produce_models;
      produce_unsat_assumptions = s.produce_unsat_assumptions;
      scope = s.scope;
      mode = s.mode;
      words = s.words.items;
      truths = s.truths.items;
      assumptions = s.assumptions.items;
      unsat_assumptions = s.unsat_assumptions.items;
      table = s.table;
      assertions = s.assertions.items;
      levels = reverse s.levels.items;
    } };

    ghost invariant = { λ s. IsStacked s.begun s.scope s.table s.assertions.items (reverse s.levels.items)
        s.assumptions.items };
}

#[tactic(auto, using(crate::proofs::Changes::keeps_parts, crate::proofs::Changes::keeps_more))]
impl Stack {
    /// The state at the start of a script. It takes no memory.
    pub fn new(alloc: Global) -> Stack
        ensures state { state_of result ≡ start }
        ensures assertions { result.assertions ≡ [] }
        ensures words { result.words ≡ [] }
        ensures truths { result.truths ≡ [] }
        ensures assumptions { result.assumptions ≡ [] }
        ensures table { result.table ≡ [] }
        ensures levels { result.levels ≡ [] }
    {
        Stack {
            alloc,
            logic_set: false,
            begun: false,
            print_success: true,
            produce_models: false,
            produce_unsat_assumptions: false,
            scope: Scope::new(alloc),
            mode: Mode::Plain,
            words: Vec::new(alloc),
            truths: Vec::new(alloc),
            assumptions: Vec::new(alloc),
            unsat_assumptions: Vec::new(alloc),
            table: Table::new(alloc),
            assertions: Vec::new(alloc),
            levels: Vec::new(alloc),
        }
    }

    /// Takes the next entry of the script, and answers it, unless it asks for a check. Linear in the entry, and in
    /// the answer. Terms and live assertions keep their numbers and places, whatever the answer; where levels are left
    /// the last assertions go. Where memory runs out the table may hold parts of a term that was not asserted.
    pub fn apply(&mut self, entry: &Next) -> Result<Step, AllocError>
        requires { IsEntry entry.now }
        ensures ok { IfOk result
            (λ step. IsStep (step_of (entry_of entry.now) (state_of self.old)) step (state_of self.old)
            (state_of self.new)) }
        ensures err { OnErr result (state_of self.new ≡ state_of self.old) }
        ensures extends { Extends self.old.table self.new.table }
        ensures grows { IsMoved result self.old.assertions self.new.assertions }
        ensures words { self.new.words ≡ self.old.words }
        ensures constants { length self.old.scope.sorts ≤ length self.new.scope.sorts }
        ensures given { IfOk result
            (λ step. IsUnder (step_of (entry_of entry.now) (state_of self.old)) step self.new.assumptions) }
    {
        self.answer(entry)
    }

    /// Takes the next entry, for the contract above.
    fn answer(&mut self, entry: &Next) -> Result<Step, AllocError>
        requires { IsEntry entry.now }
        ensures ok { IfOk result
            (λ step. IsStep (step_of (entry_of entry.now) (state_of self.old)) step (state_of self.old)
            (state_of self.new)) }
        ensures err { OnErr result (state_of self.new ≡ state_of self.old) }
        ensures keeps { KeepsBy result self.old self.new }
        ensures given { IfOk result
            (λ step. IsUnder (step_of (entry_of entry.now) (state_of self.old)) step self.new.assumptions) }
    {
        match entry {
            Next::Command(form) => self.run(form),
            Next::Refused(refusal) => answered(self.fail(refusal_text(*refusal))),
            Next::NotYet | Next::Ended(_) => unreachable!(),
        }
    }

    /// Takes the command of a form.
    fn run(&mut self, form: &Sexpr) -> Result<Step, AllocError>
        ensures ok { IfOk result
            (λ step. IsStep (meaning.step_of (entries.Command (form_of form.now)) (state_of self.old)) step
            (state_of self.old) (state_of self.new)) }
        ensures err { OnErr result (state_of self.new ≡ state_of self.old) }
        ensures keeps { KeepsBy result self.old self.new }
        ensures given { IfOk result
            (λ step. IsUnder (meaning.step_of (entries.Command (form_of form.now)) (state_of self.old)) step
            self.new.assumptions) }
    {
        match command_of(form) {
            Some(command) => self.take(command),
            None => answered(self.fail(b"malformed command")),
        }
    }

    fn take(&mut self, command: Command) -> Result<Step, AllocError>
        ensures ok { IfOk result
            (λ step. IsStep (effect_of command.entry (state_of self.old)) step (state_of self.old)
            (state_of self.new)) }
        ensures err { OnErr result (state_of self.new ≡ state_of self.old) }
        ensures keeps { KeepsBy result self.old self.new }
        ensures given { IfOk result
            (λ step. IsUnder (effect_of command.entry (state_of self.old)) step self.new.assumptions) }
    {
        match command {
            Command::SetLogic(name) => answered(self.set_logic(name)),
            Command::SetOption(key, value) => answered(self.set_option(key, value)),
            Command::GetOption(key) => answered(self.get_option(key)),
            Command::SetInfo => answered(self.succeed()),
            Command::GetInfo(key) => answered(self.get_info(key)),
            Command::DeclareConstant(name, sort) => answered(self.declare_constant(name, sort)),
            Command::DeclareFunction(name) => answered(self.declare_function(name)),
            Command::DefineFunction {
                name,
                parameters,
                sort,
                body,
            } => answered(self.define_function(name, parameters, sort, body)),
            Command::Assert(form) => answered(self.assert(form)),
            Command::Push(count) => answered(self.push(count)),
            Command::Pop(count) => self.pop(count),
            Command::CheckSat => self.check(),
            Command::CheckSatAssuming(forms) => self.check_assuming(forms),
            Command::GetModel => answered(self.get_model()),
            Command::GetValue(forms) => answered(self.get_value(forms)),
            Command::GetUnsatAssumptions => answered(self.get_unsat_assumptions()),
            Command::Echo(text) => answered(self.echo(text)),
            Command::ResetAssertions => self.reset_assertions(),
            Command::Reset => self.reset(),
            Command::Exit => self.exit(),
            Command::Another => answered(self.leave_out()),
        }
    }

    /// Fails with a message.
    pub(crate) fn fail(&self, message: &[u8]) -> Result<Vec<u8>, AllocError>
        ensures { IfOk result
            (λ text. IsAnswered (steps.fails message.now (state_of self.now)) text (state_of self.now)
            (state_of self.now)) }
    {
        error_line(self.alloc, message)
    }

    /// Answers to what is left out.
    pub(crate) fn leave_out(&self) -> Result<Vec<u8>, AllocError>
        ensures { IfOk result
            (λ text. IsAnswered (steps.is_unsupported (state_of self.now)) text (state_of self.now)
            (state_of self.now)) }
    {
        unsupported_line(self.alloc)
    }

    /// Answers with a text, between its quotes.
    fn echo(&self, text: &[u8]) -> Result<Vec<u8>, AllocError>
        ensures { IfOk result
            (λ answer. IsAnswered (steps.answers (steps.line (steps.quoted text.now)) (state_of self.now)) answer
            (state_of self.now) (state_of self.now)) }
    {
        quoted_line(self.alloc, text)
    }

    fn set_logic(&mut self, name: &[u8]) -> Result<Vec<u8>, AllocError>
        ensures ok { IfOk result
            (λ text. IsAnswered (options.set_logic name.now (state_of self.old)) text (state_of self.old)
            (state_of self.new)) }
        ensures err { OnErr result (state_of self.new ≡ state_of self.old) }
        ensures keeps { Keeps self.old self.new }
    {
        if self.logic_set {
            return error_line(self.alloc, b"logic already set");
        }
        if !is_logic(name) {
            return unsupported_line(self.alloc);
        }
        let answer = success_line(self.alloc, self.print_success)?;
        self.logic_set = true;
        self.begun = true;
        Ok(answer)
    }

    fn set_option(&mut self, key: &[u8], value: Shape<'_>) -> Result<Vec<u8>, AllocError>
        ensures ok { IfOk result
            (λ text. IsAnswered (options.set_option key.now (shape_of value.entry) (state_of self.old)) text
            (state_of self.old) (state_of self.new)) }
        ensures err { OnErr result (state_of self.new ≡ state_of self.old) }
        ensures keeps { Keeps self.old self.new }
    {
        match setting_named(key) {
            Some(Setting::PrintSuccess) => self.set_print_success(value),
            Some(Setting::ProduceModels) => self.set_produce_models(value),
            Some(Setting::ProduceAssumptions) => self.set_produce_assumptions(value),
            Some(Setting::GlobalDeclarations) => self.set_global_declarations(value),
            None => self.leave_out(),
        }
    }

    /// Sets `:print-success`. The answer goes by the new value.
    fn set_print_success(&mut self, value: Shape<'_>) -> Result<Vec<u8>, AllocError>
        ensures ok { IfOk result
            (λ text. IsAnswered
            (options.with_truth (shape_of value.entry) (with_print_success (state_of self.old)) (state_of self.old)) text
            (state_of self.old) (state_of self.new)) }
        ensures err { OnErr result (state_of self.new ≡ state_of self.old) }
        ensures keeps { Keeps self.old self.new }
    {
        let Some(printed) = truth_in(value) else {
            return error_line(self.alloc, b"bad option value");
        };
        let answer = success_line(self.alloc, printed)?;
        self.print_success = printed;
        Ok(answer)
    }

    fn set_produce_models(&mut self, value: Shape<'_>) -> Result<Vec<u8>, AllocError>
        ensures ok { IfOk result
            (λ text. IsAnswered
            (options.with_truth (shape_of value.entry) (with_produce_models (state_of self.old)) (state_of self.old)) text
            (state_of self.old) (state_of self.new)) }
        ensures err { OnErr result (state_of self.new ≡ state_of self.old) }
        ensures keeps { Keeps self.old self.new }
    {
        let Some(produced) = truth_in(value) else {
            return error_line(self.alloc, b"bad option value");
        };
        let answer = success_line(self.alloc, self.print_success)?;
        self.produce_models = produced;
        Ok(answer)
    }

    fn set_produce_assumptions(&mut self, value: Shape<'_>) -> Result<Vec<u8>, AllocError>
        ensures ok { IfOk result
            (λ text. IsAnswered
            (options.with_truth (shape_of value.entry) (with_produce_assumptions (state_of self.old))
            (state_of self.old)) text (state_of self.old) (state_of self.new)) }
        ensures err { OnErr result (state_of self.new ≡ state_of self.old) }
        ensures keeps { Keeps self.old self.new }
    {
        let Some(produced) = truth_in(value) else {
            return error_line(self.alloc, b"bad option value");
        };
        let answer = success_line(self.alloc, self.print_success)?;
        self.produce_unsat_assumptions = produced;
        Ok(answer)
    }

    /// Sets `:global-declarations`, as long as there is no name.
    fn set_global_declarations(&mut self, value: Shape<'_>) -> Result<Vec<u8>, AllocError>
        ensures ok { IfOk result
            (λ text. IsAnswered (options.set_global_declarations (shape_of value.entry) (state_of self.old)) text
            (state_of self.old) (state_of self.new)) }
        ensures err { OnErr result (state_of self.new ≡ state_of self.old) }
        ensures keeps { Keeps self.old self.new }
    {
        if self.begun {
            return error_line(self.alloc, b"option set too late");
        }
        let Some(global) = truth_in(value) else {
            return error_line(self.alloc, b"bad option value");
        };
        let answer = success_line(self.alloc, self.print_success)?;
        self.scope.set_global(global);
        Ok(answer)
    }

    /// Succeeds, and changes nothing.
    fn succeed(&self) -> Result<Vec<u8>, AllocError>
        ensures { IfOk result
            (λ text. IsAnswered (steps.succeeds (state_of self.now)) text (state_of self.now) (state_of self.now)) }
    {
        success_line(self.alloc, self.print_success)
    }

    fn declare_constant(&mut self, name: &[u8], sort: Shape<'_>) -> Result<Vec<u8>, AllocError>
        ensures ok { IfOk result
            (λ text. IsAnswered (meaning.declare_constant name.now (shape_of sort.entry) (state_of self.old)) text
            (state_of self.old) (state_of self.new)) }
        ensures err { OnErr result (state_of self.new ≡ state_of self.old) }
        ensures keeps { Keeps self.old self.new }
    {
        match sort_of(sort) {
            Some(sort) => self.declare(name, sort),
            None => self.declare_function(name),
        }
    }

    /// Declares a constant of a sort that is read.
    fn declare(&mut self, name: &[u8], sort: Sort) -> Result<Vec<u8>, AllocError>
        requires { is_brought_sort (sort_in sort) ≡ true }
        ensures ok { IfOk result
            (λ text. IsAnswered (declares name.now (sort_in sort) (state_of self.old)) text (state_of self.old)
            (state_of self.new)) }
        ensures err { OnErr result (state_of self.new ≡ state_of self.old) }
        ensures keeps { Keeps self.old self.new }
    {
        let answer = success_line(self.alloc, self.print_success)?;
        match self.scope.declare(name, sort) {
            Ok(()) => {
                self.begun = true;
                self.mode = Mode::Plain;
                Ok(answer)
            }
            Err(DeclareError::AlreadyDeclared) => {
                error_line_with_name(self.alloc, b"already declared ", name)
            }
            Err(DeclareError::NoMemory) => Err(AllocError),
        }
    }

    /// Marks a name whose declaration or definition is left out.
    pub(crate) fn declare_function(&mut self, name: &[u8]) -> Result<Vec<u8>, AllocError>
        ensures ok { IfOk result
            (λ text. IsAnswered (meaning.declare_function name.now (state_of self.old)) text (state_of self.old)
            (state_of self.new)) }
        ensures err { OnErr result (state_of self.new ≡ state_of self.old) }
        ensures keeps { Keeps self.old self.new }
    {
        let answer = unsupported_line(self.alloc)?;
        match self.scope.mark(name) {
            Ok(()) => {
                self.begun = true;
                self.mode = Mode::Plain;
                Ok(answer)
            }
            Err(DeclareError::AlreadyDeclared) => {
                error_line_with_name(self.alloc, b"already declared ", name)
            }
            Err(DeclareError::NoMemory) => Err(AllocError),
        }
    }

    fn assert(&mut self, form: Shape<'_>) -> Result<Vec<u8>, AllocError>
        ensures ok { IfOk result
            (λ text. IsAnswered (meaning.assert (shape_of form.entry) (state_of self.old)) text (state_of self.old)
            (state_of self.new)) }
        ensures err { OnErr result (state_of self.new ≡ state_of self.old) }
        ensures keeps { Keeps self.old self.new }
    {
        match self.read(&[], form) {
            Ok(term) => self.assert_term(term),
            Err(fault) => self.refuse_term(&fault),
        }
    }

    /// Reads a term over parameters and the names in force. Only the table grows.
    pub(crate) fn read(
        &mut self,
        parameters: &[Parameter<'_>],
        form: Shape<'_>,
    ) -> Result<TermId, ReadFault>
        ensures reads { ReadsAs self.new.table
            (read (bound_in 0 parameters.now ++ names_of (state_of self.old)) (shape_of form.entry)) result }
        ensures stands { IfOk result (λ term. StandsFor self.new (Some term)) }
        ensures state { state_of self.new ≡ state_of self.old }
        ensures keeps { Keeps self.old self.new }
    {
        reading_keeps();
        let _declared = self.scope.declared();
        read_body(self.alloc, &mut self.table, &self.scope, parameters, form)
    }

    fn assert_term(&mut self, term: TermId) -> Result<Vec<u8>, AllocError>
        requires { StandsFor self.old (Some term) }
        ensures ok { IfOk result
            (λ text. IsAnswered (asserts (Ok (term_at self.old.table term)) (state_of self.old)) text (state_of self.old)
            (state_of self.new)) }
        ensures err { OnErr result (state_of self.new ≡ state_of self.old) }
        ensures keeps { Keeps self.old self.new }
    {
        if self.table.sort(term) != Sort::Bool {
            return error_line(self.alloc, b"wrong sort");
        }
        let answer = success_line(self.alloc, self.print_success)?;
        self.add_assertion(Some(term))?;
        Ok(answer)
    }

    /// Answers a form that is no term. One that is left out leaves a mark.
    fn refuse_term(&mut self, fault: &ReadFault) -> Result<Vec<u8>, AllocError>
        ensures ok { IfOk result (λ text. (reading : Result terms.Term Fault) → Faults reading fault.now
            → IsAnswered (asserts reading (state_of self.old)) text (state_of self.old) (state_of self.new)) }
        ensures err { OnErr result (state_of self.new ≡ state_of self.old) }
        ensures keeps { Keeps self.old self.new }
    {
        match fault {
            ReadFault::Unsupported => self.leave_mark(),
            _ => fault_line(self.alloc, fault),
        }
    }

    /// Fails with a message and a name.
    pub(crate) fn fail_with_name(&self, message: &[u8], name: &[u8]) -> Result<Vec<u8>, AllocError>
        ensures { IfOk result
            (λ text. IsAnswered (steps.fails (message.now ++ name_in_text name.now) (state_of self.now)) text
            (state_of self.now) (state_of self.now)) }
    {
        error_line_with_name(self.alloc, message, name)
    }

    /// Puts an assertion behind the others, on the innermost level: a term of sort Bool, or a mark.
    fn add_assertion(&mut self, term: Option<TermId>) -> Result<(), AllocError>
        requires { StandsFor self.old term }
        ensures ok { OnOk result
            (state_of self.new ≡ with_assertion (assertion_of self.old.table term) (state_of self.old)) }
        ensures err { OnErr result (state_of self.new ≡ state_of self.old) }
        ensures keeps { Keeps self.old self.new }
    {
        let level = self.levels.len() as u64;
        self.assertions.push(Assertion { term, level })?;
        self.begun = true;
        self.mode = Mode::Plain;
        Ok(())
    }

    /// Leaves a mark in the place of an assertion.
    fn leave_mark(&mut self) -> Result<Vec<u8>, AllocError>
        ensures ok { IfOk result
            (λ text. IsAnswered (steps.refused_term unsupported (state_of self.old)) text (state_of self.old)
            (state_of self.new)) }
        ensures err { OnErr result (state_of self.new ≡ state_of self.old) }
        ensures keeps { Keeps self.old self.new }
    {
        let answer = unsupported_line(self.alloc)?;
        self.add_assertion(None)?;
        Ok(answer)
    }

    /// Asks for a check without assumptions.
    fn check(&mut self) -> Result<Step, AllocError>
        ensures asked { result ≡ Ok code.Check }
        ensures given { self.new ≡ record self.old { assumptions = [] } }
    {
        self.assumptions.clear();
        Ok(Step::Check)
    }

    /// Asks for a check under assumptions, or says what is wrong with the first one that is none.
    fn check_assuming(&mut self, forms: Shapes<'_>) -> Result<Step, AllocError>
        ensures ok { IfOk result
            (λ step. IsStep (meaning.check_sat_assuming (forms_in forms.entry) (state_of self.old)) step
            (state_of self.old) (state_of self.new)) }
        ensures err { OnErr result (state_of self.new ≡ state_of self.old) }
        ensures keeps { KeepsBy result self.old self.new }
        ensures given { IfOk result
            (λ step. IsUnder (meaning.check_sat_assuming (forms_in forms.entry) (state_of self.old)) step
            self.new.assumptions) }
    {
        let _declared = self.scope.declared();
        let items = assumed_forms(self.alloc, &self.scope, forms)?;
        self.assume(&items)
    }

    /// Asks for a check under these items, where they are assumptions.
    fn assume(&mut self, items: &[Assumed]) -> Result<Step, AllocError>
        requires { list_all (is_live_assumed (live_constants self.old)) (map assumed_in items.now) ≡ true }
        ensures ok { IfOk result
            (λ step. IsStep (assumes items.now (state_of self.old)) step (state_of self.old) (state_of self.new)) }
        ensures err { OnErr result (state_of self.new ≡ state_of self.old) }
        ensures keeps { KeepsBy result self.old self.new }
        ensures given { IfOk result
            (λ step. IsUnder (assumes items.now (state_of self.old)) step self.new.assumptions) }
    {
        match first_unknown(items) {
            Some(name) => answered(self.fail_with_name(b"unknown symbol ", name)),
            None => self.assume_known(items),
        }
    }

    /// Asks for a check under items whose names all stand for something, where they are assumptions.
    fn assume_known(&mut self, items: &[Assumed]) -> Result<Step, AllocError>
        requires { list_all (is_live_assumed (live_constants self.old)) (map assumed_in items.now) ≡ true }
        ensures ok { IfOk result
            (λ step. IsStep (assumes_known items.now (state_of self.old)) step (state_of self.old)
            (state_of self.new)) }
        ensures err { OnErr result (state_of self.new ≡ state_of self.old) }
        ensures keeps { KeepsBy result self.old self.new }
        ensures given { IfOk result
            (λ step. IsUnder (assumes_known items.now (state_of self.old)) step self.new.assumptions) }
    {
        if some_wrong_sort(items) {
            return answered(self.fail(b"wrong sort"));
        }
        let found = all_literals(self.alloc, items)?;
        match found {
            Some(assumptions) => self.check_under(assumptions),
            None => answered(self.fail(b"not a literal")),
        }
    }

    /// Asks for a check under these assumptions.
    fn check_under(&mut self, assumptions: Vec<Assumption>) -> Result<Step, AllocError>
        requires { are_assumed (live_constants self.old) assumptions.items ≡ true }
        ensures asked { result ≡ Ok code.Check }
        ensures given { self.new ≡ record self.old { assumptions = assumptions.items } }
    {
        self.assumptions = assumptions;
        Ok(Step::Check)
    }

    /// Ends the run.
    fn exit(&self) -> Result<Step, AllocError>
        ensures { IfOk result
            (λ step. IsStep (steps.exits (steps.success (state_of self.now))) step (state_of self.now)
            (state_of self.now)) }
    {
        Ok(Step::Exit(success_line(self.alloc, self.print_success)?))
    }

    /// The terms that assertions are numbers of. Takes no memory.
    pub fn table(&self) -> &Table
        ensures { result.now ≡ self.now.table }
    {
        &self.table
    }

    /// The live assertions, in order. Takes no memory.
    pub fn assertions(&self) -> &[Assertion]
        ensures value { result.now ≡ self.now.assertions }
        ensures live { map (assertion_in self.now.table) result.now ≡ live (state_of self.now) }
        ensures numbers { All (HasNumberBelow (length self.now.table)) self.now.assertions }
        ensures declared { all_below (length self.now.scope.sorts) self.now.table ≡ true }
        ensures levels { have_levels self.now.levels self.now.assertions ≡ true }
        ensures named { list_all (speaks_of (live_constants self.now)) (live_terms (state_of self.now)) ≡ true }
    {
        self.assertions.as_slice()
    }

    /// The assumptions of the last check, in the order given: none where it had none, and once levels were left. They
    /// are of live constants of sort Bool. Takes no memory.
    pub fn assumptions(&self) -> &[Assumption]
        ensures value { result.now ≡ self.now.assumptions }
        ensures assumed { AreAssumed self.now }
    {
        let _sorts = self.scope.sorts();
        self.assumptions.as_slice()
    }

    /// The names in force, in the order of declaration: those of the live constants with their serials and sorts. Takes
    /// no memory.
    pub fn scope(&self) -> &Scope
        ensures { result.now ≡ self.now.scope }
    {
        &self.scope
    }

    /// The live constants, with ascending serials. Linear in the live names. `AllocError` only for want of memory.
    pub fn constants(&self) -> Result<Vec<LiveConstant>, AllocError>
        ensures { IfOk result (λ found. map live_in found.items ≡ live_constants self.now) }
    {
        live_constants(self.alloc, &self.scope)
    }

    /// How many constants were declared, those too that went with their levels: all serials are below. The serials of
    /// the live constants ascend, and words and truth values, the one of each at its serial, fit the state. Takes no
    /// memory.
    pub fn declared(&self) -> usize
        ensures value { result ≡ length self.now.scope.sorts }
        ensures serials { ascend_below 0 result (serials_in self.now.scope.names) ≡ true }
        ensures constants { constants_of (state_of self.now) ≡ constants_in (names_in self.now.table self.now.scope) }
        ensures fit { (words : List (List ℕ)) (truths : List Bool) → are_words words ≡ true
            → fits (constants_of (state_of self.now)) (values_at (live_constants self.now) words truths) ≡ true }
    {
        let _sorts = self.scope.sorts();
        self.scope.declared()
    }

    /// The sorts of all constants that were declared, by serial, those too that went with their levels. They are read,
    /// and each live constant has the one that stands at its serial. Takes no memory.
    pub fn sorts(&self) -> &[Sort]
        ensures value { result.now ≡ self.now.scope.sorts }
        ensures state { map sort_in result.now ≡ (state_of self.now).sorts }
        ensures read { list_all (λ sort. is_brought_sort (sort_in sort)) result.now ≡ true }
        ensures live { are_sorted (map sort_in result.now) (live_constants self.now) ≡ true }
    {
        self.scope.sorts()
    }

    /// The words of the last `Sat` verdict, the one of each constant at its serial. Takes constant time and no memory.
    pub fn words(&self) -> &[Word]
        ensures { result.now ≡ self.now.words }
    {
        self.words.as_slice()
    }

    /// Takes the words of the last `Sat` verdict out, the one of each constant at its serial: a check changes those
    /// that are new and gives them back in its verdict, so it copies none. None are left, and no model. Takes no memory.
    pub fn take_words(&mut self) -> Vec<Word>
        ensures words { result.items ≡ self.old.words }
        ensures rest { self.new ≡ without_words self.old }
        ensures state { state_of self.new ≡ record (state_of self.old) { mode = plain } }
    {
        self.mode = Mode::Plain;
        mem::replace(&mut self.words, Vec::new(self.alloc))
    }

    /// Answers a check by what it found, and keeps it for the questions after it. The values of an earlier `Sat` stay
    /// where this verdict has none, and the assumptions of an earlier `Unsat`. Takes no memory.
    pub fn settle(&mut self, verdict: Verdict) -> &'static [u8]
        ensures reply { result.now ≡ verdict_text (verdict_in (live_constants self.old) verdict) }
        ensures state { state_of self.new
            ≡ settled (verdict_in (live_constants self.old) verdict) (state_of self.old) }
        ensures kept { self.new ≡ found verdict self.old }
    {
        match verdict {
            Verdict::Sat { words, truths } => {
                self.words = words;
                self.truths = truths;
                self.mode = Mode::Sat;
                b"sat\n"
            }
            Verdict::Unsat(assumptions) => {
                self.unsat_assumptions = assumptions;
                self.mode = Mode::Unsat;
                b"unsat\n"
            }
            Verdict::Unknown => {
                self.mode = Mode::Unknown;
                b"unknown\n"
            }
            Verdict::Outside => {
                self.mode = Mode::Plain;
                b"unsupported\n"
            }
        }
    }
}

/// The step of a command that is answered.
pub(crate) fn answered(text: Result<Vec<u8>, AllocError>) -> Result<Step, AllocError>
    ensures { result ≡ answered_in text }
{
    match text {
        Ok(text) => Ok(Step::Answer(text)),
        Err(error) => Err(error),
    }
}
