//! Definitions of functions (SMT-LIB 2.6, section 4.2.3).

ghost use Rattle.std.specs.Prelude.{◌≡◌, ◌++◌, List, false, map, if◌then◌else◌, Some, None, Result, Ok, IfOk, OnErr, option_copied};
ghost use Rattle.sb_reader.specs.Forms.{shape_of};
ghost use Rattle.sb_meaning.specs.Terms as terms;
ghost use Rattle.sb_script.specs.Commands.{parameters_of};
ghost use Rattle.sb_script.specs.Faults.{Fault};
ghost use Rattle.sb_script.specs.Reading.{read};
ghost use Rattle.sb_script.specs.Replies as meaning;
ghost use Rattle.sb_script.specs.State.{names_of, marked};
ghost use Rattle.sb_script.specs.Steps.{is_unsupported};
ghost use Rattle.sb_script.specs.Symbols.{is_taken};
ghost use Rattle.sb_sorts.specs.Bodies.{bound_in};
ghost use Rattle.sb_sorts.specs.Reads.{Faults};
ghost use Rattle.sb_term.specs.Numbered.{term_at};
ghost use Rattle.sb_term.specs.Symbols.{sort_in};
ghost use Rattle.sb_stack.specs.Commands.{forms_in};
ghost use Rattle.sb_stack.specs.Defining.{defines_as, defines_term, name_error, sorts_in};
ghost use Rattle.sb_stack.specs.Keeping.{Keeps, StandsFor};
ghost use Rattle.sb_stack.specs.Refusing.{is_told_first};
ghost use Rattle.sb_stack.specs.Stacked.{state_of};
ghost use Rattle.sb_stack.specs.Taking.{IsAnswered};

use crate::option::sort_in_definition;
use crate::parameter::{first_again, parameters_in, sorts_of};
use crate::reply::{error_line, error_line_with_name, fault_line, success_line};
use crate::stack::{Mode, Stack};
use sb_reader::{Shape, Shapes};
use sb_sorts::{DeclareError, Parameter, ReadFault};
use sb_term::{Sort, TermId};
use std::alloc::AllocError;

#[tactic(auto, using(crate::proofs::Changes::keeps_parts, crate::proofs::Changes::keeps_more))]
impl Stack {
    /// Defines a function over parameters. Some faults of the body are told before a name that can't be declared, and the
    /// others behind it, so the body is read in any case. Where a sort is left out it is not read, and the name is marked.
    pub(crate) fn define_function(
        &mut self,
        name: &[u8],
        parameters: Shapes<'_>,
        sort: Shape<'_>,
        body: Shape<'_>,
    ) -> Result<Vec<u8>, AllocError>
        ensures ok { IfOk result
            (λ text. IsAnswered
            (meaning.define_function name.now (parameters_of (forms_in parameters.entry)) (shape_of sort.entry)
            (shape_of body.entry) (state_of self.old)) text (state_of self.old) (state_of self.new)) }
        ensures err { OnErr result (state_of self.new ≡ state_of self.old) }
        ensures keeps { Keeps self.old self.new }
    {
        let again = first_again(self.alloc, parameters)?;
        let refused = self.refused_name(name, again);
        let Some(sort) = sort_in_definition(sort) else {
            return self.leave_definition_out(name, refused);
        };
        match parameters_in(self.alloc, parameters)? {
            Some(parameters) => self.define(name, refused, &parameters, sort, body),
            None => self.leave_definition_out(name, refused),
        }
    }

    /// The name of a definition that can't be declared: the function's where it is taken, or else the parameter's that
    /// stands again.
    fn refused_name<'a>(&self, name: &'a [u8], again: Option<&'a [u8]>) -> Option<&'a [u8]>
        ensures { option_copied result ≡ (if is_taken (names_of (state_of self.now)) name.now then Some name.now
            else option_copied again.entry) }
    {
        if self.scope.is_taken(name) {
            Some(name)
        } else {
            again
        }
    }

    /// Leaves a definition out, and marks its name, which is free where none is refused.
    fn leave_definition_out(
        &mut self,
        name: &[u8],
        refused: Option<&[u8]>,
    ) -> Result<Vec<u8>, AllocError>
        requires { option_copied refused ≡ None → is_taken (names_of (state_of self.old)) name.now ≡ false }
        ensures ok { IfOk result
            (λ text. IsAnswered
            (meaning.unless_error (name_error (option_copied refused.entry))
            (is_unsupported (marked name.now (state_of self.old))) (state_of self.old)) text (state_of self.old)
            (state_of self.new)) }
        ensures err { OnErr result (state_of self.new ≡ state_of self.old) }
        ensures keeps { Keeps self.old self.new }
    {
        match refused {
            Some(refused) => self.fail_with_name(b"already declared ", refused),
            None => self.declare_function(name),
        }
    }

    /// Defines a function whose sorts are all read.
    fn define(
        &mut self,
        name: &[u8],
        refused: Option<&[u8]>,
        parameters: &[Parameter<'_>],
        sort: Sort,
        body: Shape<'_>,
    ) -> Result<Vec<u8>, AllocError>
        requires { option_copied refused ≡ None → is_taken (names_of (state_of self.old)) name.now ≡ false }
        ensures ok { IfOk result
            (λ text. IsAnswered
            (defines_as (option_copied refused.entry) (sort_in sort) name.now (sorts_in parameters.now)
            (read (bound_in 0 parameters.now ++ names_of (state_of self.old)) (shape_of body.entry)) (state_of self.old))
            text (state_of self.old) (state_of self.new)) }
        ensures err { OnErr result (state_of self.new ≡ state_of self.old) }
        ensures keeps { Keeps self.old self.new }
    {
        match self.read(parameters, body) {
            Ok(term) => self.define_term(name, refused, parameters, sort, term),
            Err(fault) => self.refuse_body(name, refused, &fault),
        }
    }

    /// Defines a function by the term of its body, which is to be of this sort.
    fn define_term(
        &mut self,
        name: &[u8],
        refused: Option<&[u8]>,
        parameters: &[Parameter<'_>],
        sort: Sort,
        body: TermId,
    ) -> Result<Vec<u8>, AllocError>
        requires free { option_copied refused ≡ None → is_taken (names_of (state_of self.old)) name.now ≡ false }
        requires stands { StandsFor self.old (Some body) }
        ensures ok { IfOk result
            (λ text. IsAnswered
            (defines_as (option_copied refused.entry) (sort_in sort) name.now (sorts_in parameters.now)
            (Ok (term_at self.old.table body)) (state_of self.old)) text (state_of self.old) (state_of self.new)) }
        ensures err { OnErr result (state_of self.new ≡ state_of self.old) }
        ensures keeps { Keeps self.old self.new }
    {
        if let Some(refused) = refused {
            return self.fail_with_name(b"already declared ", refused);
        }
        if self.table.sort(body) != sort {
            return error_line(self.alloc, b"wrong sort");
        }
        self.put_definition(name, parameters, body)
    }

    /// Puts a definition behind the names in force.
    fn put_definition(
        &mut self,
        name: &[u8],
        parameters: &[Parameter<'_>],
        body: TermId,
    ) -> Result<Vec<u8>, AllocError>
        requires { StandsFor self.old (Some body) }
        ensures ok { IfOk result
            (λ text. IsAnswered
            (defines_term name.now (sorts_in parameters.now) (term_at self.old.table body) (state_of self.old)) text
            (state_of self.old) (state_of self.new)) }
        ensures err { OnErr result (state_of self.new ≡ state_of self.old) }
        ensures keeps { Keeps self.old self.new }
    {
        let sorts = sorts_of(self.alloc, parameters)?;
        let answer = success_line(self.alloc, self.print_success)?;
        match self.scope.define(name, &sorts, body) {
            Ok(()) => {
                self.begun = true;
                self.mode = Mode::Plain;
                Ok(answer)
            }
            Err(DeclareError::AlreadyDeclared) => {
                error_line_with_name(self.alloc, b"already declared ", name)
            }
            Err(DeclareError::NoMemory) => Err(AllocError),
        }
    }

    /// Answers a definition whose body is no term. One that is left out marks the name.
    fn refuse_body(
        &mut self,
        name: &[u8],
        refused: Option<&[u8]>,
        fault: &ReadFault,
    ) -> Result<Vec<u8>, AllocError>
        requires { option_copied refused ≡ None → is_taken (names_of (state_of self.old)) name.now ≡ false }
        ensures ok { IfOk result
            (λ text. (made : terms.Sort) (sorts : List terms.Sort) (reading : Result terms.Term Fault)
            → Faults reading fault.now
            → IsAnswered (defines_as (option_copied refused.entry) made name.now sorts reading (state_of self.old)) text
            (state_of self.old) (state_of self.new)) }
        ensures err { OnErr result (state_of self.new ≡ state_of self.old) }
        ensures keeps { Keeps self.old self.new }
    {
        if is_told_first(fault) {
            return fault_line(self.alloc, fault);
        }
        match refused {
            Some(refused) => self.fail_with_name(b"already declared ", refused),
            None => self.refuse_new(name, fault),
        }
    }

    /// Answers a definition of a free name whose body is no term.
    fn refuse_new(&mut self, name: &[u8], fault: &ReadFault) -> Result<Vec<u8>, AllocError>
        requires { is_taken (names_of (state_of self.old)) name.now ≡ false }
        ensures ok { IfOk result
            (λ text. (made : terms.Sort) (sorts : List terms.Sort) (reading : Result terms.Term Fault)
            → Faults reading fault.now
            → IsAnswered (defines_as None made name.now sorts reading (state_of self.old)) text (state_of self.old)
            (state_of self.new)) }
        ensures err { OnErr result (state_of self.new ≡ state_of self.old) }
        ensures keeps { Keeps self.old self.new }
    {
        match fault {
            ReadFault::Unsupported => self.declare_function(name),
            _ => fault_line(self.alloc, fault),
        }
    }
}

/// Whether the fault of a body is told before a name that can't be declared. Want of memory is too, since nothing is known
/// of the body then.
fn is_told_first(fault: &ReadFault) -> bool
    ensures { result ≡ is_told_first fault.now }
{
    matches!(
        fault,
        ReadFault::BadLiteral
            | ReadFault::Malformed
            | ReadFault::NumeralTooLarge
            | ReadFault::NoMemory
    )
}
