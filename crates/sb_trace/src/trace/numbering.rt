//! The lines that define a regex and its parts.

ghost use Rattle.std.specs.Prelude.{◌≡◌, ◌<◌, ◌≤◌, ◌++◌, ◌∷◌, ℕ, [], true, None, Some, List, length, slice_get, All, IfOk, OnOk};
ghost use Rattle.std.specs.List.{list_all};
ghost use Rattle.sb_lang.specs.Regex.{Regex};
ghost use Rattle.sb_lang.specs.NormalForm.{is_normal};
ghost use Rattle.sb_regex.specs.Numbered.{AreDistinct};
ghost use Rattle.sb_regex.specs.Nodes.{node_parts};
ghost use Rattle.sb_deriv.specs.Faithful.{Memo};
ghost use Rattle.sb_graph.specs.Findings.{is_marked};
ghost use Rattle.sb_rulebook.specs.Kept.{AllKept, Asked};
ghost use Rattle.sb_trace.specs.Putting.{CountsTapeFault};
ghost use Rattle.sb_trace.specs.Tracking.{Tracks, TracesUncounted, TracesRegexes, AddsLacking, StaysNumbered, number_in};
ghost use Rattle.sb_trace.specs.Defining.{IsNumbered, IsNodeAt};
ghost use Rattle.sb_trace.specs.Waiting.{stack_of, IsStack, Settles};

use super::{Trace, add, put_line};
use crate::frame::{Frame, wait, wait_for_parts};
use crate::node::{has_number, number_of, proof_node};
use sb_lang::order::order_tells_apart;
use sb_proof::{Line, Tape, TapeFault};
use sb_regex::{Arena, Node, RegexId};
use std::alloc::AllocError;

impl Trace {
    /// The number of a regex in the proof. The lines that define it and its parts are put where they are lacking, each
    /// part in front of what it is a part of, and no others. Linear in the parts of the regexes that were lacking. After
    /// an error the tape may have a line that the trace does not know, so nothing more may be put.
    pub fn number<L: Tape>(
        &mut self,
        arena: &Arena,
        regex: RegexId,
        tape: &mut L,
    ) -> Result<u64, TapeFault>
        requires { regex < length arena.now }
        ensures number { IfOk result (λ n. slice_get self.new.order n ≡ Some regex) }
        ensures first { IfOk result (λ n. number_in self.new.order regex ≡ Some n) }
        ensures expanded_stay { (n : ℕ) → is_marked self.new.expanded n ≡ is_marked self.old.expanded n }
        ensures dead_stay { (n : ℕ) → is_marked self.new.dead n ≡ is_marked self.old.dead n }
        ensures puts { OnOk result ((asked : Asked) (memo : Memo) (before : AllKept)
            → Tracks arena.now memo self.old before
            → TracesUncounted asked before arena.now memo self.new (L.Tape.told tape.old) (L.Tape.told tape.new)) }
        ensures defines { OnOk result ((asked : Asked) (memo : Memo) (before : AllKept)
            → Tracks arena.now memo self.old before
            → TracesRegexes asked before arena.now memo self.new (L.Tape.told tape.old) (L.Tape.told tape.new)) }
        ensures only { OnOk result
            (AddsLacking arena.now self.old.order regex self.old.order self.new.order) }
        ensures stays { StaysNumbered self.old self.new }
        ensures counts { CountsTapeFault result (L.Tape.faults tape.old) (L.Tape.faults tape.new) }
    {
        if let Some(number) = self.order.get_index_of(&regex) {
            return Ok(number as u64);
        }
        let mut stack = Vec::new(self.alloc);
        wait(&mut stack, regex, false)?;
        while let Some(frame) = stack.pop() {
            self.settle(arena, frame, &mut stack, tape)?;
        }
        Ok(number_of(&self.order, regex))
    }

    /// Defines the regex on top of the stack, where its parts have numbers, or has it wait for them.
    fn settle<L: Tape>(
        &mut self,
        arena: &Arena,
        frame: Frame,
        stack: &mut Vec<Frame>,
        tape: &mut L,
    ) -> Result<(), TapeFault>
        requires { IsStack arena.now self.old.order (frame ∷ stack_of stack.old.items) }
        ensures settles { OnOk result (Settles arena.now self.old.order self.new.order
            (frame ∷ stack_of stack.old.items) (stack_of stack.new.items)) }
        ensures expanded_stay { (n : ℕ) → is_marked self.new.expanded n ≡ is_marked self.old.expanded n }
        ensures dead_stay { (n : ℕ) → is_marked self.new.dead n ≡ is_marked self.old.dead n }
        ensures puts { OnOk result ((asked : Asked) (memo : Memo) (before : AllKept)
            → Tracks arena.now memo self.old before
            → TracesRegexes asked before arena.now memo self.new (L.Tape.told tape.old) (L.Tape.told tape.new)) }
        ensures stays { StaysNumbered self.old self.new }
        ensures counts { CountsTapeFault result (L.Tape.faults tape.old) (L.Tape.faults tape.new) }
    {
        arena.normal_regexes_each_once();
        if has_number(&self.order, frame.regex) {
            return Ok(());
        }
        let node = arena.node(frame.regex);
        if frame.entered {
            return self.define(node, frame.regex, tape);
        }
        wait(stack, frame.regex, true)?;
        wait_for_parts(stack, &self.order, node)?;
        Ok(())
    }

    /// Puts the line of a regex whose parts have numbers.
    fn define<L: Tape>(
        &mut self,
        node: &Node,
        regex: RegexId,
        tape: &mut L,
    ) -> Result<(), TapeFault>
        requires parts { All (IsNumbered self.old.order) (node_parts node.now) }
        requires new { number_in self.old.order regex ≡ None }
        ensures puts { OnOk result ((asked : Asked) (rs : List Regex) (memo : Memo) (before : AllKept)
            → AreDistinct rs → list_all is_normal rs ≡ true → IsNodeAt rs regex node.now
            → Tracks rs memo self.old before
            → TracesRegexes asked before rs memo self.new (L.Tape.told tape.old) (L.Tape.told tape.new)) }
        ensures added { OnOk result (self.new.order ≡ self.old.order ++ regex ∷ []) }
        ensures expanded_stay { (n : ℕ) → is_marked self.new.expanded n ≡ is_marked self.old.expanded n }
        ensures dead_stay { (n : ℕ) → is_marked self.new.dead n ≡ is_marked self.old.dead n }
        ensures stays { StaysNumbered self.old self.new }
        ensures counts { CountsTapeFault result (L.Tape.faults tape.old) (L.Tape.faults tape.new) }
    {
        order_tells_apart();
        let count = self.order.len();
        make_room(&mut self.expanded, count)?;
        make_room(&mut self.dead, count)?;
        let node = proof_node(self.alloc, &self.order, node)?;
        put_line(Line::Regex(node), tape)?;
        add(&mut self.order, regex)?;
        Ok(())
    }
}

/// Makes room for one mark more than there are regexes.
fn make_room(marks: &mut Vec<bool>, count: usize) -> Result<(), AllocError>
    requires { count ≤ length marks.old.items }
    ensures room { OnOk result (count < length marks.new.items) }
    ensures long { length marks.old.items ≤ length marks.new.items }
    ensures stay { (n : ℕ) → is_marked marks.new.items n ≡ is_marked marks.old.items n }
{
    if marks.len() > count {
        return Ok(());
    }
    marks.push(false)?;
    Ok(())
}
