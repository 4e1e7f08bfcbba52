//! Lines that define, expand and bury regexes.

ghost use Rattle.std.specs.Prelude.{◌≡◌, ◌<◌, map, length, IfOk, OnOk};
ghost use Rattle.sb_rulebook.specs.Kept.{AllKept, Asked, counting, with_expansion};
ghost use Rattle.sb_rulebook.specs.Lines.{regex_line, expansion_line, dead_line};
ghost use Rattle.sb_proof.specs.Lines.{node_in, class_in};
ghost use Rattle.sb_rules.specs.Kept.{IsWhole, KeepsTerms, kept_in};
ghost use Rattle.sb_rules.specs.Judged.{Judges, Meets};
ghost use Rattle.sb_rules.specs.Expanding.{JudgesExpansion};

use crate::branches::is_expansion;
use crate::fault::{Fault, Refusal};
use crate::kept::{Kept, counted};
use sb_plain::right_stays;
use sb_proof::{Class, Node};
use std::alloc::{AllocError, Global};

impl Kept {
    /// Judges the line that defines the next regex, and keeps it where it follows.
    pub(crate) fn define(&mut self, node: &Node) -> Result<(), Fault>
        requires { IsWhole self.old }
        ensures judges { (asked : Asked) → Judges result asked self.old self.new (regex_line (node_in node.now)) }
        ensures whole { IsWhole self.new }
        ensures terms { KeepsTerms self.old self.new }
    {
        right_stays();
        self.regexes.define(&mut self.arena, node)
    }

    /// Judges the line that says that regexes have no word, and keeps it where it follows.
    pub(crate) fn bury(&mut self, numbers: &[u64]) -> Result<(), Fault>
        requires { IsWhole self.old }
        ensures judges { (asked : Asked) → Judges result asked self.old self.new (dead_line numbers.now) }
        ensures whole { IsWhole self.new }
        ensures terms { KeepsTerms self.old self.new }
    {
        self.regexes.bury(&self.arena, numbers)
    }

    /// Judges the line that expands a regex, and keeps it where it follows.
    pub(crate) fn expand(&mut self, limit: u64, number: u64, classes: &[Class]) -> Result<(), Fault>
        requires { IsWhole self.old }
        ensures judges { (asked : Asked) → asked.limit ≡ limit
            → Judges result asked self.old self.new (expansion_line number (map class_in classes.now)) }
        ensures whole { IsWhole self.new }
        ensures terms { KeepsTerms self.old self.new }
    {
        let targets = numbers_of(self.alloc, classes)?;
        self.judge_expansion(number, classes, &targets)?;
        self.keep_expansion(limit, number, targets)
    }

    /// Whether the classes are the expansion of a regex that is not expanded, and why not.
    fn judge_expansion(
        &mut self,
        number: u64,
        classes: &[Class],
        targets: &[u64],
    ) -> Result<(), Fault>
        requires whole { IsWhole self.old }
        requires targets { targets.now ≡ map (λ k. k.target) classes.now }
        ensures judges { (asked : Asked) → JudgesExpansion result asked self.old self.new number classes.now }
        ensures known { OnOk result (number < length self.new.regexes.order) }
        ensures whole { IsWhole self.new }
        ensures terms { KeepsTerms self.old self.new }
    {
        right_stays();
        let Some(regex) = self.regexes.regex(number) else {
            return Err(Fault::Refused(Refusal::UnknownId));
        };
        let Some(ids) = self.regexes.regexes(targets)? else {
            return Err(Fault::Refused(Refusal::UnknownId));
        };
        if self.regexes.is_expanded(number) {
            return Err(Fault::Refused(Refusal::Repeated));
        }
        if !is_expansion(
            self.alloc,
            &mut self.arena,
            &mut self.plain,
            regex,
            classes,
            &ids,
        )? {
            return Err(Fault::Refused(Refusal::WrongTarget));
        }
        Ok(())
    }

    /// Keeps an expansion by the numbers of its targets, if one more line may be counted.
    fn keep_expansion(&mut self, limit: u64, number: u64, targets: Vec<u64>) -> Result<(), Fault>
        requires whole { IsWhole self.old }
        requires number { number < length self.old.regexes.order }
        ensures counts { (asked : Asked) (others : AllKept) → asked.limit ≡ limit
            → Meets result (counting asked (with_expansion number targets.items (kept_in self.old others)))
            self.old self.new others }
        ensures whole { IsWhole self.new }
        ensures terms { KeepsTerms self.old self.new }
    {
        let counted = counted(self.counted, limit)?;
        self.regexes.expand(number, targets);
        self.counted = counted;
        Ok(())
    }
}

/// The numbers of the classes' targets.
fn numbers_of(alloc: Global, classes: &[Class]) -> Result<Vec<u64>, AllocError>
    ensures { IfOk result (λ numbers. numbers.items ≡ map (λ k. k.target) classes.now) }
{
    let mut numbers = Vec::with_capacity(alloc, classes.len())?;
    for class in classes {
        numbers.push(class.target)?;
    }
    Ok(numbers)
}
