//! Members in the order of their regexes. What a long comparison finds is kept, for each pair of parts on its way.

ghost use Rattle.std.specs.Prelude.{◌≡◌, ◌∷◌, ◌++◌, [], ◌<◌, ◌≤◌, length, take, reverse, IfOk, OnOk};
ghost use Rattle.std.specs.List.Sorted.{IsStrictlySortedBy};
ghost use Rattle.sb_lang.specs.Order.{regex_cmp};
ghost use Rattle.sb_lang.specs.Constructors.{sorted};
ghost use Rattle.sb_lang.specs.FoldLaws.{SameMembers};
ghost use Rattle.sb_regex.specs.Numbered.{regex_at, regexes_at, AllNumbers};
ghost use Rattle.sb_regex.specs.Steps.{AreAlike, AreSteps};

use crate::arena::Arena;
use crate::compare::Difference;
use crate::node::RegexId;
use indexmap::IndexSet;
use sb_lang::order::{order_is_total, order_tells_apart};
use sb_lang::sorted::sorted_is_the_only;
use std::alloc::{AllocError, Global};
use std::cmp::Ordering;

/// So few numbers are merged with the doubles among them.
const FEW: usize = 8;

/// An odd number whose products with numbers in a row have high bits without a pattern.
const SPREAD: u64 = 0x9e37_79b9_7f4a_7c15;

impl Arena {
    /// The numbers in the order of their regexes, each once. Doubles go first; then it takes n log n comparisons, and n
    /// where the rest is in order, or in the reverse of it.
    pub(crate) fn in_order(&mut self, ids: &[RegexId]) -> Result<Vec<RegexId>, AllocError>
        requires { AllNumbers self.old ids.now }
        ensures value { IfOk result
            (λ rising. regexes_at self.new rising.items ≡ sorted (regexes_at self.old ids.now)) }
        ensures numbers { IfOk result (λ rising. AllNumbers self.new rising.items) }
        ensures same { self.new ≡ self.old }
    {
        sorted_is_the_only();
        if ids.len() <= FEW {
            return self.sort(ids);
        }
        let once = self.once(ids)?;
        self.sort(&once)
    }

    /// The numbers, each where it first stands. Linear.
    fn once(&self, ids: &[RegexId]) -> Result<Vec<RegexId>, AllocError>
        requires { AllNumbers self.now ids.now }
        ensures members { IfOk result
            (λ all. SameMembers (regexes_at self.now all.items) (regexes_at self.now ids.now)) }
        ensures numbers { IfOk result (λ all. AllNumbers self.now all.items) }
    {
        order_tells_apart();
        let mut seen = IndexSet::new(self.allocator());
        for id in ids {
            seen.insert(*id)?;
        }
        Vec::from_slice(self.allocator(), seen.as_slice())
    }

    /// The numbers in the order of their regexes, each once.
    fn sort(&mut self, ids: &[RegexId]) -> Result<Vec<RegexId>, AllocError>
        requires { AllNumbers self.old ids.now }
        ensures rising { IfOk result
            (λ rising. IsStrictlySortedBy regex_cmp (regexes_at self.old rising.items)) }
        ensures members { IfOk result
            (λ rising. SameMembers (regexes_at self.old rising.items) (regexes_at self.old ids.now)) }
        ensures numbers { IfOk result (λ rising. AllNumbers self.old rising.items) }
        ensures same { self.new ≡ self.old }
    {
        order_is_total();
        let run = self.run(ids, Ordering::Less)?;
        if run == ids.len() {
            return Vec::from_slice(self.allocator(), ids);
        }
        let half = ids.len() / 2;
        if half <= run {
            let right = self.sort(&ids[run..])?;
            return self.merge(&ids[..run], &right);
        }
        let falling = self.run(ids, Ordering::Greater)?;
        if half <= falling {
            let left = turned(self.allocator(), &ids[..falling])?;
            let right = self.sort(&ids[falling..])?;
            return self.merge(&left, &right);
        }
        let left = self.sort(&ids[..half])?;
        let right = self.sort(&ids[half..])?;
        self.merge(&left, &right)
    }

    /// How many of the numbers in front rise one by one, or fall so.
    fn run(&mut self, ids: &[RegexId], step: Ordering) -> Result<usize, AllocError>
        requires { AllNumbers self.old ids.now }
        ensures within { IfOk result (λ n. n ≤ length ids.now) }
        ensures some { IfOk result (λ n. 0 < length ids.now → 0 < n) }
        ensures steps { IfOk result (λ n. AreSteps self.old step (take n ids.now)) }
        ensures same { self.new ≡ self.old }
    {
        if ids.is_empty() {
            return Ok(0);
        }
        let mut n = 1;
        while n < ids.len() {
            if self.place(ids[n - 1], ids[n])? != step {
                return Ok(n);
            }
            n += 1;
        }
        Ok(n)
    }

    /// The numbers of two lists in order, in order.
    fn merge(&mut self, left: &[RegexId], right: &[RegexId]) -> Result<Vec<RegexId>, AllocError>
        requires left { AllNumbers self.old left.now }
        requires right { AllNumbers self.old right.now }
        requires left_rises { IsStrictlySortedBy regex_cmp (regexes_at self.old left.now) }
        requires right_rises { IsStrictlySortedBy regex_cmp (regexes_at self.old right.now) }
        ensures rising { IfOk result
            (λ rising. IsStrictlySortedBy regex_cmp (regexes_at self.old rising.items)) }
        ensures members { IfOk result (λ rising. SameMembers (regexes_at self.old rising.items)
            (regexes_at self.old left.now ++ regexes_at self.old right.now)) }
        ensures numbers { IfOk result (λ rising. AllNumbers self.old rising.items) }
        ensures same { self.new ≡ self.old }
    {
        order_is_total();
        order_tells_apart();
        let mut all = Vec::new(self.allocator());
        let mut i = 0;
        let mut j = 0;
        while i < left.len() && j < right.len() {
            let x = left[i];
            let y = right[j];
            match self.place(x, y)? {
                Ordering::Less => {
                    all.push(x)?;
                    i += 1;
                }
                Ordering::Equal => i += 1,
                Ordering::Greater => {
                    all.push(y)?;
                    j += 1;
                }
            }
        }
        all.extend_from_slice(&left[i..])?;
        all.extend_from_slice(&right[j..])?;
        Ok(all)
    }

    /// The place of one regex before another, as `compare` gives it. Where the comparison comes past milestones, what was
    /// kept of an earlier one at the first of these decides; and it is kept at each that it passed.
    fn place(&mut self, a: RegexId, b: RegexId) -> Result<Ordering, AllocError>
        requires left { a < length self.old }
        requires right { b < length self.old }
        ensures value { IfOk result (λ order. order ≡ regex_cmp (regex_at self.old a) (regex_at self.old b)) }
        ensures same { self.new ≡ self.old }
    {
        let mut path = Vec::new(self.allocator());
        let order = self.trace(a, b, &mut path)?;
        for pair in &path {
            self.keep_order(pair.0, pair.1, order)?;
        }
        Ok(order)
    }

    /// A comparison up to what was kept of an earlier one, and the pairs on the way that are to be kept.
    fn trace(
        &self,
        a: RegexId,
        b: RegexId,
        path: &mut Vec<(RegexId, RegexId)>,
    ) -> Result<Ordering, AllocError>
        requires left { a < length self.now }
        requires right { b < length self.now }
        requires none_yet { path.old.items ≡ [] }
        ensures value { IfOk result (λ order. order ≡ regex_cmp (regex_at self.now a) (regex_at self.now b)) }
        ensures path { OnOk result (AreAlike self.now a b path.new.items) }
    {
        order_tells_apart();
        let mut left = a;
        let mut right = b;
        while left != right {
            if is_milestone(left) {
                if let Some(order) = self.known_order(left, right) {
                    return Ok(order);
                }
                path.push((left, right))?;
            }
            match self.difference(left, right) {
                Difference::Decided(order) => return Ok(order),
                Difference::Parts(x, y) => {
                    left = x;
                    right = y;
                }
            }
        }
        Ok(Ordering::Equal)
    }
}

/// The numbers from the last one to the first.
fn turned(alloc: Global, ids: &[RegexId]) -> Result<Vec<RegexId>, AllocError>
    ensures { IfOk result (λ all. all.items ≡ reverse ids.now) }
{
    let mut all = Vec::from_slice(alloc, ids)?;
    all.reverse();
    Ok(all)
}

/// Whether what was found is kept at this number: so it is at one of 16, with no pattern, so that a comparison that comes
/// onto the way of an earlier one is soon at such a number.
fn is_milestone(id: RegexId) -> bool {
    (id.number() as u64).wrapping_mul(SPREAD) >> 60 == 0
}
