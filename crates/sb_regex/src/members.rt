//! The members of unions and intersections.

ghost use Rattle.std.specs.Prelude.{◌≡◌, ◌∷◌, ◌++◌, [], ℕ, length, ◌<◌, IfOk, OnOk, MatchOption, true, not, nat_eq, filter};
ghost use Rattle.std.specs.List.{list_any, list_all, flat_map};
ghost use Rattle.sb_class.specs.Ranges.{in_ranges, IsCanonical};
ghost use Rattle.sb_lang.specs.Constructors.{alternatives, conjuncts, ranges_of, union_of, inter_of};
ghost use Rattle.sb_regex.specs.Numbered.{regex_at, regexes_at, AllNumbers};
ghost use Rattle.sb_regex.specs.Steps.{without_sets, in_some, in_all};

use crate::arena::Arena;
use crate::node::{Node, RegexId};
use sb_class::Class;
use std::alloc::{AllocError, Global};
use std::collections::VecDeque;

impl Arena {
    /// The members of a union of these. Linear in their number.
    pub(crate) fn alternatives(&self, ids: &[RegexId]) -> Result<Vec<RegexId>, AllocError>
        requires { AllNumbers self.now ids.now }
        ensures value { IfOk result
            (λ members. regexes_at self.now members.items ≡ flat_map alternatives (regexes_at self.now ids.now)) }
        ensures numbers { IfOk result (λ members. AllNumbers self.now members.items) }
    {
        let mut members = Vec::new(self.allocator());
        for id in ids {
            match self.node(*id) {
                Node::Alt(parts) => members.extend_from_slice(parts.as_slice())?,
                _ => members.push(*id)?,
            }
        }
        Ok(members)
    }

    /// The members of an intersection of these. Linear in their number.
    pub(crate) fn conjuncts(&self, ids: &[RegexId]) -> Result<Vec<RegexId>, AllocError>
        requires { AllNumbers self.now ids.now }
        ensures value { IfOk result
            (λ members. regexes_at self.now members.items ≡ flat_map conjuncts (regexes_at self.now ids.now)) }
        ensures numbers { IfOk result (λ members. AllNumbers self.now members.items) }
    {
        let mut members = Vec::new(self.allocator());
        for id in ids {
            match self.node(*id) {
                Node::And(parts) => members.extend_from_slice(parts.as_slice())?,
                _ => members.push(*id)?,
            }
        }
        Ok(members)
    }

    /// The sets among the members. Linear in the number of members and of ranges.
    pub(crate) fn sets(&self, members: &[RegexId]) -> Result<VecDeque<Class>, AllocError>
        requires { AllNumbers self.now members.now }
        ensures { IfOk result (λ classes. classes.items ≡ flat_map ranges_of (regexes_at self.now members.now)) }
    {
        self.normal_regexes_each_once();
        let mut classes = VecDeque::new(self.allocator());
        for id in members {
            if let Node::Set(ranges) = self.node(*id) {
                let class = class_of(self.allocator(), ranges.as_slice())?;
                classes.push_back(class)?;
            }
        }
        Ok(classes)
    }

    /// Puts the members that are no sets behind the others. Linear.
    pub(crate) fn push_others(
        &self,
        members: &[RegexId],
        all: &mut Vec<RegexId>,
    ) -> Result<(), AllocError>
        requires { AllNumbers self.now members.now }
        ensures value { OnOk result
            (regexes_at self.now all.new.items ≡ regexes_at self.now all.old.items
            ++ without_sets (regexes_at self.now members.now)) }
        ensures numbers { OnOk result (AllNumbers self.now all.old.items → AllNumbers self.now all.new.items) }
    {
        for id in members {
            match self.node(*id) {
                Node::Set(_) => {}
                _ => all.push(*id)?,
            }
        }
        Ok(())
    }
}

/// The set of ranges that are known to be canonical. Linear.
fn class_of(alloc: Global, ranges: &[(u32, u32)]) -> Result<Class, AllocError>
    requires { IsCanonical ranges.now }
    ensures { IfOk result (λ class. class ≡ ranges.now) }
{
    match Class::from_ranges(alloc, ranges)? {
        Some(class) => Ok(class),
        None => unreachable!(),
    }
}

/// The numbers that are not this one.
pub(crate) fn others(mut ids: Vec<RegexId>, id: RegexId) -> Vec<RegexId>
    ensures { result.items ≡ filter (λ other. not (nat_eq other id)) ids.items }
{
    ids.retain(|other| *other != id);
    ids
}

/// The union of the sets, in rounds of pairs: n log n in the number of their ranges.
pub(crate) fn unite(mut classes: VecDeque<Class>) -> Result<Class, AllocError>
    ensures { IfOk result (λ class. (c : ℕ) → in_ranges class c ≡ in_some classes.items c) }
{
    let alloc = *classes.allocator();
    while let Some(left) = classes.pop_front() {
        match classes.pop_front() {
            None => return Ok(left),
            Some(right) => classes.push_back(left.union(&right)?)?,
        }
    }
    Ok(Class::empty(alloc))
}

/// The intersection of the sets, in rounds of pairs.
pub(crate) fn meet(mut classes: VecDeque<Class>) -> Result<Option<Class>, AllocError>
    ensures { IfOk result
        (λ found. MatchOption found (classes.items ≡ []) (λ class. (0 < length classes.items)
        × ((c : ℕ) → in_ranges class c ≡ in_all classes.items c))) }
{
    while let Some(left) = classes.pop_front() {
        match classes.pop_front() {
            None => return Ok(Some(left)),
            Some(right) => classes.push_back(left.inter(&right)?)?,
        }
    }
    Ok(None)
}
