//! Unions and intersections.

ghost use Rattle.std.specs.Prelude.{◌≡◌, ◌<◌, length, IfOk};
ghost use Rattle.std.specs.List.{flat_map};
ghost use Rattle.sb_lang.specs.Constructors.{mkalt, mkand, alt_of, and_of, join_sets, meet_of, meet_sets, ranges_of};
ghost use Rattle.sb_lang.specs.FoldLaws.{SameMembers};
ghost use Rattle.sb_lang.specs.NormalForm.{IsNormal};
ghost use Rattle.sb_regex.specs.Numbered.{regex_at, regexes_at, AllNumbers, Extends, Names};
ghost use Rattle.sb_regex.specs.Steps.{union_of_members, intersection_of_members};

use crate::arena::Arena;
use crate::members::{meet, others, unite};
use crate::node::{Node, RegexId};
use sb_class::same_members;
use sb_lang::fold::{intersection_of_members, union_of_members};
use sb_lang::normal_form::constructors_give_normal;
use sb_lang::order::order_tells_apart;
use sb_lang::sets::{
    intersection_has_common, intersection_is_canonical, union_has_both, union_is_canonical,
};
use smallvec::SmallVec;
use std::alloc::AllocError;

impl Arena {
    /// The union. Where it was made of the same members before, it takes the time to sort their numbers; else n log n
    /// comparisons in the number n of members, or n where they are in order, and time n log n in the number of the
    /// ranges of sets among them.
    pub fn alt(&mut self, ids: &[RegexId]) -> Result<RegexId, AllocError>
        requires { AllNumbers self.old ids.now }
        ensures ok { IfOk result (λ id. Names self.new id (mkalt (regexes_at self.old ids.now))) }
        ensures extends { Extends self.old self.new }
    {
        union_of_members();
        self.normal_regexes_each_once();
        let members = self.by_number(ids)?;
        let call = Node::Alt(members);
        if let Some(id) = self.made(&call) {
            return Ok(id);
        }
        let id = self.union_of(ids)?;
        self.remember(call, id)?;
        Ok(id)
    }

    /// The intersection. It takes the time of a union, and where none is a member, linear time.
    pub fn and(&mut self, ids: &[RegexId]) -> Result<RegexId, AllocError>
        requires { AllNumbers self.old ids.now }
        ensures ok { IfOk result (λ id. Names self.new id (mkand (regexes_at self.old ids.now))) }
        ensures extends { Extends self.old self.new }
    {
        order_tells_apart();
        let none = self.none()?;
        self.normal_regexes_each_once();
        if ids.contains(&none) {
            return Ok(none);
        }
        self.meet_all(ids)
    }

    /// The intersection, as it was remembered, or else made anew.
    fn meet_all(&mut self, ids: &[RegexId]) -> Result<RegexId, AllocError>
        requires { AllNumbers self.old ids.now }
        ensures ok { IfOk result (λ id. Names self.new id (mkand (regexes_at self.old ids.now))) }
        ensures extends { Extends self.old self.new }
    {
        intersection_of_members();
        self.normal_regexes_each_once();
        let members = self.by_number(ids)?;
        let call = Node::And(members);
        if let Some(id) = self.made(&call) {
            return Ok(id);
        }
        let id = self.intersection_of(ids)?;
        self.remember(call, id)?;
        Ok(id)
    }

    /// The numbers in ascending order, each once.
    fn by_number(&self, ids: &[RegexId]) -> Result<SmallVec<RegexId, 4>, AllocError>
        requires { AllNumbers self.now ids.now }
        ensures members { IfOk result
            (λ all. SameMembers (regexes_at self.now all.items) (regexes_at self.now ids.now)) }
        ensures numbers { IfOk result (λ all. AllNumbers self.now all.items) }
    {
        order_tells_apart();
        self.normal_regexes_each_once();
        let mut all = SmallVec::from_slice(self.allocator(), ids)?;
        all.as_mut_slice().sort(self.allocator())?;
        all.dedup();
        Ok(all)
    }

    /// The union of members, made anew.
    fn union_of(&mut self, ids: &[RegexId]) -> Result<RegexId, AllocError>
        requires { AllNumbers self.old ids.now }
        ensures ok { IfOk result (λ id. Names self.new id (mkalt (regexes_at self.old ids.now))) }
        ensures extends { Extends self.old self.new }
    {
        constructors_give_normal();
        self.normal_regexes_each_once();
        let members = self.alternatives(ids)?;
        let members = self.join_sets(&members)?;
        self.unite_members(members)
    }

    /// The intersection of members, made anew.
    fn intersection_of(&mut self, ids: &[RegexId]) -> Result<RegexId, AllocError>
        requires { AllNumbers self.old ids.now }
        ensures ok { IfOk result (λ id. Names self.new id (mkand (regexes_at self.old ids.now))) }
        ensures extends { Extends self.old self.new }
    {
        constructors_give_normal();
        self.normal_regexes_each_once();
        let members = self.conjuncts(ids)?;
        let members = self.meet_sets(&members)?;
        self.meet_members(members)
    }

    /// The members with all sets as one, by union.
    fn join_sets(&mut self, members: &[RegexId]) -> Result<Vec<RegexId>, AllocError>
        requires { AllNumbers self.old members.now }
        ensures value { IfOk result
            (λ all. regexes_at self.new all.items ≡ join_sets (regexes_at self.old members.now)) }
        ensures numbers { IfOk result (λ all. AllNumbers self.new all.items) }
        ensures extends { Extends self.old self.new }
    {
        union_has_both();
        union_is_canonical();
        same_members();
        self.normal_regexes_each_once();
        let class = unite(self.sets(members)?)?;
        let mut all = Vec::new(self.allocator());
        all.push(self.set(&class)?)?;
        self.push_others(members, &mut all)?;
        Ok(all)
    }

    /// The members with all sets as one, by intersection.
    fn meet_sets(&mut self, members: &[RegexId]) -> Result<Vec<RegexId>, AllocError>
        requires { AllNumbers self.old members.now }
        ensures value { IfOk result
            (λ all. regexes_at self.new all.items ≡ meet_sets (regexes_at self.old members.now)) }
        ensures numbers { IfOk result (λ all. AllNumbers self.new all.items) }
        ensures extends { Extends self.old self.new }
    {
        let mut all = self.meet_of(members)?;
        self.push_others(members, &mut all)?;
        Ok(all)
    }

    /// The intersection of the sets among the members, if there is a set.
    fn meet_of(&mut self, members: &[RegexId]) -> Result<Vec<RegexId>, AllocError>
        requires { AllNumbers self.old members.now }
        ensures value { IfOk result
            (λ all. regexes_at self.new all.items ≡ meet_of (flat_map ranges_of (regexes_at self.old members.now))) }
        ensures numbers { IfOk result (λ all. AllNumbers self.new all.items) }
        ensures extends { Extends self.old self.new }
    {
        intersection_has_common();
        intersection_is_canonical();
        same_members();
        self.normal_regexes_each_once();
        match meet(self.sets(members)?)? {
            None => Ok(Vec::new(self.allocator())),
            Some(class) => {
                let id = self.set(&class)?;
                Vec::from_slice(self.allocator(), &[id])
            }
        }
    }

    /// The union of members that are no unions.
    fn unite_members(&mut self, members: Vec<RegexId>) -> Result<RegexId, AllocError>
        requires numbers { AllNumbers self.old members.items }
        requires normal { IsNormal (union_of_members (regexes_at self.old members.items)) }
        ensures ok { IfOk result (λ id. Names self.new id (union_of_members (regexes_at self.old members.items))) }
        ensures extends { Extends self.old self.new }
    {
        let none = self.none()?;
        let anything = self.anything()?;
        order_tells_apart();
        self.normal_regexes_each_once();
        if members.contains(&anything) {
            return Ok(anything);
        }
        let rising = self.in_order(&others(members, none))?;
        self.alt_of(&rising)
    }

    /// The intersection of members that are no intersections.
    fn meet_members(&mut self, members: Vec<RegexId>) -> Result<RegexId, AllocError>
        requires numbers { AllNumbers self.old members.items }
        requires normal { IsNormal (intersection_of_members (regexes_at self.old members.items)) }
        ensures ok { IfOk result
            (λ id. Names self.new id (intersection_of_members (regexes_at self.old members.items))) }
        ensures extends { Extends self.old self.new }
    {
        let none = self.none()?;
        let anything = self.anything()?;
        order_tells_apart();
        self.normal_regexes_each_once();
        if members.contains(&none) {
            return Ok(none);
        }
        let rising = self.in_order(&others(members, anything))?;
        self.and_of(&rising)
    }

    /// The node of the union of members in order.
    fn alt_of(&mut self, ids: &[RegexId]) -> Result<RegexId, AllocError>
        requires numbers { AllNumbers self.old ids.now }
        requires normal { IsNormal (alt_of (regexes_at self.old ids.now)) }
        ensures ok { IfOk result (λ id. Names self.new id (alt_of (regexes_at self.old ids.now))) }
        ensures extends { Extends self.old self.new }
    {
        match ids {
            [] => self.none(),
            [id] => Ok(*id),
            _ => {
                let parts = SmallVec::from_slice(self.allocator(), ids)?;
                self.intern(Node::Alt(parts))
            }
        }
    }

    /// The node of the intersection of members in order.
    fn and_of(&mut self, ids: &[RegexId]) -> Result<RegexId, AllocError>
        requires numbers { AllNumbers self.old ids.now }
        requires normal { IsNormal (and_of (regexes_at self.old ids.now)) }
        ensures ok { IfOk result (λ id. Names self.new id (and_of (regexes_at self.old ids.now))) }
        ensures extends { Extends self.old self.new }
    {
        match ids {
            [] => self.anything(),
            [id] => Ok(*id),
            _ => {
                let parts = SmallVec::from_slice(self.allocator(), ids)?;
                self.intern(Node::And(parts))
            }
        }
    }
}
