// `LinkedList`: a list of identities.
ghost use Rattle.std.specs.Prelude.{◌≡◌, ◌==◌, [], ◌∷◌, ◌++◌, length, OnOk, OnErr, IfOk, true, MatchOption};
ghost use Rattle.kr_mean.specs.Collections.{has_member, without};

use crate::search::{position_of, remove_member};
use kr_base::NoMemory;
use kr_heap::Members;
use kr_value::Value;

/// A `LinkedList`, over the members of one. A member is a reference or null.
#[derive(Drop)]
pub struct ListObj<'a> {
    pub members: &'a mut Members,
}

impl<'a> ListObj<'a> {
    #[inline(always)]
    pub fn of(members: &'a mut Members) -> ListObj<'a>
        ensures same_reference { result.members.ghost_name ≡ members.entry.ghost_name }
        ensures members { result.members.now ≡ members.old }
    {
        ListObj { members }
    }

    /// Adds a member at the end, and returns true. Only this call allocates.
    #[inline(always)]
    pub fn add(&mut self, member: Value) -> Result<bool, NoMemory>
        ensures same_reference { self.new.members.ghost_name ≡ self.old.members.ghost_name }
        ensures answer { IfOk result (λ added. added ≡ true) }
        ensures added { OnOk result (self.new.members.now ≡ self.old.members.now ++ member ∷ []) }
        ensures unchanged { OnErr result (self.new.members.now ≡ self.old.members.now) }
    {
        self.members.push(member)?;
        Ok(true)
    }

    #[inline(always)]
    pub fn contains(&self, member: Value) -> bool
        ensures { result ≡ has_member member self.now.members.now }
    {
        position_of(self.members.as_slice(), member).is_some()
    }

    /// Removes the first member that is the same, and reports whether there was one.
    #[inline(always)]
    pub fn remove(&mut self, member: Value) -> bool
        ensures same_reference { self.new.members.ghost_name ≡ self.old.members.ghost_name }
        ensures answer { result ≡ has_member member self.old.members.now }
        ensures removed { self.new.members.now ≡ without member self.old.members.now }
    {
        remove_member(self.members, member)
    }

    /// Removes the first member; none if the list is empty.
    #[inline(always)]
    pub fn remove_first(&mut self) -> Option<Value>
        ensures same_reference { self.new.members.ghost_name ≡ self.old.members.ghost_name }
        ensures first { MatchOption result ((self.old.members.now ≡ []) × (self.new.members.now ≡ [])) (λ m. self.old.members.now ≡ m ∷ self.new.members.now) }
    {
        self.members.pop_first()
    }

    #[inline(always)]
    pub fn size(&self) -> usize
        ensures { result ≡ length self.now.members.now }
    {
        self.members.as_slice().len()
    }

    #[inline(always)]
    pub fn is_empty(&self) -> bool
        ensures { result ≡ (length self.now.members.now == 0) }
    {
        self.members.as_slice().is_empty()
    }
}
