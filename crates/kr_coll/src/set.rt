// `HashSet`: a set of identities.
ghost use Rattle.std.specs.Prelude.{◌≡◌, ◌==◌, length, not, OnOk, OnErr, IfOk};
ghost use Rattle.kr_mean.specs.Collections.{has_member, without};
ghost use Rattle.kr_coll.specs.Identities.{with_member};

use crate::search::{position_of, remove_member};
use kr_base::NoMemory;
use kr_heap::Members;
use kr_value::Value;

/// A `HashSet`, over the members of one. A member is a reference or null.
#[derive(Drop)]
pub struct SetObj<'a> {
    pub members: &'a mut Members,
}

impl<'a> SetObj<'a> {
    /// The set of these members. They form a set if they are distinct, which adding and removing keep (`set_law`).
    #[inline(always)]
    pub fn of(members: &'a mut Members) -> SetObj<'a>
        ensures same_reference { result.members.ghost_name ≡ members.entry.ghost_name }
        ensures members { result.members.now ≡ members.old }
    {
        SetObj { members }
    }

    /// Adds a member if it is absent, and reports whether it was. Only this call allocates.
    #[inline(always)]
    pub fn add(&mut self, member: Value) -> Result<bool, NoMemory>
        ensures same_reference { self.new.members.ghost_name ≡ self.old.members.ghost_name }
        ensures answer { IfOk result (λ added. added ≡ not (has_member member self.old.members.now)) }
        ensures added { OnOk result (self.new.members.now ≡ with_member member self.old.members.now) }
        ensures unchanged { OnErr result (self.new.members.now ≡ self.old.members.now) }
    {
        if self.contains(member) {
            return Ok(false);
        }
        self.members.push(member)?;
        Ok(true)
    }

    #[inline(always)]
    pub fn contains(&self, member: Value) -> bool
        ensures { result ≡ has_member member self.now.members.now }
    {
        position_of(self.members.as_slice(), member).is_some()
    }

    /// Removes a member, and reports whether it was there.
    #[inline(always)]
    pub fn remove(&mut self, member: Value) -> bool
        ensures same_reference { self.new.members.ghost_name ≡ self.old.members.ghost_name }
        ensures answer { result ≡ has_member member self.old.members.now }
        ensures removed { self.new.members.now ≡ without member self.old.members.now }
    {
        remove_member(self.members, member)
    }

    #[inline(always)]
    pub fn size(&self) -> usize
        ensures { result ≡ length self.now.members.now }
    {
        self.members.as_slice().len()
    }

    #[inline(always)]
    pub fn is_empty(&self) -> bool
        ensures { result ≡ (length self.now.members.now == 0) }
    {
        self.members.as_slice().is_empty()
    }
}
