// The newest local of each name, at a place in the bindings. From node to node of a tree the place moves by few bindings: each is
// entered once, in order, and left once.
ghost use Rattle.std.specs.Prelude.{◌≡◌, ◌<◌, ◌≤◌, ◌+◌, ◌^◌, ℕ, List, Some, IfSome, OnOk, false, length};
ghost use Rattle.kr_ast.specs.Arena.{Arena};
ghost use Rattle.kr_classes_names.specs.Listed.{place_of};
ghost use Rattle.kr_types_scopes.specs.declared.within.Binding.{Binding};
ghost use Rattle.kr_types_scopes.specs.Settings.{AreNamed, IsChain};
ghost use Rattle.kr_types_scopes.specs.Newest.{IsEntered, IsNoted, IsRestored, MayBegin};

use crate::within::Binding;
use kr_ast::Tree;
use kr_base::NoMemory;
use kr_classes_names::Index;
use std::alloc::Global;

/// Of each name by its number the place after its newest local, 0 where there is none; of each binding that was entered what that
/// was before it, for its name. Where a place isn't reached through the bindings that were entered, all of it is lost.
#[derive(Drop)]
pub(crate) struct Newest {
    index: Index,
    newest: Vec<u32>,
    outer: Vec<u32>,
    at: usize,
    is_lost: bool,
}

impl Newest {
    /// Before the first binding.
    pub(crate) fn new(alloc: Global) -> Newest
        ensures { (tree : Arena) (bs : List Binding) → IsNoted tree bs result }
    {
        Newest {
            index: Index::new(alloc),
            newest: Vec::new(alloc),
            outer: Vec::new(alloc),
            at: 0,
            is_lost: false,
        }
    }

    /// The number of a name that has one.
    fn number(&self, name: &[u8]) -> Option<usize>
        ensures { IfSome result (λ n. (n < length self.now.newest.items) × (place_of name.now self.now.index ≡ Some n)) }
    {
        match self.index.find(name) {
            None => None,
            Some(number) => {
                if (number as usize) < self.newest.len() {
                    Some(number as usize)
                } else {
                    None
                }
            }
        }
    }

    /// Notes of a name what was noted before this binding was entered.
    fn restore(&mut self, name: &[u8], last: usize)
        ensures at { self.new.at ≡ self.old.at }
        ensures outer { self.new.outer.items ≡ self.old.outer.items }
        ensures index { self.new.index ≡ self.old.index }
        ensures restored { self.new.is_lost ≡ false → IsRestored self.old self.new name.now last }
    {
        match self.number(name) {
            None => self.is_lost = true,
            Some(number) => {
                if last < self.outer.len() {
                    self.newest[number] = self.outer[last];
                } else {
                    self.is_lost = true;
                }
            }
        }
    }

    /// Leaves the binding before the place.
    fn leave(&mut self, tree: &Tree, bindings: &[Binding])
        requires at { 0 < self.old.at }
        requires chain { IsChain bindings.now }
        requires named { AreNamed tree.now bindings.now }
        requires noted { IsNoted tree.now bindings.now self.old }
        ensures noted { IsNoted tree.now bindings.now self.new }
        ensures less { self.new.at < self.old.at }
        ensures outer { self.new.outer.items ≡ self.old.outer.items }
    {
        let last = self.at - 1;
        let binding = bindings[last];
        self.restore(tree.name(binding.name), last);
        self.at = binding.below;
    }

    /// Leaves bindings as long as the place is above another one.
    fn leave_to(&mut self, tree: &Tree, bindings: &[Binding], place: usize)
        requires chain { IsChain bindings.now }
        requires named { AreNamed tree.now bindings.now }
        requires noted { IsNoted tree.now bindings.now self.old }
        ensures noted { IsNoted tree.now bindings.now self.new }
        ensures outer { self.new.outer.items ≡ self.old.outer.items }
    {
        while self.at > place {
            self.leave(tree, bindings);
        }
    }

    /// Leaves bindings down to a place.
    fn stand_at(&mut self, tree: &Tree, bindings: &[Binding], place: usize)
        requires chain { IsChain bindings.now }
        requires named { AreNamed tree.now bindings.now }
        requires noted { IsNoted tree.now bindings.now self.old }
        ensures noted { IsNoted tree.now bindings.now self.new }
        ensures outer { self.new.outer.items ≡ self.old.outer.items }
        ensures at { self.new.is_lost ≡ false → self.new.at ≡ place }
    {
        self.leave_to(tree, bindings, place);
        if self.at != place {
            self.is_lost = true;
        }
    }

    /// Gives a name a number, where it has none.
    fn add(&mut self, alloc: Global, name: &[u8]) -> Result<(), NoMemory>
        ensures noted { (tree : Arena) (bs : List Binding) → IsNoted tree bs self.old → OnOk result (IsNoted tree bs self.new) }
        ensures lost { OnOk result (self.new.is_lost ≡ self.old.is_lost) }
        ensures at { OnOk result (self.new.at ≡ self.old.at) }
        ensures outer { OnOk result (self.new.outer.items ≡ self.old.outer.items) }
    {
        if self.index.find(name).is_some() {
            return Ok(());
        }
        let count = self.newest.len();
        if count > 0xffff_ffff {
            return Err(NoMemory::at_limit(self.newest.as_slice()));
        }
        self.index.add(alloc, name, count as u32)?;
        self.newest.push(0)?;
        Ok(())
    }

    /// Notes the binding of that name, the next one after the place.
    fn note(&mut self, name: &[u8]) -> Result<(), NoMemory>
        requires { length self.old.outer.items + 1 < 2 ^ 32 }
        ensures noted { OnOk result (self.new.is_lost ≡ false → IsEntered self.old self.new name.now) }
        ensures at { OnOk result (self.new.at ≡ length self.old.outer.items + 1) }
        ensures outer { OnOk result (length self.new.outer.items ≡ length self.old.outer.items + 1) }
    {
        self.at = self.outer.len() + 1;
        match self.number(name) {
            None => {
                self.is_lost = true;
                self.outer.push(0)?;
            }
            Some(number) => {
                self.outer.push(self.newest[number])?;
                self.newest[number] = self.outer.len() as u32;
            }
        }
        Ok(())
    }

    /// Enters the next binding.
    fn enter(&mut self, alloc: Global, tree: &Tree, bindings: &[Binding]) -> Result<(), NoMemory>
        requires few { length bindings.now < 2 ^ 32 }
        requires left { length self.old.outer.items < length bindings.now }
        requires chain { IsChain bindings.now }
        requires named { AreNamed tree.now bindings.now }
        requires noted { IsNoted tree.now bindings.now self.old }
        ensures noted { OnOk result (IsNoted tree.now bindings.now self.new) }
        ensures more { OnOk result (length self.new.outer.items ≡ length self.old.outer.items + 1) }
    {
        let binding = bindings[self.outer.len()];
        let name = tree.name(binding.name);
        self.stand_at(tree, bindings, binding.below);
        self.add(alloc, name)?;
        self.note(name)?;
        Ok(())
    }

    /// Moves the place.
    pub(crate) fn go_to(
        &mut self,
        alloc: Global,
        tree: &Tree,
        bindings: &[Binding],
        top: usize,
    ) -> Result<(), NoMemory>
        requires few { length bindings.now < 2 ^ 32 }
        requires top { top ≤ length bindings.now }
        requires chain { IsChain bindings.now }
        requires named { AreNamed tree.now bindings.now }
        requires noted { IsNoted tree.now bindings.now self.old }
        ensures { OnOk result (IsNoted tree.now bindings.now self.new) }
    {
        while self.outer.len() < top {
            self.enter(alloc, tree, bindings)?;
        }
        self.stand_at(tree, bindings, top);
        Ok(())
    }

    /// Where the search for a local of a name may begin that is in scope below a top.
    pub(crate) fn start(&self, name: &[u8], top: usize) -> usize
        ensures { (tree : Arena) (bs : List Binding) → IsNoted tree bs self.now → top ≤ length bs → MayBegin tree bs top name.now result }
    {
        if self.is_lost || self.at != top {
            return top;
        }
        match self.index.find(name) {
            None => 0,
            Some(number) => match self.newest.get(number as usize) {
                None => top,
                Some(place) => *place as usize,
            },
        }
    }
}
