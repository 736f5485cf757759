// Names that had `<` between them, as comparisons.
ghost use Rattle.std.specs.Prelude.{◌≡◌, ◌<◌, ◌≤◌, ◌++◌, ◌∷◌, [], IfOk, Some, true, false, length, take, drop, ℕ, ◌+◌};
ghost use Rattle.kr_ast.specs.Arena.{AreNamesIn};
ghost use Rattle.kr_parse_grammar.specs.Made.{compared};
ghost use Rattle.kr_parse_grammar.specs.declared.value.Form.TheVariants.{Target, Other};
ghost use Rattle.kr_parse_grammar.specs.Values.{part};
ghost use Rattle.kr_parse_reduction.specs.declared.value.Kept.TheVariants.{Part};
ghost use Rattle.kr_parse_reduction.specs.Kept.{are, place_in, place_at};
ghost use Rattle.kr_parse_trees.specs.Chain.{operand, is_name_in, less_of, test_of, without, is_tree_at, is_named, AreNamed, Folding, Compares};
ghost use Rattle.kr_parse_reduction.specs.Shown.{shown, names_of};
ghost use Rattle.kr_parse_trees.specs.Built.{values_of, IsBuilt};

use crate::builder::Builder;
use kr_ast::{BinaryOperator, Node};
use kr_base::NoMemory;
use kr_parse_grammar::Form;
use kr_parse_reduction::{Kept, Move, Sort, tree, type_node};

impl Builder {
    /// Whether the value at a depth is a name.
    fn is_name(&self, depth: usize) -> bool
        ensures { result ≡ is_named self.now.values depth }
    {
        match self.values.peek(depth) {
            Some(Kept::Word { .. }) => true,
            Some(Kept::Pair { .. }) => true,
            _ => false,
        }
    }

    /// Whether the value at a depth is a tree.
    fn is_tree(&self, depth: usize) -> bool
        ensures { result ≡ is_tree_at self.now.values depth }
    {
        let value = self.values.value(depth);
        matches!(value, Kept::Part { .. })
    }

    /// The depth below the names that begin at a depth.
    fn below_names(&self, start: usize) -> usize
        requires { start ≤ length self.now.values }
        ensures names { AreNamed self.now.values start result }
        ensures end { is_named self.now.values result ≡ false }
        ensures from { start ≤ result }
        ensures within { result ≤ length self.now.values }
    {
        let count = self.values.len();
        let mut depth = start;
        while depth < count {
            if !self.is_name(depth) {
                return depth;
            }
            depth += 1;
        }
        depth
    }

    /// Pushes the expression that a name is.
    fn put_operand(&mut self, value: Kept) -> Result<(), NoMemory>
        requires built { IsBuilt self.old }
        requires named { AreNamesIn self.old.forest.text (names_of (value ∷ [])) }
        requires name { is_name_in (Some value) ≡ true }
        ensures built { IfOk result (λ none. IsBuilt self.new) }
        ensures text { IfOk result (λ none. self.new.forest.text ≡ self.old.forest.text) }
        ensures kept { IfOk result (λ none. (i : ℕ) × (self.new.values ≡ Part (place_in (Some value)) Target i ∷ self.old.values)) }
        ensures shown { IfOk result (λ none. values_of self.new ≡ part (place_in (Some value)) Target (operand self.old.forest.text value) ∷ values_of self.old) }
    {
        match value {
            Kept::Word { place, name } => {
                self.put(tree(0, place, Form::Target, Node::Variable { name }))?;
                Ok(())
            }
            Kept::Pair { place, outer, name } => {
                self.put(tree(0, place, Form::Other, Node::Variable { name: outer }))?;
                let object = self.values.node(0);
                self.put(tree(1, place, Form::Target, Node::FieldAccess { object, name }))?;
                Ok(())
            }
            Kept::Mark { .. } => Ok(()),
            Kept::Part { .. } => Ok(()),
            Kept::Member { .. } => Ok(()),
            Kept::Owner { .. } => Ok(()),
        }
    }

    /// Tests the tree at a depth by the type on top. A mark stays in the tree's place.
    fn put_test(&mut self, depth: usize) -> Result<(), NoMemory>
        requires built { IsBuilt self.old }
        requires top { are (Sort.Part ∷ []) self.old.values ≡ true }
        requires tree { is_tree_at self.old.values depth ≡ true }
        requires apart { 0 < depth }
        ensures built { IfOk result (λ none. IsBuilt self.new) }
        ensures text { IfOk result (λ none. self.new.forest.text ≡ self.old.forest.text) }
        ensures kept { IfOk result (λ none. (i : ℕ) × (self.new.values ≡ Part (place_at self.old.values depth) Other i ∷ without self.old.values depth)) }
        ensures shown { IfOk result (λ none. values_of self.new ≡ test_of self.old.forest self.old.values depth ∷ shown self.old.forest (without self.old.values depth)) }
    {
        let place = self.values.place(depth);
        let operand = self.values.node(depth);
        let tested = self.values.node(0);
        let node = self
            .forest
            .put(place, Node::InstanceOf { operand, tested })?;
        self.values.mark(depth);
        self.values.drop_top(1);
        self.values.push(Kept::Part {
            place,
            form: Form::Other,
            node,
        })?;
        Ok(())
    }

    /// Pushes the lowest name, or the test of the tree below it. Returns how many values that uses up.
    fn put_lowest(&mut self, depth: usize) -> Result<usize, NoMemory>
        requires built { IsBuilt self.old }
        requires name { is_named self.old.values depth ≡ true }
        requires end { is_named self.old.values (depth + 1) ≡ false }
        ensures { IfOk result (λ past. Folding self.old.forest self.old.values self.new.forest self.new.values depth (depth + 1) past) }
    {
        let _count = self.values.len();
        let next = depth + 1;
        if self.is_tree(next) {
            let past = next + 1;
            let place = self.values.place(depth);
            let node = type_node(self.values.peek(depth));
            self.put(tree(0, place, Form::Type, node))?;
            self.put_test(past)?;
            return Ok(past);
        }
        let value = self.values.value(depth);
        self.put_operand(value)?;
        Ok(next)
    }

    /// Compares the value on top with the name at a depth.
    fn put_less(&mut self, depth: usize) -> Result<(), NoMemory>
        requires built { IsBuilt self.old }
        requires top { are (Sort.Part ∷ []) self.old.values ≡ true }
        requires name { is_named self.old.values depth ≡ true }
        ensures built { IfOk result (λ none. IsBuilt self.new) }
        ensures text { IfOk result (λ none. self.new.forest.text ≡ self.old.forest.text) }
        ensures kept { IfOk result (λ none. (i : ℕ) × (self.new.values ≡ Part (place_at self.old.values 0) Other i ∷ drop 1 self.old.values)) }
        ensures shown { IfOk result (λ none. values_of self.new ≡ less_of self.old.forest self.old.values depth ∷ shown self.old.forest (drop 1 self.old.values)) }
    {
        let value = self.values.value(depth);
        self.put_operand(value)?;
        let place = self.values.place(1);
        let node = Node::Binary {
            operator: BinaryOperator::Less,
            left: self.values.node(1),
            right: self.values.node(0),
        };
        self.put(tree(2, place, Form::Other, node))?;
        Ok(())
    }

    /// Pushes the comparisons of the names from a depth on. Returns how many values they use up, if there are any.
    fn compare(&mut self, start: usize) -> Result<Option<usize>, NoMemory>
        requires built { IsBuilt self.old }
        requires from { start ≤ length self.old.values }
        ensures { IfOk result (λ past. Compares self.old.forest self.old.values self.new.forest self.new.values start past) }
    {
        let bottom = self.below_names(start);
        if bottom == start {
            return Ok(None);
        }
        let mut depth = bottom - 1;
        let past = self.put_lowest(depth)?;
        while depth > start {
            self.put_less(depth)?;
            depth -= 1;
        }
        Ok(Some(past))
    }

    /// The names on top.
    pub(crate) fn compare_all(&mut self) -> Result<(), NoMemory>
        requires { IsBuilt self.old }
        ensures built { IfOk result (λ none. IsBuilt self.new) }
        ensures shown { IfOk result (λ none. values_of self.new ≡ compared (values_of self.old)) }
    {
        let used = self.compare(0)?;
        match used {
            None => Ok(()),
            Some(past) => {
                let _count = self.values.len();
                let taken = past + 1;
                let top = self.values.value(0);
                self.put_again(Move {
                    taken,
                    top,
                    below: None,
                })?;
                Ok(())
            }
        }
    }

    /// The names below the value on top.
    pub(crate) fn compare_below(&mut self) -> Result<(), NoMemory>
        requires built { IsBuilt self.old }
        requires some { 0 < length self.old.values }
        ensures built { IfOk result (λ none. IsBuilt self.new) }
        ensures shown { IfOk result (λ none. values_of self.new ≡ take 1 (values_of self.old) ++ compared (drop 1 (values_of self.old))) }
    {
        let used = self.compare(1)?;
        match used {
            None => Ok(()),
            Some(past) => {
                let _count = self.values.len();
                let taken = past + 1;
                let top = self.values.value(1);
                let below = self.values.peek(0);
                self.put_again(Move { taken, top, below })?;
                Ok(())
            }
        }
    }
}
