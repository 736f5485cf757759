// Builds trees from the parser's values.
//
// The hints on inlining are for speed: a node above its values is the most frequent case, and reaches the forest
// without a copy; rarer cases are kept out of line.
ghost use Rattle.std.specs.Prelude.{◌≡◌, ◌<◌, ◌≤◌, ◌∷◌, [], IfOk, ℕ, true, Some, None};
ghost use Rattle.kr_ast.specs.Arena.{parts, names};
ghost use Rattle.kr_parse_grammar.specs.declared.value.Form.TheVariants.{Other};
ghost use Rattle.kr_parse_grammar.specs.Made.{made};
ghost use Rattle.kr_parse_grammar.specs.Values.{mark, word, part};
ghost use Rattle.kr_parse_reduction.specs.Kept.{are, value_at};
ghost use Rattle.kr_parse_reduction.specs.Plans.{sorts, way, single};
ghost use Rattle.kr_parse_reduction.specs.Shown.{shown, Fits, FitsMove, planned, stacked, moved};
ghost use Rattle.kr_parse_trees.specs.Built.{values_of, leaf, IsOnePart, IsTreeOf, IsBuilt};

use kr_ast::{Forest, Node, Tree};
use kr_base::{NoMemory, Place};
use kr_lex::Kind;
use kr_parse_grammar::{Form, Make};
use kr_parse_reduction::{
    Kept, Move, Plan, ValueStack, Way, below, lower, move_of, plan_of, single, sorts_of, staying,
    tree, upper, way_of,
};
use std::alloc::Global;

/// The nodes so far, and the values that wait to become part of a tree.
#[derive(Drop)]
pub struct Builder {
    pub(crate) forest: Forest,
    pub(crate) values: ValueStack,
}

impl Builder {
    pub fn new(alloc: Global) -> Self
        ensures built { IsBuilt result }
        ensures none { values_of result ≡ [] }
    {
        Builder {
            forest: Forest::new(alloc),
            values: ValueStack::new(alloc),
        }
    }

    /// Keeps a token of whose spelling nothing is needed.
    pub fn keep_mark(&mut self, kind: Kind, place: Place) -> Result<(), NoMemory>
        requires { IsBuilt self.old }
        ensures built { IfOk result (λ none. IsBuilt self.new) }
        ensures shown { IfOk result (λ none. values_of self.new ≡ mark kind place ∷ values_of self.old) }
    {
        self.values.push(Kept::Mark { kind, place })?;
        Ok(())
    }

    /// Keeps an identifier.
    pub fn keep_word(&mut self, place: Place, text: &[u8]) -> Result<(), NoMemory>
        requires { IsBuilt self.old }
        ensures built { IfOk result (λ none. IsBuilt self.new) }
        ensures shown { IfOk result (λ none. values_of self.new ≡ word place text.now ∷ values_of self.old) }
    {
        let name = self.forest.add_name(text)?;
        self.values.push(Kept::Word { place, name })?;
        Ok(())
    }

    /// Adds a node without parts or names, and pushes its tree.
    #[inline(never)]
    pub fn put_leaf(&mut self, place: Place, node: Node) -> Result<(), NoMemory>
        requires built { IsBuilt self.old }
        requires alone { parts node ≡ [] }
        requires nameless { names node ≡ [] }
        ensures built { IfOk result (λ none. IsBuilt self.new) }
        ensures shown { IfOk result (λ none. values_of self.new ≡ leaf place node ∷ values_of self.old) }
    {
        self.put(tree(0, place, Form::Other, node))?;
        Ok(())
    }

    /// Adds a node above its parts, and replaces the taken values by its tree.
    #[inline(always)]
    pub(crate) fn put(&mut self, plan: Plan) -> Result<(), NoMemory>
        requires built { IsBuilt self.old }
        requires fits { Fits self.old.forest.text self.old.values plan None }
        ensures built { IfOk result (λ none. IsBuilt self.new) }
        ensures shown { IfOk result (λ none. values_of self.new ≡ planned self.old.forest self.old.values plan None) }
        ensures kept { IfOk result (λ none. (i : ℕ) × (self.new.values ≡ stacked plan None i self.old.values)) }
        ensures text { IfOk result (λ none. self.new.forest.text ≡ self.old.forest.text) }
    {
        let node = self.forest.put(plan.place, plan.node)?;
        self.values.drop_top(plan.taken);
        self.values.push(Kept::Part {
            place: plan.place,
            form: plan.form,
            node,
        })?;
        Ok(())
    }

    /// Adds a node above its parts, and replaces the taken values by its tree, below the topmost `depth` of them.
    #[inline(always)]
    fn put_below(&mut self, under: Plan, depth: usize) -> Result<(), NoMemory>
        requires built { IsBuilt self.old }
        requires room { 2 ≤ under.taken }
        requires above { depth < under.taken }
        requires fits { Fits self.old.forest.text self.old.values under (Some (value_at self.old.values depth)) }
        ensures built { IfOk result (λ none. IsBuilt self.new) }
        ensures shown { IfOk result (λ none. values_of self.new ≡ planned self.old.forest self.old.values under (Some (value_at self.old.values depth))) }
        ensures kept { IfOk result (λ none. (i : ℕ) × (self.new.values ≡ stacked under (Some (value_at self.old.values depth)) i self.old.values)) }
        ensures text { IfOk result (λ none. self.new.forest.text ≡ self.old.forest.text) }
    {
        let node = self.forest.put(under.place, under.node)?;
        let part = Kept::Part {
            place: under.place,
            form: under.form,
            node,
        };
        self.values.tuck(under.taken, depth, part);
        Ok(())
    }

    /// Replaces values by others.
    #[inline(always)]
    pub(crate) fn put_again(&mut self, change: Move) -> Result<(), NoMemory>
        requires built { IsBuilt self.old }
        requires fits { FitsMove self.old.forest.text self.old.values change }
        ensures built { IfOk result (λ none. IsBuilt self.new) }
        ensures shown { IfOk result (λ none. values_of self.new ≡ shown self.old.forest (moved change self.old.values)) }
    {
        self.values.drop_top(change.taken);
        match change.below {
            None => {
                self.values.push(change.top)?;
                Ok(())
            }
            Some(below) => {
                self.values.push(below)?;
                self.values.push(change.top)?;
                Ok(())
            }
        }
    }

    /// The two nodes of a pair or a type, one above the other.
    fn put_both(&mut self, make: Make) -> Result<(), NoMemory>
        requires built { IsBuilt self.old }
        requires name { way make ≡ Way.Name }
        requires values { are (sorts make) self.old.values ≡ true }
        requires two { single make self.old.values ≡ None }
        ensures built { IfOk result (λ none. IsBuilt self.new) }
        ensures shown { IfOk result (λ none. values_of self.new ≡ made make (values_of self.old)) }
    {
        let lower_node = lower(make, &self.values);
        self.put(lower_node)?;
        let upper_node = upper(make, &self.values);
        self.put(upper_node)?;
        Ok(())
    }

    /// The node of a word, or two nodes.
    #[inline(never)]
    fn build_name(&mut self, make: Make) -> Result<(), NoMemory>
        requires built { IsBuilt self.old }
        requires name { way make ≡ Way.Name }
        requires values { are (sorts make) self.old.values ≡ true }
        ensures built { IfOk result (λ none. IsBuilt self.new) }
        ensures shown { IfOk result (λ none. values_of self.new ≡ made make (values_of self.old)) }
    {
        match single(make, &self.values) {
            None => self.put_both(make),
            Some(node) => {
                self.put(node)?;
                Ok(())
            }
        }
    }

    /// A method, above its signature.
    #[inline(never)]
    fn method(&mut self) -> Result<(), NoMemory>
        requires built { IsBuilt self.old }
        requires values { are (sorts Make.Method) self.old.values ≡ true }
        ensures built { IfOk result (λ none. IsBuilt self.new) }
        ensures shown { IfOk result (λ none. values_of self.new ≡ made Make.Method (values_of self.old)) }
    {
        let place = self.values.place(2);
        let name = self.values.name(2);
        let is_static = self.values.modifiers(4).is_static;
        self.put(tree(0, place, Form::Other, Node::Nil))?;
        let signature = Node::Signature {
            result: self.values.node(4),
            parameters: self.values.node(2),
            contracts: self.values.node(0),
        };
        self.put_below(tree(5, place, Form::Other, signature), 1)?;
        let method = Node::Method {
            is_static,
            name,
            signature: self.values.node(1),
            body: self.values.node(0),
        };
        self.put(tree(3, place, Form::Other, method))?;
        Ok(())
    }

    /// A method with contracts, above its signature.
    #[inline(never)]
    fn contracted_method(&mut self) -> Result<(), NoMemory>
        requires built { IsBuilt self.old }
        requires values { are (sorts Make.ContractedMethod) self.old.values ≡ true }
        ensures built { IfOk result (λ none. IsBuilt self.new) }
        ensures shown { IfOk result (λ none. values_of self.new ≡ made Make.ContractedMethod (values_of self.old)) }
    {
        let place = self.values.place(2);
        let name = self.values.name(2);
        let is_static = self.values.modifiers(4).is_static;
        let signature = Node::Signature {
            result: self.values.node(3),
            parameters: self.values.node(1),
            contracts: self.values.node(5),
        };
        self.put_below(tree(6, place, Form::Other, signature), 0)?;
        let method = Node::Method {
            is_static,
            name,
            signature: self.values.node(1),
            body: self.values.node(0),
        };
        self.put(tree(2, place, Form::Other, method))?;
        Ok(())
    }

    /// A list below a value that stays on top.
    #[inline(never)]
    fn build_list(&mut self, make: Make) -> Result<(), NoMemory>
        requires built { IsBuilt self.old }
        requires list { way make ≡ Way.Under }
        requires values { are (sorts make) self.old.values ≡ true }
        ensures built { IfOk result (λ none. IsBuilt self.new) }
        ensures shown { IfOk result (λ none. values_of self.new ≡ made make (values_of self.old)) }
    {
        let list = below(make, &self.values);
        let depth = staying(make);
        self.put_below(list, depth)?;
        Ok(())
    }

    /// Replaces values by others.
    #[inline(never)]
    fn build_values(&mut self, make: Make) -> Result<(), NoMemory>
        requires built { IsBuilt self.old }
        requires again { way make ≡ Way.Values }
        requires values { are (sorts make) self.old.values ≡ true }
        ensures built { IfOk result (λ none. IsBuilt self.new) }
        ensures shown { IfOk result (λ none. values_of self.new ≡ made make (values_of self.old)) }
    {
        let change = move_of(make, &self.values);
        self.put_again(change)?;
        Ok(())
    }

    /// Swaps the two values on top.
    fn swap(&mut self)
        requires built { IsBuilt self.old }
        requires values { are (sorts Make.Swap) self.old.values ≡ true }
        ensures built { IsBuilt self.new }
        ensures shown { values_of self.new ≡ made Make.Swap (values_of self.old) }
    {
        let top = self.values.value(0);
        self.values.tuck(2, 1, top);
    }

    /// Comparisons of names.
    #[inline(never)]
    fn build_comparisons(&mut self, make: Make) -> Result<(), NoMemory>
        requires built { IsBuilt self.old }
        requires names { way make ≡ Way.Compare }
        requires values { are (sorts make) self.old.values ≡ true }
        ensures built { IfOk result (λ none. IsBuilt self.new) }
        ensures shown { IfOk result (λ none. values_of self.new ≡ made make (values_of self.old)) }
    {
        match make {
            Make::CompareBelow => {
                self.compare_below()?;
                Ok(())
            }
            _ => {
                self.compare_all()?;
                Ok(())
            }
        }
    }

    /// Reduces the values on top.
    #[inline(never)]
    pub fn build(&mut self, make: Make) -> Result<(), NoMemory>
        requires { IsBuilt self.old }
        ensures built { IfOk result (λ none. IsBuilt self.new) }
        ensures shown { IfOk result (λ none. values_of self.new ≡ made make (values_of self.old)) }
    {
        if !self.values.are(sorts_of(make)) {
            return Ok(());
        }
        match way_of(make) {
            Way::Node => {
                let node = plan_of(make, &self.values);
                self.put(node)?;
                Ok(())
            }
            Way::Name => self.build_name(make),
            Way::Under => self.build_list(make),
            Way::Swap => {
                self.swap();
                Ok(())
            }
            Way::Values => self.build_values(make),
            Way::Method => self.method(),
            Way::ContractedMethod => self.contracted_method(),
            Way::Compare => self.build_comparisons(make),
        }
    }

    /// The tree of the only value.
    pub fn finish(self) -> Tree
        requires built { IsBuilt self }
        requires one { IsOnePart (values_of self) }
        ensures { IsTreeOf (values_of self) result }
    {
        self.forest.finish()
    }
}
