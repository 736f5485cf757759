// The parser's values for the tokens so far.
ghost use Rattle.std.specs.Prelude.{◌≡◌, ◌∷◌, [], true, false, ◌<◌, ◌≤◌, Some, None, slice_set, length, drop, OnOk, OnErr, slice_get};
ghost use Rattle.kr_base.specs.Places.{nowhere};
ghost use Rattle.kr_parse_grammar.specs.Values.{no_modifiers};
ghost use Rattle.kr_parse_reduction.specs.Kept.{no_name, place_in, kind_in, node_in, form_in, name_in, outer_in, modifiers_in, nested_in, value_in, place_at, kind_at, node_at, form_at, name_at, outer_at, modifiers_at, nested_at, value_at, is_of, are};

use kr_ast::Name;
use kr_base::{NoMemory, Place};
use kr_lex::Kind;
use kr_parse_grammar::{Form, Modifiers};
use std::alloc::Global;
use std::marker::Model;

/// A value that waits to become part of a tree.
#[derive(Clone, Copy)]
pub enum Kept {
    /// a token of whose spelling nothing is needed
    Mark {
        kind: Kind,
        place: Place,
    },
    /// an identifier
    Word {
        place: Place,
        name: Name,
    },
    /// two identifiers with a dot between them
    Pair {
        place: Place,
        outer: Name,
        name: Name,
    },
    /// a tree, and the place of its first token
    Part {
        place: Place,
        form: Form,
        node: u32,
    },
    /// the modifiers of the next member
    Member {
        is_nested: bool,
        modifiers: Modifiers,
    },
    /// the name of the class whose members come
    Owner {
        is_nested: bool,
        place: Place,
        name: Name,
    },
}

/// Which values are asked for.
#[derive(Clone, Copy)]
pub enum Sort {
    Any,
    Mark,
    Word,
    /// a word or a pair
    Name,
    Part,
    Member,
    Owner,
}

/// The place of what has none.
pub(crate) const fn nowhere() -> Place
    ensures { result ≡ nowhere }
{
    Place {
        file: 0,
        line: 0,
        col: 0,
    }
}

const fn no_name() -> Name
    ensures { result ≡ no_name }
{
    Name { start: 0, end: 0 }
}

pub(crate) const fn no_modifiers() -> Modifiers
    ensures { result ≡ no_modifiers }
{
    Modifiers {
        is_static: false,
        is_final: false,
        overrides: false,
    }
}

/// The name in a value that has one.
pub(crate) fn name_in(value: Option<Kept>) -> Name
    ensures { result ≡ name_in value }
{
    match value {
        Some(Kept::Word { name, .. }) => name,
        Some(Kept::Pair { name, .. }) => name,
        Some(Kept::Owner { name, .. }) => name,
        _ => no_name(),
    }
}

fn value_in(value: Option<Kept>) -> Kept
    ensures { result ≡ value_in value }
{
    match value {
        Some(kept) => kept,
        None => Kept::Mark {
            kind: Kind::Semicolon,
            place: nowhere(),
        },
    }
}

impl Kept {
    /// The place of a value that has one.
    #[inline(always)]
    fn place(&self) -> Place
        ensures { result ≡ place_in (Some self.now) }
    {
        match self {
            Kept::Mark { place, .. } => *place,
            Kept::Word { place, .. } => *place,
            Kept::Pair { place, .. } => *place,
            Kept::Part { place, .. } => *place,
            Kept::Owner { place, .. } => *place,
            Kept::Member { .. } => nowhere(),
        }
    }

    /// The token of a mark.
    fn kind(&self) -> Kind
        ensures { result ≡ kind_in (Some self.now) }
    {
        match self {
            Kept::Mark { kind, .. } => *kind,
            _ => Kind::Semicolon,
        }
    }

    /// The node of a tree.
    fn node(&self) -> u32
        ensures { result ≡ node_in (Some self.now) }
    {
        match self {
            Kept::Part { node, .. } => *node,
            _ => 0,
        }
    }

    /// The form of a tree.
    fn form(&self) -> Form
        ensures { result ≡ form_in (Some self.now) }
    {
        match self {
            Kept::Part { form, .. } => *form,
            _ => Form::Other,
        }
    }

    /// The name of a word, a pair or an owner.
    fn name(&self) -> Name
        ensures { result ≡ name_in (Some self.now) }
    {
        match self {
            Kept::Word { name, .. } => *name,
            Kept::Pair { name, .. } => *name,
            Kept::Owner { name, .. } => *name,
            _ => no_name(),
        }
    }

    /// The first name of a pair.
    fn outer(&self) -> Name
        ensures { result ≡ outer_in (Some self.now) }
    {
        match self {
            Kept::Pair { outer, .. } => *outer,
            _ => no_name(),
        }
    }

    /// The modifiers of a member.
    fn modifiers(&self) -> Modifiers
        ensures { result ≡ modifiers_in (Some self.now) }
    {
        match self {
            Kept::Member { modifiers, .. } => *modifiers,
            _ => no_modifiers(),
        }
    }

    /// Whether a member or an owner is of a nested class.
    fn is_nested(&self) -> bool
        ensures { result ≡ nested_in (Some self.now) }
    {
        match self {
            Kept::Member { is_nested, .. } => *is_nested,
            Kept::Owner { is_nested, .. } => *is_nested,
            _ => false,
        }
    }

    /// Whether it is of a sort.
    fn is_of(&self, sort: Sort) -> bool
        ensures { result ≡ is_of sort self.now }
    {
        match sort {
            Sort::Any => true,
            Sort::Mark => matches!(self, Kept::Mark { .. }),
            Sort::Word => matches!(self, Kept::Word { .. }),
            Sort::Name => matches!(self, Kept::Word { .. } | Kept::Pair { .. }),
            Sort::Part => matches!(self, Kept::Part { .. }),
            Sort::Member => matches!(self, Kept::Member { .. }),
            Sort::Owner => matches!(self, Kept::Owner { .. }),
        }
    }
}

/// Gives back room of which less than half is used: the values of a long list become one.
fn give_back(items: &mut Vec<Kept>)
    ensures { items.new.items ≡ items.old.items }
{
    let room = items.capacity();
    if room > 4_096 && items.len() < room / 2 {
        items.shrink_to(room / 4 * 3);
    }
}

/// Values, the newest on top. Contracts see the list of them, the top one first.
#[derive(Drop)]
pub struct ValueStack {
    items: Vec<Kept>,
}

impl Model for ValueStack {
    ghost use Rattle.std.specs.Prelude.{List, reverse};
    ghost use Rattle.kr_parse_reduction.specs.declared.value.Kept.{Kept};

    ghost Value = { List Kept };

    ghost view = { λ s. reverse s.items.items };
}

impl ValueStack {
    pub fn new(alloc: Global) -> Self
        ensures { result ≡ [] }
    {
        ValueStack {
            items: Vec::new(alloc),
        }
    }

    pub fn len(&self) -> usize
        ensures { result ≡ length self.now }
    {
        self.items.len()
    }

    pub fn is_empty(&self) -> bool
        ensures yes { result ≡ true → self.now ≡ [] }
        ensures no { result ≡ false → 0 < length self.now }
    {
        self.items.is_empty()
    }

    pub fn push(&mut self, value: Kept) -> Result<(), NoMemory>
        ensures pushed { OnOk result (self.new ≡ value ∷ self.old) }
        ensures unchanged { OnErr result (self.new ≡ self.old) }
    {
        self.items.push(value)?;
        Ok(())
    }

    /// The value at a depth.
    pub fn peek(&self, depth: usize) -> Option<Kept>
        ensures { result ≡ slice_get self.now depth }
    {
        let count = self.items.len();
        if depth < count {
            Some(self.items[count - 1 - depth])
        } else {
            None
        }
    }

    /// Takes values off.
    pub fn drop_top(&mut self, count: usize)
        requires { count ≤ length self.old }
        ensures { self.new ≡ drop count self.old }
    {
        let left = self.items.len() - count;
        self.items.truncate(left);
        give_back(&mut self.items);
    }

    /// Replaces `count` values by one, below the topmost `depth` of them.
    #[inline(always)]
    pub fn tuck(&mut self, count: usize, depth: usize, value: Kept)
        requires within { count ≤ length self.old }
        requires room { 2 ≤ count }
        requires above { depth < count }
        ensures { self.new ≡ value_at self.old depth ∷ value ∷ drop count self.old }
    {
        let bottom = self.items.len() - count;
        let above = *self.top(depth);
        self.items[bottom + 1] = above;
        self.items[bottom] = value;
        self.items.truncate(bottom + 2);
    }

    /// Replaces a value by a mark.
    pub fn mark(&mut self, depth: usize)
        requires { depth < length self.old }
        ensures { self.new ≡ slice_set self.old depth (value_in None) }
    {
        let at = self.items.len() - 1 - depth;
        self.items[at] = value_in(None);
    }

    /// The value at a depth, which must exist.
    pub fn top(&self, depth: usize) -> &Kept
        requires { depth < length self.now }
        ensures { slice_get self.now depth ≡ Some result.now }
    {
        &self.items[self.items.len() - 1 - depth]
    }

    /// Whether the values on top are of these sorts, the top one first.
    pub fn are(&self, sorts: &[Sort]) -> bool
        ensures { result ≡ are sorts.now self.now }
    {
        let count = self.len();
        let mut depth = 0;
        while depth < sorts.len() {
            if depth >= count {
                return false;
            }
            if !self.top(depth).is_of(sorts[depth]) {
                return false;
            }
            depth += 1;
        }
        true
    }

    /// The place of the value at a depth.
    #[inline(always)]
    pub fn place(&self, depth: usize) -> Place
        ensures { result ≡ place_at self.now depth }
    {
        if depth < self.items.len() {
            self.top(depth).place()
        } else {
            nowhere()
        }
    }

    /// The token of the mark at a depth.
    pub fn kind(&self, depth: usize) -> Kind
        ensures { result ≡ kind_at self.now depth }
    {
        if depth < self.items.len() {
            self.top(depth).kind()
        } else {
            Kind::Semicolon
        }
    }

    /// The node of a tree.
    pub fn node(&self, depth: usize) -> u32
        ensures { result ≡ node_at self.now depth }
    {
        if depth < self.items.len() {
            self.top(depth).node()
        } else {
            0
        }
    }

    /// The form of a tree.
    pub fn form(&self, depth: usize) -> Form
        ensures { result ≡ form_at self.now depth }
    {
        if depth < self.items.len() {
            self.top(depth).form()
        } else {
            Form::Other
        }
    }

    /// The name of a word, a pair or an owner.
    pub fn name(&self, depth: usize) -> Name
        ensures { result ≡ name_at self.now depth }
    {
        if depth < self.items.len() {
            self.top(depth).name()
        } else {
            no_name()
        }
    }

    /// The first name of a pair.
    pub(crate) fn outer(&self, depth: usize) -> Name
        ensures { result ≡ outer_at self.now depth }
    {
        if depth < self.items.len() {
            self.top(depth).outer()
        } else {
            no_name()
        }
    }

    /// The modifiers of a member.
    pub fn modifiers(&self, depth: usize) -> Modifiers
        ensures { result ≡ modifiers_at self.now depth }
    {
        if depth < self.items.len() {
            self.top(depth).modifiers()
        } else {
            no_modifiers()
        }
    }

    /// Whether a member or an owner is of a nested class.
    pub(crate) fn is_nested(&self, depth: usize) -> bool
        ensures { result ≡ nested_at self.now depth }
    {
        if depth < self.items.len() {
            self.top(depth).is_nested()
        } else {
            false
        }
    }

    /// The value itself.
    pub fn value(&self, depth: usize) -> Kept
        ensures { result ≡ value_at self.now depth }
    {
        value_in(self.peek(depth))
    }
}
