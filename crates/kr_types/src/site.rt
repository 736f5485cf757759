// The context for the notes of a file's nodes.
ghost use Rattle.std.specs.Prelude.{◌≡◌, ◌<◌, IfSome, IsTrue, length, option_map, slice_index_or};
ghost use Rattle.kr_types.specs.Vocabulary.{all_methods, AreHeads, AreNotesWithin, AreScopes, class_there, IsLinked, IsMethod, IsNoteWithin, IsRestBelow, IsRoster, method_numbered, method_shown, note_at, note_shown, nowhere, shown_notes, table_in, typed_in};
ghost use Rattle.kr_types.specs.Programs.{setting_in};
ghost use Rattle.kr_types.specs.Sites.{IsInside, scope_here, IsSpot, tree_there};

use kr_ast::{Node, Tree, tree_of};
use kr_base::Place;
use kr_classes_constants::Values;
use kr_classes_members::{Members, Method, Roster};
use kr_classes_names::{Heads, NodeTypes, Types};
use kr_classes_table::{ClassId, MethodId};
use kr_types_expressions::{NoteList, class_of};
use kr_types_judging::Note;
use kr_types_scopes::{Scopes, Within};

/// A node of the file: its number and its position.
#[derive(Clone, Copy)]
pub(crate) struct Spot {
    pub(crate) at: u32,
    pub(crate) place: Place,
    pub(crate) node: Node,
}

/// The class whose code a node is in, and the node that declares it.
#[derive(Clone, Copy)]
pub(crate) struct Inside {
    pub(crate) declared: Option<u32>,
    pub(crate) class: ClassId,
}

impl Inside {
    /// Whether a scope is in the code of this class.
    fn is_of(self, here: Within) -> bool
        ensures { IsTrue result → here.class ≡ self.declared }
    {
        match (self.declared, here.class) {
            (Some(a), Some(b)) => a == b,
            (None, None) => true,
            (None, Some(_)) => false,
            (Some(_), None) => false,
        }
    }
}

/// A file of a program: the class table without its types, which grow, and the scopes of the file's nodes.
#[derive(Clone, Copy)]
pub(crate) struct Site<'a> {
    pub(crate) trees: &'a [Tree],
    pub(crate) heads: &'a Heads,
    pub(crate) members: &'a Members,
    pub(crate) roster: &'a Roster,
    pub(crate) numbers: &'a NodeTypes,
    pub(crate) values: &'a Values,
    pub(crate) scopes: &'a Scopes,
    pub(crate) file: u32,
}

impl<'a> Site<'a> {
    /// The tree of the file.
    pub(crate) fn tree(&self) -> &'a Tree
        requires { self.now.file < length self.now.trees.now }
        ensures { result.now ≡ tree_there self.now }
    {
        tree_of(self.trees, self.file)
    }

    /// A node by its number.
    pub(crate) fn spot(&self, at: u32) -> Spot
        requires file { self.now.file < length self.now.trees.now }
        requires at { at < length (tree_there self.now).entries }
        ensures { IsSpot self.now at result }
    {
        let entry = self.tree().entry(at);
        Spot {
            at,
            place: entry.place,
            node: entry.node,
        }
    }

    /// The scope of a node.
    pub(crate) fn here(&self, at: u32) -> Within
        requires scopes { AreScopes (tree_there self.now) self.now.scopes.now.bindings.items self.now.scopes.now.within.items }
        requires at { at < length (tree_there self.now).entries }
        ensures { result ≡ slice_index_or self.now.scopes.now.within.items at nowhere }
    {
        self.scopes.at(at)
    }

    /// The class whose code a scope is in; the first one outside of classes.
    pub(crate) fn class(&self, here: Within) -> ClassId
        requires heads { AreHeads self.now.trees.now self.now.heads.now }
        requires file { self.now.file < length self.now.trees.now }
        ensures { class_there (setting_in self.now.trees.now self.now.file) here.class ≡ result }
    {
        match here.class {
            None => 0,
            Some(node) => {
                if node < self.tree().nodes() {
                    class_of(self.trees, self.heads, self.file, Some(node))
                } else {
                    0
                }
            }
        }
    }

    /// The class whose code a scope is in, looked up only if it isn't the previous one.
    pub(crate) fn inside(&self, before: Inside, here: Within) -> Inside
        requires heads { AreHeads self.now.trees.now self.now.heads.now }
        requires file { self.now.file < length self.now.trees.now }
        requires before { IsInside self.now before }
        ensures inside { IsInside self.now result }
        ensures here { (scope_here self.now here).class ≡ result.class }
    {
        if before.is_of(here) {
            before
        } else {
            Inside {
                declared: here.class,
                class: self.class(here),
            }
        }
    }

    /// A method by its number.
    pub(crate) fn method_at(&self, found: Option<MethodId>) -> Option<Method>
        requires roster { IsRoster self.now.trees.now self.now.roster.now }
        requires found { IfSome found (λ k. k < length (all_methods (table_in self.now.trees.now))) }
        ensures stands { IfSome result (IsMethod self.now.trees.now) }
        ensures shown { option_map (method_shown self.now.trees.now) result ≡ option_map (method_numbered (table_in self.now.trees.now)) found }
    {
        match found {
            None => None,
            Some(number) => Some(self.roster.methods[number as usize]),
        }
    }
}

/// The note of a part.
#[inline(always)]
pub(crate) fn part_note(types: &Types, notes: &NoteList, part: u32) -> Note
    requires notes { AreNotesWithin types.now notes.now }
    requires part { part < length notes.now }
    ensures within { IsNoteWithin types.now result }
    ensures below { IsRestBelow (length notes.now) result.known }
    ensures linked { IsLinked (typed_in types.now notes.now) result.known }
    ensures shown { note_shown types.now (typed_in types.now notes.now) result ≡ note_at (shown_notes types.now notes.now) part }
{
    notes.at(part)
}
