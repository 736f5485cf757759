// A program that breaks no rule, and the facts known of its nodes.
ghost use Rattle.std.specs.Prelude.{◌≡◌, ◌<◌, length, Some, slice_get, IfSome, option_map};
ghost use Rattle.kr_types.specs.Vocabulary.{count, file_at, IsMeaningWithin, IsMeant, judged, NodeEntry, table_in, tree_in, type_at, type_in};
ghost use Rattle.kr_types.specs.Programs.{IsProgram, all_entries, scope_there};
ghost use Rattle.kr_types.specs.declared.program.TypedFile.{TypedFile as Typed};

use crate::meaning_list::MeaningList;
use kr_ast::Tree;
use kr_base::Place;
use kr_classes::ClassTable;
use kr_classes_members::Roster;
use kr_classes_table::TypeId;
use kr_types_expressions::{NoteList, part_type};
use kr_types_resolving::Meaning;
use kr_types_scopes::Scopes;

/// The facts known of the nodes of a file: the scope of each, its type, and its meaning.
#[derive(Drop)]
pub struct TypedFile {
    pub scopes: Scopes,
    pub notes: NoteList,
    pub meanings: MeaningList,
}

/// The files of a program, their class table with all types by number, their fields and methods by number, and the
/// facts known of the nodes of each file.
#[derive(Drop)]
pub struct Program {
    pub trees: Vec<Tree>,
    pub table: ClassTable,
    pub roster: Roster,
    pub files: Vec<TypedFile>,
}

impl Program {
    /// The number of nodes of all files. Those of the first file come first.
    pub fn nodes(&self) -> u32
        requires { IsProgram self.now }
        ensures { result ≡ length (all_entries self.now.trees.items) }
    {
        let mut count = 0;
        for tree in self.trees.iter() {
            count += tree.nodes();
        }
        count
    }

    /// The place of a node, by its number among those of all files: its first token, or the name of a declaration.
    pub fn place_of(&self, node: u32) -> Place
        requires { node < length (all_entries self.now.trees.items) }
        ensures { (e : NodeEntry) → slice_get (all_entries self.now.trees.items) node ≡ Some e → result ≡ e.place }
    {
        let mut file = 0;
        let mut rest = node;
        while rest >= self.trees[file].nodes() {
            rest -= self.trees[file].nodes();
            file += 1;
        }
        self.trees[file].entry(rest).place
    }

    /// The type of an expression, by its number among the table's types.
    pub fn type_of(&self, file: u32, node: u32) -> Option<TypeId>
        requires program { IsProgram self.now }
        requires file { file < length self.now.trees.items }
        requires node { node < length (file_at self.now.trees.items file).entries }
        ensures within { IfSome result (λ t. t < count self.now.table.types) }
        ensures shown { (t : Typed) → slice_get self.now.files.items file ≡ Some t → option_map (type_at self.now.table.types) result ≡ type_in (judged (scope_there self.now.trees.items file t node) (tree_in (file_at self.now.trees.items file) node)).typed }
    {
        let notes = &self.files[file as usize].notes;
        part_type(notes.at(node).known)
    }

    /// The meaning of a node.
    pub fn meaning_of(&self, file: u32, node: u32) -> Meaning
        requires program { IsProgram self.now }
        requires file { file < length self.now.trees.items }
        requires node { node < length (file_at self.now.trees.items file).entries }
        ensures within { IsMeaningWithin (table_in self.now.trees.items) result }
        ensures meant { (t : Typed) → slice_get self.now.files.items file ≡ Some t → IsMeant (table_in self.now.trees.items) (scope_there self.now.trees.items file t node) (tree_in (file_at self.now.trees.items file) node) result }
    {
        self.files[file as usize].meanings.at(node)
    }
}
