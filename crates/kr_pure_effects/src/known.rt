// A node's entry and the type that it names; and methods by their numbers.
ghost use Rattle.std.specs.Prelude.{◌≡◌, ◌<◌, length};
ghost use Rattle.kr_pure_effects.specs.Vocabulary.{all_methods, file_at, IsMethod, IsProgram, IsTypeNumber, method_numbered, method_shown, table_in, tree_in, type_named};
ghost use Rattle.kr_pure_effects.specs.Nodes.{IsEntry};

use kr_ast::{Entry, tree_of};
use kr_classes_members::Method;
use kr_classes_table::MethodId;
use kr_types::Program;

/// A node of a file, with its parts.
pub(crate) fn entry_at(program: &Program, file: u32, node: u32) -> Entry
    requires file { file < length program.now.trees.items }
    requires node { node < length (file_at program.now.trees.items file).entries }
    ensures { IsEntry (file_at program.now.trees.items file) node result }
{
    tree_of(&program.trees, file).entry(node)
}

/// The number of the type that a node of a file names.
pub(crate) fn named_type(program: &Program, file: u32, node: u32) -> u32
    requires { IsProgram program.now }
    ensures { IsTypeNumber program.now.table.types result (type_named (table_in program.now.trees.items).headings (tree_in (file_at program.now.trees.items file) node)) }
{
    program.table.numbers.number(file, node)
}

/// A method by its number.
pub(crate) fn method_numbered(program: &Program, number: MethodId) -> Method
    requires program { IsProgram program.now }
    requires number { number < length (all_methods (table_in program.now.trees.items)) }
    ensures stands { IsMethod program.now.trees.items result }
    ensures shown { method_shown program.now.trees.items result ≡ method_numbered (table_in program.now.trees.items) number }
{
    program.roster.methods[number as usize]
}
