// The classes of which a creation runs code.
ghost use Rattle.std.specs.Prelude.{◌≡◌, ◌<◌, All, IfOk, List, length};
ghost use Rattle.kr_pure_effects.specs.Vocabulary.{AreMembers, Arena, classes_of, count, Program, table_in, Tree, type_at, type_named};

use kr_base::NoMemory;
use kr_classes_members::Members;
use kr_classes_names::{TypeForm, Types};
use std::alloc::Global;

/// The classes whose constructors and initial values the creation of an object of a type runs: a class and its ancestors, and
/// none for other types.
pub fn created_classes(
    alloc: Global,
    types: &Types,
    members: &Members,
    created: u32,
) -> Result<Vec<u32>, NoMemory>
    requires { created < count types.now }
    ensures there { (files : List Arena) (tree : Tree) → AreMembers files members.now → type_at types.now created ≡ type_named (table_in files).headings tree → IfOk result (λ classes. All (λ c. c < length (table_in files).classes) classes.items) }
    ensures shown { (files : List Arena) (program : Program) → AreMembers files members.now → program.table ≡ table_in files → IfOk result (λ classes. classes.items ≡ classes_of program (type_at types.now created)) }
{
    match types.form(created) {
        TypeForm::Class(class) => members.line(alloc, class),
        _ => Ok(Vec::new(alloc)),
    }
}
