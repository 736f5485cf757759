// The methods and classes whose code a node may run.
ghost use Rattle.std.specs.Prelude.{◌≡◌, ◌<◌, All, IfOk, Some, length, map, slice_get};
ghost use Rattle.kr_mean.specs.Program as meaning;
ghost use Rattle.kr_pure_effects.specs.Vocabulary.{all_methods, classes_run, file_at, IsProgram, method_numbered, methods_run, table_in, Typed};
ghost use Rattle.kr_pure_effects.specs.Nodes.{node_there};

use crate::callees::methods_of;
use crate::created_classes;
use crate::known::{entry_at, named_type};
use kr_ast::Node;
use kr_base::NoMemory;
use kr_classes_table::MethodId;
use kr_types::Program;
use std::alloc::Global;

/// The code that a node may run: methods, and the classes whose constructors and initial values a creation runs.
#[derive(Drop)]
pub struct Runs {
    pub methods: Vec<MethodId>,
    pub classes: Vec<u32>,
}

/// The classes whose constructors and initial values a node may run.
fn classes_of(alloc: Global, program: &Program, file: u32, node: u32) -> Result<Vec<u32>, NoMemory>
    requires program { IsProgram program.now }
    requires file { file < length program.now.trees.items }
    requires node { node < length (file_at program.now.trees.items file).entries }
    ensures there { IfOk result (λ classes. All (λ c. c < length (table_in program.now.trees.items).classes) classes.items) }
    ensures shown { IfOk result (λ classes. (mean : meaning.Program) (t : Typed) → mean.table ≡ table_in program.now.trees.items → slice_get program.now.files.items file ≡ Some t → let n = node_there program.now.trees.items file t node in classes.items ≡ classes_run mean n.scope n.tree) }
{
    match entry_at(program, file, node).node {
        Node::ObjectCreation { class, .. } => created_classes(
            alloc,
            &program.table.types,
            &program.table.members,
            named_type(program, file, class),
        ),
        _ => Ok(Vec::new(alloc)),
    }
}

/// The code that a node of a program's file may run.
pub fn runs_of(alloc: Global, program: &Program, file: u32, node: u32) -> Result<Runs, NoMemory>
    requires program { IsProgram program.now }
    requires file { file < length program.now.trees.items }
    requires node { node < length (file_at program.now.trees.items file).entries }
    ensures methods { IfOk result (λ runs. All (λ k. k < length (all_methods (table_in program.now.trees.items))) runs.methods.items) }
    ensures classes { IfOk result (λ runs. All (λ c. c < length (table_in program.now.trees.items).classes) runs.classes.items) }
    ensures shown { IfOk result (λ runs. (mean : meaning.Program) (t : Typed) → mean.table ≡ table_in program.now.trees.items → slice_get program.now.files.items file ≡ Some t → let n = node_there program.now.trees.items file t node in (map (method_numbered (table_in program.now.trees.items)) runs.methods.items ≡ methods_run mean n.scope n.tree) × (runs.classes.items ≡ classes_run mean n.scope n.tree)) }
{
    let methods = methods_of(alloc, program, file, node)?;
    let classes = classes_of(alloc, program, file, node)?;
    Ok(Runs { methods, classes })
}
