// Which methods a node may run, by what it means.
ghost use Rattle.std.specs.Prelude.{◌≡◌, ◌<◌, ◌∷◌, [], All, IfOk, Some, length, map, slice_get};
ghost use Rattle.kr_mean.specs.Program as meaning;
ghost use Rattle.kr_pure_effects.specs.Vocabulary.{all_methods, file_at, IsProgram, method_numbered, methods_run, overriders, table_in, Typed};
ghost use Rattle.kr_pure_effects.specs.Nodes.{node_there};

use crate::known::method_numbered;
use crate::overriders;
use kr_base::NoMemory;
use kr_classes_table::MethodId;
use kr_types::Program;
use kr_types_resolving::Meaning;
use std::alloc::Global;

/// A method alone.
fn alone(alloc: Global, number: MethodId) -> Result<Vec<MethodId>, NoMemory>
    ensures { IfOk result (λ methods. methods.items ≡ number ∷ []) }
{
    let mut methods = Vec::new(alloc);
    methods.push(number)?;
    Ok(methods)
}

/// The methods that a call of a method on an object may run.
fn overriding(alloc: Global, program: &Program, number: MethodId) -> Result<Vec<MethodId>, NoMemory>
    requires program { IsProgram program.now }
    requires number { number < length (all_methods (table_in program.now.trees.items)) }
    ensures within { IfOk result (λ methods. All (λ k. k < length (all_methods (table_in program.now.trees.items))) methods.items) }
    ensures shown { IfOk result (λ methods. (mean : meaning.Program) → mean.table ≡ table_in program.now.trees.items → map (method_numbered (table_in program.now.trees.items)) methods.items ≡ overriders mean (method_numbered (table_in program.now.trees.items) number)) }
{
    let method = method_numbered(program, number);
    overriders(
        alloc,
        &program.trees,
        &program.table.members,
        &program.roster,
        method,
    )
}

/// The methods that a node may run.
pub(crate) fn methods_of(
    alloc: Global,
    program: &Program,
    file: u32,
    node: u32,
) -> Result<Vec<MethodId>, NoMemory>
    requires program { IsProgram program.now }
    requires file { file < length program.now.trees.items }
    requires node { node < length (file_at program.now.trees.items file).entries }
    ensures within { IfOk result (λ methods. All (λ k. k < length (all_methods (table_in program.now.trees.items))) methods.items) }
    ensures shown { IfOk result (λ methods. (mean : meaning.Program) (t : Typed) → mean.table ≡ table_in program.now.trees.items → slice_get program.now.files.items file ≡ Some t → let n = node_there program.now.trees.items file t node in map (method_numbered (table_in program.now.trees.items)) methods.items ≡ methods_run mean n.scope n.tree) }
{
    match program.meaning_of(file, node) {
        Meaning::Virtual(number) => overriding(alloc, program, number),
        Meaning::Static(number) => alone(alloc, number),
        Meaning::Super(number) => alone(alloc, number),
        _ => Ok(Vec::new(alloc)),
    }
}
