// The class rules on methods that override: C5 on their parameters, C7 on `static` and their results.
ghost use Rattle.std.specs.Prelude.{◌≡◌, ◌<◌, List, Some, None, IfOk, IfSome, length, map, All, option_map, option_to_list};
ghost use Rattle.kr_ast.specs.Arena.{Arena, tree_in};
ghost use Rattle.kr_classes_table.specs.Table.{parameter_in, parameters_in};
ghost use Rattle.kr_classes_table.specs.Rules.{result_fits, same_types};
ghost use Rattle.kr_ast.specs.Files.{file_at};
ghost use Rattle.kr_classes_members.specs.Shown.{table_in, IsMethod, headings_in, method_shown};
ghost use Rattle.kr_classes_members.specs.Kept.{AreMembers};
ghost use Rattle.kr_classes_names.specs.Types.{TypeList, count, type_at};
ghost use Rattle.kr_classes_names.specs.Numbers.{AreNodeTypes};
ghost use Rattle.kr_classes.specs.Overriding.{are_same, is_shared};

use kr_ast::{Node, Tree, tree_of};
use kr_base::{NoMemory, add_found};
use kr_classes_members::{Members, Method};
use kr_classes_names::{NodeTypes, Types, items};
use kr_classes_table::TypeId;
use kr_types_judging::is_assignable;
use std::alloc::Global;

/// The part that an overriding method must share with the overridden one: the types of the parameters; `static` and the
/// result.
#[derive(Clone, Copy)]
pub(crate) enum Shared {
    Parameters,
    ResultType,
}

/// The number of the type of a parameter.
fn parameter_type(trees: &[Tree], numbers: &NodeTypes, file: u32, node: u32) -> Option<TypeId>
    requires file { file < length trees.now }
    requires node { node < length (file_at trees.now file).entries }
    ensures within { (l : TypeList) → AreNodeTypes trees.now l numbers.now → IfSome result (λ n. n < count l) }
    ensures shown { (l : TypeList) → AreNodeTypes trees.now l numbers.now → option_to_list (option_map (type_at l) result) ≡ map (λ p. p.type) (parameter_in (headings_in trees.now) (tree_in (file_at trees.now file) node)) }
{
    match tree_of(trees, file).entry(node).node {
        Node::Parameter { declared, .. } => Some(numbers.number(file, declared)),
        _ => None,
    }
}

/// The numbers of the types of a list of parameters.
fn parameter_types(
    alloc: Global,
    trees: &[Tree],
    numbers: &NodeTypes,
    file: u32,
    list: u32,
) -> Result<Vec<TypeId>, NoMemory>
    requires file { file < length trees.now }
    requires list { list < length (file_at trees.now file).entries }
    ensures within { (l : TypeList) → AreNodeTypes trees.now l numbers.now → IfOk result (λ found. All (λ n. n < count l) found.items) }
    ensures shown { (l : TypeList) → AreNodeTypes trees.now l numbers.now → IfOk result (λ found. map (type_at l) found.items ≡ map (λ p. p.type) (parameters_in (headings_in trees.now) (tree_in (file_at trees.now file) list))) }
{
    let nodes = items(alloc, tree_of(trees, file), list)?;
    let mut found = Vec::new(alloc);
    for node in nodes.iter() {
        add_found(&mut found, parameter_type(trees, numbers, file, *node))?;
    }
    Ok(found)
}

/// Whether there are as many types, each equal.
fn are_equal(types: &Types, first: &[TypeId], second: &[TypeId]) -> bool
    requires first { All (λ n. n < count types.now) first.now }
    requires second { All (λ n. n < count types.now) second.now }
    ensures { result ≡ are_same (map (type_at types.now) first.now) (map (type_at types.now) second.now) }
{
    if first.len() != second.len() {
        return false;
    }
    for number in 0..first.len() {
        if !types.is_same(first[number], second[number]) {
            return false;
        }
    }
    true
}

/// Whether the types of the parameters are equal.
pub(crate) fn same_parameters(
    alloc: Global,
    trees: &[Tree],
    types: &Types,
    numbers: &NodeTypes,
    method: Method,
    above: Method,
) -> Result<bool, NoMemory>
    requires method { IsMethod trees.now method }
    requires above { IsMethod trees.now above }
    requires numbers { AreNodeTypes trees.now types.now numbers.now }
    ensures { IfOk result (λ same. same ≡ same_types (method_shown trees.now method).parameters (method_shown trees.now above).parameters) }
{
    let own = parameter_types(alloc, trees, numbers, method.file, method.parameters)?;
    let other = parameter_types(alloc, trees, numbers, above.file, above.parameters)?;
    Ok(are_equal(types, &own, &other))
}

/// Whether a type may be the result of a method that overrides one of another result.
fn result_type_fits(types: &Types, members: &Members, own: TypeId, above: TypeId) -> bool
    requires own { own < count types.now }
    requires above { above < count types.now }
    ensures { (files : List Arena) → AreMembers files members.now → result ≡ result_fits (table_in files) (type_at types.now own) (type_at types.now above) }
{
    types.is_same(own, above)
        || (types.is_reference(own)
            && types.is_reference(above)
            && is_assignable(types, members, own, above))
}

/// Whether both methods are static or neither is, and the result fits.
pub(crate) fn same_kind(
    trees: &[Tree],
    members: &Members,
    types: &Types,
    numbers: &NodeTypes,
    method: Method,
    above: Method,
) -> bool
    requires members { AreMembers trees.now members.now }
    requires numbers { AreNodeTypes trees.now types.now numbers.now }
    ensures { result ≡ is_shared Shared.ResultType (table_in trees.now) (method_shown trees.now method) (method_shown trees.now above) }
{
    let own = numbers.number(method.file, method.result);
    let other = numbers.number(above.file, above.result);
    method.is_static == above.is_static && result_type_fits(types, members, own, other)
}
