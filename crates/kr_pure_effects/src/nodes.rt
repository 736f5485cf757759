// The touch of a node.
ghost use Rattle.std.specs.Prelude.{◌≡◌, ◌<◌, Some, length, slice_get};
ghost use Rattle.kr_mean.specs.Program as meaning;
ghost use Rattle.kr_pure_effects.specs.Vocabulary.{Class, file_at, IsProgram, may_touch, running, scope_there, target_of, tree_in, Typed, writes_to};
ghost use Rattle.kr_pure_effects.specs.Nodes.{node_there};
ghost use Rattle.kr_pure_effects.specs.Touches.{IsTouchWithin, touches};

use crate::known::{entry_at, named_type};
use crate::targets::{creation_touch, element_touch, field_touch};
use crate::touch::Touch;
use kr_ast::Node;
use kr_types::Program;

/// A write of a target.
fn written_touch(program: &Program, file: u32, target: u32) -> Touch
    requires program { IsProgram program.now }
    requires file { file < length program.now.trees.items }
    requires target { target < length (file_at program.now.trees.items file).entries }
    ensures within { IsTouchWithin program.now.table.types result }
    ensures shown { (mean : meaning.Program) (t : Typed) (class : Class) → slice_get program.now.files.items file ≡ Some t → touches mean program.now.table.types result class ≡ writes_to mean (target_of (running (scope_there program.now.trees.items file t target)) (tree_in (file_at program.now.trees.items file) target)) class }
{
    match entry_at(program, file, target).node {
        Node::ArrayAccess { array, .. } => {
            element_touch(&program.table.types, program.type_of(file, array))
        }
        _ => field_touch(program, program.meaning_of(file, target)),
    }
}

/// The touch of a node of a program's file.
pub fn touch_of(program: &Program, file: u32, node: u32) -> Touch
    requires program { IsProgram program.now }
    requires file { file < length program.now.trees.items }
    requires node { node < length (file_at program.now.trees.items file).entries }
    ensures within { IsTouchWithin program.now.table.types result }
    ensures shown { (mean : meaning.Program) (t : Typed) (class : Class) → slice_get program.now.files.items file ≡ Some t → let n = node_there program.now.trees.items file t node in touches mean program.now.table.types result class ≡ may_touch mean n.scope n.tree class }
{
    match entry_at(program, file, node).node {
        Node::Assignment { target, .. } => written_touch(program, file, target),
        Node::CompoundAssignment { target, .. } => written_touch(program, file, target),
        Node::Step { target, .. } => written_touch(program, file, target),
        Node::ObjectCreation { class, .. } => {
            creation_touch(&program.table.types, named_type(program, file, class))
        }
        Node::ArrayCreation { element, .. } => {
            Touch::Elements(named_type(program, file, element))
        }
        _ => Touch::Nothing,
    }
}
