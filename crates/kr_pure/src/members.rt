// The entries of what may be run: the bodies of methods, and what creations run of classes.
ghost use Rattle.std.specs.Prelude.{◌≡◌, ◌<◌, ◌++◌, List, All, IfOk, flat_map, length, map};
ghost use Rattle.kr_classes_table.specs.Types.{JavaType};
ghost use Rattle.kr_classes_members.specs.Rosters.{all_methods, method_numbered};
ghost use Rattle.kr_mean.specs.Program.{program_with};
ghost use Rattle.kr_mean.specs.Code.{Node as CodeNode, code_of_class, code_of_method};
ghost use Rattle.kr_code_members.specs.Nodes.{AreMemberNodes, table};
ghost use Rattle.kr_pure.specs.Entries.{Enter, class_entries, constructor_entries, initial_entry};

use kr_ast::NodeId;
use kr_base::NoMemory;
use kr_classes_table::MethodId;
use kr_code_members::{ClassNodes, ConstructorNode, FieldNode, MemberNodes};
use kr_types::Program;

/// Adds the bodies of methods.
#[inline(always)]
pub(crate) fn add_bodies(
    _program: &Program,
    nodes: &MemberNodes,
    methods: &[MethodId],
    entries: &mut Vec<NodeId>,
) -> Result<(), NoMemory>
    requires nodes { AreMemberNodes _program.now nodes.now }
    requires methods { All (λ k. k < length (all_methods (table _program.now))) methods.now }
    ensures { (before : List CodeNode) (arrays : List JavaType) → IfOk result (λ done. Enter _program.now before entries.old.items → Enter _program.now (before ++ flat_map (code_of_method (program_with (table _program.now) arrays)) (map (method_numbered (table _program.now)) methods.now)) entries.new.items) }
{
    for method in methods {
        let found = nodes.methods[*method as usize];
        entries.push(NodeId {
            file: found.file,
            node: found.body,
        })?;
    }
    Ok(())
}

/// Adds the initial values of a class's instance fields.
fn add_initials(fields: &[FieldNode], entries: &mut Vec<NodeId>) -> Result<(), NoMemory>
    ensures { IfOk result (λ done. entries.new.items ≡ entries.old.items ++ flat_map initial_entry fields.now) }
{
    for field in fields {
        if !field.is_static {
            entries.push(NodeId {
                file: field.file,
                node: field.initial,
            })?;
        }
    }
    Ok(())
}

/// Adds what a constructor runs, if there is one.
fn add_constructor(
    constructor: Option<ConstructorNode>,
    entries: &mut Vec<NodeId>,
) -> Result<(), NoMemory>
    ensures { IfOk result (λ done. entries.new.items ≡ entries.old.items ++ constructor_entries constructor) }
{
    match constructor {
        None => Ok(()),
        Some(found) => {
            entries.push(NodeId {
                file: found.file,
                node: found.super_call,
            })?;
            entries.push(NodeId {
                file: found.file,
                node: found.body,
            })?;
            Ok(())
        }
    }
}

/// Adds what a creation runs of a class.
fn add_class(class: &ClassNodes, entries: &mut Vec<NodeId>) -> Result<(), NoMemory>
    ensures { IfOk result (λ done. entries.new.items ≡ entries.old.items ++ class_entries class.now) }
{
    add_initials(&class.fields, entries)?;
    add_constructor(class.constructor, entries)
}

/// Adds what creations run of classes.
pub(crate) fn add_classes(
    program: &Program,
    nodes: &MemberNodes,
    classes: &[u32],
    entries: &mut Vec<NodeId>,
) -> Result<(), NoMemory>
    requires nodes { AreMemberNodes program.now nodes.now }
    requires classes { All (λ c. c < length (table program.now).classes) classes.now }
    ensures { (before : List CodeNode) (arrays : List JavaType) → IfOk result (λ done. Enter program.now before entries.old.items → Enter program.now (before ++ flat_map (code_of_class (program_with (table program.now) arrays)) classes.now) entries.new.items) }
{
    for class in classes {
        add_class(&nodes.classes[*class as usize], entries)?;
    }
    Ok(())
}
