// The outcome of a constant's initial value: a walk over its nodes with an explicit stack.
ghost use Rattle.std.specs.Prelude.{◌≡◌, ◌+◌, ◌<◌, List, length, pos, IfOk};
ghost use Rattle.kr_classes_table.specs.Numbers.{Bits32, Bits64, wrap};
ghost use Rattle.kr_base.specs.declared.place.Place.{Place};
ghost use Rattle.kr_ast.specs.Arena.{AreNamesIn, names, parts, tree_in};
ghost use Rattle.kr_classes_table.specs.Constants.{Known, is_primitive};
ghost use Rattle.kr_classes_names.specs.Shown.{AreHeads};
ghost use Rattle.kr_ast.specs.Files.{file_at};
ghost use Rattle.kr_classes_members.specs.Kept.{AreMembers};
ghost use Rattle.kr_classes_members.specs.Shown.{table_in};
ghost use Rattle.kr_classes_constants.specs.declared.frames.Task.TheVariants.{Look};
ghost use Rattle.kr_ast.specs.Arena.{AreBelow};
ghost use Rattle.kr_classes_constants.specs.Frames.{AreWithin, IsWithin, frame_weights, node_outcome, outcome_at, resumed, setting, tree_weight, weights, whole};
ghost use Rattle.kr_classes_constants.specs.Kept.{AreValues};
ghost use Rattle.kr_classes_constants.specs.Outcomes.{found_shown};

use crate::frames::{Frame, Frames, Task, resume};
use crate::known::Values;
use crate::names::{Site, access_note, name_note};
use crate::note::Found;
use crate::widths::number_width;
use kr_ast::{Node, Tree, tree_of};
use kr_base::NoMemory;
use kr_classes_members::Members;
use kr_classes_names::Heads;
use kr_value::{Value, Width};
use std::alloc::Global;

/// Whether a type's node is a primitive type.
fn is_primitive_type(tree: &Tree, node: u32) -> bool
    requires { node < length tree.now.entries }
    ensures { result ≡ is_primitive (tree_in tree.now node) }
{
    match tree.entry(node).node {
        Node::PrimitiveType { .. } => true,
        _ => false,
    }
}

/// The value of an int's literal, which wraps.
fn int_value(value: u32) -> Value
    ensures { result ≡ Value.Int (wrap Bits32 (pos value)) }
{
    Value::Int(i64::from(value.cast_signed()))
}

/// The value of a long's literal, likewise.
#[tactic(auto, using(crate::proofs::Rules::whole_of_64))]
fn long_value(value: u64) -> Value
    ensures { result ≡ Value.Int (wrap Bits64 (pos value)) }
{
    Value::Int(value.cast_signed())
}

/// Looks at a node: gives its outcome, or continues with its first part.
fn look_at(
    trees: &[Tree],
    heads: &Heads,
    members: &Members,
    values: &Values,
    site: Site,
    frames: &mut Frames,
    node: Node,
) -> Result<Task, NoMemory>
    requires heads { AreHeads trees.now heads.now }
    requires members { AreMembers trees.now members.now }
    requires file { site.file < length trees.now }
    requires parts { AreBelow (length (file_at trees.now site.file).entries) (parts node) }
    requires names { AreNamesIn (file_at trees.now site.file).text (names node) }
    ensures within { IfOk result (λ task. AreWithin (length (file_at trees.now site.file).entries) frames.old → IsWithin (length (file_at trees.now site.file).entries) task × AreWithin (length (file_at trees.now site.file).entries) frames.new) }
    ensures light { IfOk result (λ task. (p : Place) → weights (file_at trees.now site.file) task frames.new < tree_weight (file_at trees.now site.file) p node + frame_weights (file_at trees.now site.file) frames.old) }
    ensures same { IfOk result (λ task. (known : List Known) → AreValues known values.now → whole (setting (table_in trees.now) known site.class (file_at trees.now site.file)) task frames.new ≡ resumed (setting (table_in trees.now) known site.class (file_at trees.now site.file)) frames.old (node_outcome (setting (table_in trees.now) known site.class (file_at trees.now site.file)) node)) }
{
    let tree = tree_of(trees, site.file);
    match node {
        Node::Number { value } => {
            let number = int_value(value);
            Ok(Task::Give(Found::value(Width::Bits32, number)))
        }
        Node::LongNumber { value } => {
            let number = long_value(value);
            Ok(Task::Give(Found::value(Width::Bits64, number)))
        }
        Node::Truth { value } => {
            let truth = Found::value(Width::Bits32, Value::Bool(value));
            Ok(Task::Give(truth))
        }
        Node::Null => Ok(Task::Give(Found::value(Width::Bits32, Value::Null))),
        Node::Variable { name } => {
            let note = name_note(trees, members, values, site.class, tree.name(name));
            Ok(Task::Give(note))
        }
        Node::FieldAccess { object, name } => {
            let name = tree.name(name);
            let note = access_note(trees, heads, members, values, site, object, name);
            Ok(Task::Give(note))
        }
        Node::Unary { operator, operand } => {
            frames.push(Frame::Operand(operator))?;
            Ok(Task::Look(operand))
        }
        Node::Binary {
            operator,
            left,
            right,
        } => {
            frames.push(Frame::Left { operator, right })?;
            Ok(Task::Look(left))
        }
        Node::Conditional {
            condition,
            holds,
            fails,
        } => {
            frames.push(Frame::Condition { holds, fails })?;
            Ok(Task::Look(condition))
        }
        Node::Cast { target, operand } => {
            if is_primitive_type(tree, target) {
                frames.push(Frame::Cast(number_width(tree, target)))?;
                Ok(Task::Look(operand))
            } else {
                Ok(Task::Give(Found::none()))
            }
        }
        _ => Ok(Task::Give(Found::none())),
    }
}

/// Looks at the node of a number.
fn look(
    trees: &[Tree],
    heads: &Heads,
    members: &Members,
    values: &Values,
    site: Site,
    frames: &mut Frames,
    node: u32,
) -> Result<Task, NoMemory>
    requires heads { AreHeads trees.now heads.now }
    requires members { AreMembers trees.now members.now }
    requires file { site.file < length trees.now }
    requires node { node < length (file_at trees.now site.file).entries }
    ensures within { IfOk result (λ task. AreWithin (length (file_at trees.now site.file).entries) frames.old → IsWithin (length (file_at trees.now site.file).entries) task × AreWithin (length (file_at trees.now site.file).entries) frames.new) }
    ensures light { IfOk result (λ task. weights (file_at trees.now site.file) task frames.new < weights (file_at trees.now site.file) (Look node) frames.old) }
    ensures same { IfOk result (λ task. (known : List Known) → AreValues known values.now → whole (setting (table_in trees.now) known site.class (file_at trees.now site.file)) task frames.new ≡ whole (setting (table_in trees.now) known site.class (file_at trees.now site.file)) (Look node) frames.old) }
{
    let entry = tree_of(trees, site.file).entry(node);
    look_at(trees, heads, members, values, site, frames, entry.node)
}

/// The outcome of the expression at a node.
pub(crate) fn note_of(
    alloc: Global,
    trees: &[Tree],
    heads: &Heads,
    members: &Members,
    values: &Values,
    site: Site,
    node: u32,
) -> Result<Found, NoMemory>
    requires heads { AreHeads trees.now heads.now }
    requires members { AreMembers trees.now members.now }
    requires file { site.file < length trees.now }
    requires node { node < length (file_at trees.now site.file).entries }
    ensures { IfOk result (λ note. (known : List Known) → AreValues known values.now → found_shown note ≡ outcome_at (setting (table_in trees.now) known site.class (file_at trees.now site.file)) node) }
{
    let mut frames = Frames::new(alloc);
    let mut task = Task::Look(node);
    loop {
        match task {
            Task::Look(at) => {
                task = look(trees, heads, members, values, site, &mut frames, at)?;
            }
            Task::Give(note) => match frames.pop() {
                None => return Ok(note),
                Some(frame) => {
                    task = resume(&mut frames, frame, note)?;
                }
            },
        }
    }
}
