// Types that are made of others: an array, and a set of arrays.
ghost use Rattle.std.specs.Prelude.{◌<◌, IfSome};
ghost use Rattle.kr_classes_names.specs.Types.{TypeList, count};
ghost use Rattle.kr_classes_names.specs.Numbers.{AreNodeTypes};
ghost use Rattle.kr_types_judging.specs.Shown.{IsNoteWithin};
ghost use Rattle.kr_sources.specs.Sources.{AreSources};

use kr_ast::{Node, Tree};
use kr_base::{NoMemory, Place};
use kr_classes_names::{NodeTypes, TypeForm, Types};
use kr_sources::Sources;
use kr_types_judging::{Known, Note, Typed};
use kr_types_statements::{array_type_note, generic_type_note};
use std::alloc::Global;

const PLACE: Place = Place {
    file: 0,
    line: 1,
    col: 1,
};

/// The note of a node with a value of a type.
fn value(number: u32) -> Note
    ensures { (l : TypeList) → number < count l → IsNoteWithin l result }
{
    Note {
        known: Known::One(Typed::Value(number)),
        least: None,
    }
}

/// The type of a node's value that breaks no rule, if it is one of these types.
fn sound_type(types: &Types, note: Note) -> Option<u32>
    ensures { IfSome result (λ t. t < count types.now) }
{
    match note.known {
        Known::One(Typed::Value(number)) => {
            if note.least.is_none() && (number as usize) < types.len() {
                Some(number)
            } else {
                None
            }
        }
        _ => None,
    }
}

fn is_element(types: &Types, note: Note) -> bool {
    match sound_type(types, note) {
        None => false,
        Some(number) => types.is_element(number),
    }
}

fn is_collection(types: &Types, note: Note) -> bool {
    match sound_type(types, note) {
        None => false,
        Some(number) => types.is_collection(number),
    }
}

/// `int[]`
fn array_fits(types: &mut Types) -> Result<bool, NoMemory> {
    let int = types.int();
    let array = array_type_note(types, PLACE, value(int))?;
    Ok(is_element(types, array))
}

#[test]
fn an_array_of_ints(rt: HostRuntime) -> Result<(), NoMemory> {
    let mut types = Types::new(rt.alloc())?;
    let fits = array_fits(&mut types)?;
    assert!(rt; fits);
    Ok(())
}

/// The first node of the first file that is a name of a type.
fn first_name(trees: &[Tree]) -> u32 {
    match trees.first() {
        None => 0,
        Some(tree) => {
            for node in 0..tree.nodes() {
                if matches!(tree.entry(node).node, Node::NamedType { .. }) {
                    return node;
                }
            }
            0
        }
    }
}

/// The name applied to an array type.
fn applied_fits(
    trees: &[Tree],
    types: &mut Types,
    numbers: &NodeTypes,
    array: u32,
) -> Result<bool, NoMemory>
    requires numbers { AreNodeTypes trees.now types.old numbers.now }
    requires array { array < count types.old }
{
    let head = first_name(trees);
    let set = generic_type_note(trees, types, numbers, 0, head, PLACE, value(array))?;
    Ok(is_collection(types, set))
}

fn read_fits(alloc: Global, sources: &Sources<'_>, types: &mut Types) -> Result<bool, NoMemory>
    requires { AreSources sources.now }
{
    let int = types.int();
    let array = types.number(TypeForm::Array(int))?;
    let numbers = NodeTypes::read(alloc, sources.trees, sources.heads, types)?;
    if (array as usize) < types.len() {
        applied_fits(sources.trees, types, &numbers, array)
    } else {
        Ok(false)
    }
}

/// The name `HashSet` of a file, applied to `int[]`.
pub fn set_fits(alloc: Global, sources: &Sources<'_>) -> Result<bool, NoMemory>
    requires { AreSources sources.now }
{
    let mut types = Types::new(alloc)?;
    read_fits(alloc, sources, &mut types)
}
