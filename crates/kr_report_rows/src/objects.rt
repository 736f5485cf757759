// The objects that a structure names, each once.
ghost use Rattle.std.specs.Prelude.{◌≡◌, ◌∷◌, [], flat_map, if◌then◌else◌, map, not, option_to_list, take};
ghost use Rattle.std.proofs.Common.{get_or};
ghost use Rattle.kr_report_rows.specs.Vocabulary.{all_objects, bare, is_same_object, no_domain_object, object_of, objects_in};
ghost use Rattle.kr_report_rows.specs.Parts.{entry_objects, is_new, new_in};

use crate::places::{are_same, numbered};
use kr_iso::Object;
use kr_space_layout::Layout;
use kr_value::{Obj, Value};

/// The object of a number that isn't there.
const NOBODY: Object = Object {
    domain: 0,
    number: 0,
};

/// Whether a number is another object's than this, which has a number too.
#[inline(always)]
fn is_apart(layout: &Layout, number: Obj, object: Object, other: Obj) -> bool
    requires { object_of object ≡ get_or (all_objects (bare layout.now)) number no_domain_object }
    ensures { result ≡ not (is_same_object (get_or (all_objects (bare layout.now)) other no_domain_object) (object_of object)) }
{
    if are_same(object, NOBODY) {
        return !are_same(numbered(layout, other), object);
    }
    other != number
}

/// Whether a value is another object than that of a number, or none.
#[inline(always)]
#[tactic(auto, using(crate::proofs::Fresh::one_new))]
fn is_other(layout: &Layout, value: Value, number: Obj, object: Object) -> bool
    requires { object_of object ≡ get_or (all_objects (bare layout.now)) number no_domain_object }
    ensures { result ≡ is_new (objects_in (bare layout.now) value) (object_of object) }
{
    match value {
        Value::Int(_) => true,
        Value::Bool(_) => true,
        Value::Null => true,
        Value::Ref(other) => is_apart(layout, number, object, other),
    }
}

/// Whether so many entries of a structure don't name the object of a number.
fn is_first(
    layout: &Layout,
    structure: &[(u32, Value)],
    count: usize,
    number: Obj,
    object: Object,
) -> bool
    requires { object_of object ≡ get_or (all_objects (bare layout.now)) number no_domain_object }
    ensures { result ≡ is_new (flat_map (entry_objects (bare layout.now)) (take count structure.now)) (object_of object) }
{
    let mut left = count;
    for entry in structure {
        if left == 0 {
            return true;
        }
        if !is_other(layout, entry.1, number, object) {
            return false;
        }
        left -= 1;
    }
    true
}

/// An object, where the test says so.
fn where_first(first: bool, object: Object) -> Option<Object>
    ensures { map object_of (option_to_list result) ≡ (if first then object_of object ∷ [] else []) }
{
    if first { Some(object) } else { None }
}

/// The object that a value is, where so many entries of a structure don't name it.
pub(crate) fn named_by(
    layout: &Layout,
    structure: &[(u32, Value)],
    count: usize,
    value: Value,
) -> Option<Object>
    ensures { map object_of (option_to_list result) ≡ new_in (flat_map (entry_objects (bare layout.now)) (take count structure.now)) (objects_in (bare layout.now) value) }
{
    match value {
        Value::Int(_) => None,
        Value::Bool(_) => None,
        Value::Null => None,
        Value::Ref(number) => {
            let object = numbered(layout, number);
            where_first(is_first(layout, structure, count, number, object), object)
        }
    }
}
