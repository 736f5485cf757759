// The class rules on the names of methods (C5, C6).
ghost use Rattle.std.specs.Prelude.{◌≡◌, ◌<◌, not, List, [], Some, None, map, bytes_eq};
ghost use Rattle.std.specs.List.{position_from};
ghost use Rattle.kr_ast.specs.Arena.{Arena};
ghost use Rattle.kr_classes_table.specs.Table.{is_number, own_methods};
ghost use Rattle.kr_classes_table.specs.Rules.{C6, is_name_among, least, object_methods, repeated};
ghost use Rattle.kr_classes_members.specs.Kept.{AreMembers, class_count};
ghost use Rattle.kr_classes.specs.Faults.{class_in, fault_at, method_places};
ghost use Rattle.kr_classes_members.specs.Shown.{table_in};

use crate::places::{earlier, if_broken};
use kr_ast::{Tree, tree_of};
use kr_base::Place;
use kr_classes_members::Members;
use kr_classes_table::ClassId;

/// Whether a method has the name of one before it in its class.
fn is_repeated_method(members: &Members, class: ClassId, number: usize, name: &[u8]) -> bool
    ensures { (files : List Arena) → AreMembers files members.now → result ≡ not (is_number (position_from (bytes_eq name.now) 0 (map (λ m. m.name) (own_methods (table_in files) class))) (Some number)) }
{
    match members.own_method_number(class, name) {
        None => true,
        Some(first) => first as usize != number,
    }
}

/// The first method that has the name of one before it.
pub(crate) fn repeated_method(trees: &[Tree], members: &Members, class: ClassId) -> Option<Place>
    requires { AreMembers trees.now members.now }
    ensures { fault_at 5 result ≡ least (repeated 5 [] (method_places (own_methods (table_in trees.now) class))) }
{
    let mut first = None;
    for (number, method) in members.methods(class).iter().enumerate() {
        let name = tree_of(trees, method.file).name(method.name);
        let is_repeated = is_repeated_method(members, class, number, name);
        first = earlier(first, if_broken(is_repeated, method.place));
    }
    first
}

/// Whether every object has a method of this name.
fn is_object_method(name: &[u8]) -> bool
    ensures { result ≡ is_name_among name.now object_methods }
{
    name == b"equals".as_slice()
        || name == b"hashCode".as_slice()
        || name == b"toString".as_slice()
        || name == b"clone".as_slice()
        || name == b"finalize".as_slice()
        || name == b"getClass".as_slice()
}

/// Where rule C6 is broken first in a class.
pub(crate) fn object_method(trees: &[Tree], members: &Members, class: ClassId) -> Option<Place>
    requires members { AreMembers trees.now members.now }
    requires class { class < class_count members.now }
    ensures { fault_at 6 result ≡ least (C6 (table_in trees.now) class (class_in (table_in trees.now) class)) }
{
    let mut first = None;
    for method in members.methods(class) {
        let name = tree_of(trees, method.file).name(method.name);
        first = earlier(first, if_broken(is_object_method(name), method.place));
    }
    first
}
