// The class rules on the names of classes and on what they extend.
ghost use Rattle.std.specs.Prelude.{◌≡◌, ◌<◌, ◌||◌, not, List, Some, length, map, flat_map, is_none, option_to_list};
ghost use Rattle.kr_ast.specs.Arena.{Arena, root, tree_in};
ghost use Rattle.kr_classes_table.specs.Table.{Table, ancestors, headings_of, is_among, is_number, number_of};
ghost use Rattle.kr_classes_table.specs.Rules.{C1, C2, C3, break_if, extended_at, is_name_among, least};
ghost use Rattle.kr_classes_names.specs.Shown.{AreHeads, IsHeading, count_of};
ghost use Rattle.kr_ast.specs.Files.{file_at};
ghost use Rattle.kr_classes.specs.Faults.{AreBelow, AreSuperclasses, collections, fault_at, first_of_rule, superclass_at};
ghost use Rattle.kr_classes_members.specs.Shown.{table_in};

use crate::places::earlier;
use kr_ast::{Node, Tree, tree_of};
use kr_base::Place;
use kr_classes_names::{Heading, Heads};
use kr_classes_table::ClassId;

/// Whether a name is kept for a collection.
fn is_collection(name: &[u8]) -> bool
    ensures { result ≡ is_name_among name.now collections }
{
    name == b"HashSet".as_slice() || name == b"LinkedList".as_slice()
}

/// A class's place where its name is kept for a collection, or an earlier class has it.
fn repeated_place(heads: &Heads, class: usize, name: &[u8], place: Place) -> Option<Place>
    ensures { (files : List Arena) → AreHeads files heads.now → fault_at 1 result ≡ least (break_if (is_name_among name.now collections || not (is_number (number_of (headings_of (map root files)) name.now) (Some class))) 1 place) }
{
    if is_collection(name) {
        return Some(place);
    }
    match heads.number_of(name) {
        None => Some(place),
        Some(first) => {
            if first as usize == class {
                None
            } else {
                Some(place)
            }
        }
    }
}

/// The first class that has the name of a collection or of a class before it (rule C1).
pub fn first_repeated_name(trees: &[Tree], heads: &Heads) -> Option<Place>
    requires { AreHeads trees.now heads.now }
    ensures { fault_at 1 result ≡ least (C1 (table_in trees.now)) }
{
    let mut first = None;
    for (class, heading) in heads.headings().iter().enumerate() {
        let name = tree_of(trees, heading.file).name(heading.name);
        let place = repeated_place(heads, class, name, heading.place);
        first = earlier(first, place);
    }
    first
}

/// Whether a class is its own ancestor.
fn is_own_ancestor(supers: &[Option<ClassId>], class: usize) -> bool
    requires class { class < length supers.now }
    requires below { AreBelow supers.now }
    ensures { (t : Table) → AreSuperclasses supers.now t → result ≡ is_among class (ancestors t class) }
{
    let mut at = supers[class];
    for turn in 0..supers.len() {
        match at {
            None => return false,
            Some(above) => {
                if above as usize == class {
                    return true;
                }
                at = supers[above as usize];
            }
        }
    }
    false
}

/// The place of the name after `extends`.
fn extended_place(trees: &[Tree], heading: Heading) -> Option<Place>
    requires { IsHeading trees.now heading }
    ensures { option_to_list result ≡ extended_at (tree_in (file_at trees.now heading.file) heading.extended) }
{
    let entry = tree_of(trees, heading.file).entry(heading.extended);
    match entry.node {
        Node::NamedType { .. } => Some(entry.place),
        Node::QualifiedType { .. } => Some(entry.place),
        _ => None,
    }
}

/// A class's place where it is its own ancestor.
fn own_ancestor_place(supers: &[Option<ClassId>], class: usize, place: Place) -> Option<Place>
    requires class { class < length supers.now }
    requires below { AreBelow supers.now }
    ensures { (t : Table) → AreSuperclasses supers.now t → fault_at 3 result ≡ least (break_if (is_among class (ancestors t class)) 3 place) }
{
    if is_own_ancestor(supers, class) {
        Some(place)
    } else {
        None
    }
}

/// The place after `extends`, if the class has no superclass.
fn unknown_place(supers: &[Option<ClassId>], class: usize, extended: Option<Place>) -> Option<Place>
    requires { class < length supers.now }
    ensures { fault_at 2 result ≡ least (flat_map (break_if (is_none (superclass_at supers.now class)) 2) (option_to_list extended)) }
{
    match supers[class] {
        None => extended,
        Some(_) => None,
    }
}

/// The first class that is its own ancestor (rule C3).
pub fn first_own_ancestor(heads: &Heads, supers: &[Option<ClassId>]) -> Option<Place>
    requires count { length supers.now ≡ count_of heads.now }
    requires below { AreBelow supers.now }
    ensures { (files : List Arena) → AreHeads files heads.now → AreSuperclasses supers.now (table_in files) → fault_at 3 result ≡ first_of_rule C3 (table_in files) }
{
    let mut first = None;
    for (class, heading) in heads.headings().iter().enumerate() {
        let place = own_ancestor_place(supers, class, heading.place);
        first = earlier(first, place);
    }
    first
}

/// The first name after `extends` that no class has (rule C2).
pub fn first_unknown_superclass(
    trees: &[Tree],
    heads: &Heads,
    supers: &[Option<ClassId>],
) -> Option<Place>
    requires heads { AreHeads trees.now heads.now }
    requires count { length supers.now ≡ count_of heads.now }
    requires supers { AreSuperclasses supers.now (table_in trees.now) }
    ensures { fault_at 2 result ≡ first_of_rule C2 (table_in trees.now) }
{
    let mut first = None;
    for (class, heading) in heads.headings().iter().enumerate() {
        let extended = extended_place(trees, *heading);
        let place = unknown_place(supers, class, extended);
        first = earlier(first, place);
    }
    first
}
