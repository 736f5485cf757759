// E2: the name and the number of the builders' class.
ghost use Rattle.std.specs.Prelude.{◌≡◌, ◌++◌, List, Some, flat_map, option_to_list, slice_get, bytes_eq};
ghost use Rattle.kr_emit.specs.Vocabulary.{AreHeads, Arena, fault_at, heading_shown, headings_of, IsHeading, least, MOST_CLASSES, name_fault, number_fault, root};
ghost use Rattle.std.specs.Prelude.{map};

use kr_ast::{Tree, tree_of};
use kr_base::Place;
use kr_classes::earlier;
use kr_classes_names::{Heading, Heads};

/// A class's place, if it has the name of the builders' class.
fn place_of(trees: &[Tree], heading: Heading) -> Option<Place>
    requires { IsHeading trees.now heading }
    ensures { fault_at 2 result ≡ least (name_fault (heading_shown trees.now heading)) }
{
    if tree_of(trees, heading.file).name(heading.name) == b"KoratBuild".as_slice() {
        Some(heading.place)
    } else {
        None
    }
}

/// The first place of a class that has the name of the builders' class.
fn name_place(trees: &[Tree], heads: &Heads) -> Option<Place>
    requires { AreHeads trees.now heads.now }
    ensures { fault_at 2 result ≡ least (flat_map name_fault (headings_of (map root trees.now))) }
{
    let mut first = None;
    for heading in heads.headings() {
        first = earlier(first, place_of(trees, *heading));
    }
    first
}

/// The place of the class that leaves no number for another one.
fn last_place(heads: &Heads) -> Option<Place>
    ensures { (files : List Arena) → AreHeads files heads.now → fault_at 2 result ≡ least (flat_map number_fault (option_to_list (slice_get (headings_of (map root files)) MOST_CLASSES))) }
{
    match heads.headings().get(76) {
        None => None,
        Some(heading) => Some(heading.place),
    }
}

/// The first place at which E2 is broken.
pub(crate) fn class_name_place(trees: &[Tree], heads: &Heads) -> Option<Place>
    requires { AreHeads trees.now heads.now }
    ensures { fault_at 2 result ≡ least (flat_map name_fault (headings_of (map root trees.now)) ++ flat_map number_fault (option_to_list (slice_get (headings_of (map root trees.now)) MOST_CLASSES))) }
{
    let name = name_place(trees, heads);
    let last = last_place(heads);
    earlier(name, last)
}
