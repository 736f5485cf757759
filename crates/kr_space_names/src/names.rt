// Rule S1: names that no class and no array type has.
ghost use Rattle.std.specs.Prelude.{◌≡◌, ◌++◌, List, IfOk, OnOk, codes, flat_map, fold, map, string_bytes};
ghost use Rattle.kr_space_names.specs.Vocabulary.{AreHeads, Arena, arrays_unknown, break_if, class_unknown, Extends, headings_of, lesser, objects_unknown, root, root_unknown};

use crate::meaning::{class_of, names_domains};
use crate::written::array_type;
use kr_ast::Tree;
use kr_base::NoMemory;
use kr_classes_names::{Heads, Types};
use kr_classes_table::is_predefined;
use kr_fin::{ArrayBound, Count, FinDoc, Least};
use kr_space_meaning::SpaceRule;
use std::alloc::Global;

/// A table's key, a dot and a name.
pub fn item_of(alloc: Global, table: &str, name: &str) -> Result<String, NoMemory>
    ensures { IfOk result (λ item. string_bytes item ≡ table.now ++ name.now) }
{
    let mut item = String::from_str(alloc, table)?;
    item.push_str(name)?;
    Ok(item)
}

/// Whether the root is no class, and in version 2 no object domain and no array type.
fn is_root_unknown(
    alloc: Global,
    types: &mut Types,
    trees: &[Tree],
    heads: &Heads,
    document: &FinDoc,
) -> Result<bool, NoMemory>
    requires { AreHeads trees.now heads.now }
    ensures is { IfOk result (λ b. b ≡ root_unknown (headings_of (map root trees.now)) document.now) }
    ensures extends { Extends types.old types.new }
{
    let _ = trees;
    let root = document.root.as_str().as_bytes();
    if class_of(heads, document, root).is_some() {
        return Ok(false);
    }
    if !names_domains(document) {
        return Ok(true);
    }
    Ok(array_type(alloc, types, heads, root)?.is_none())
}

/// The root is a class, or in version 2 an object domain or an array type.
pub(crate) fn root_name(
    least: &mut Least<SpaceRule>,
    types: &mut Types,
    trees: &[Tree],
    heads: &Heads,
    document: &FinDoc,
) -> Result<(), NoMemory>
    requires { AreHeads trees.now heads.now }
    ensures noted { OnOk result (least.new ≡ fold lesser least.old (break_if (root_unknown (headings_of (map root trees.now)) document.now) SpaceRule.UnknownName (codes "root"))) }
    ensures extends { Extends types.old types.new }
{
    if is_root_unknown(least.alloc(), types, trees, heads, document)? {
        least.note(SpaceRule::UnknownName, "root")
    } else {
        Ok(())
    }
}

/// Whether no class of the files has this name.
fn is_class_unknown(heads: &Heads, name: &[u8]) -> bool
    ensures { (files : List Arena) → AreHeads files heads.now → result ≡ class_unknown (headings_of (map root files)) name.now }
{
    heads.number_of(name).is_none() || is_predefined(name)
}

/// The class of each object domain is one of the files.
pub(crate) fn object_names(
    least: &mut Least<SpaceRule>,
    trees: &[Tree],
    heads: &Heads,
    counts: &[Count],
) -> Result<(), NoMemory>
    requires { AreHeads trees.now heads.now }
    ensures { OnOk result (least.new ≡ fold lesser least.old (objects_unknown (headings_of (map root trees.now)) counts.now)) }
{
    let _ = trees;
    for count in counts {
        if is_class_unknown(heads, count.class.as_str().as_bytes()) {
            let item = item_of(least.alloc(), "objects.", count.name.as_str())?;
            least.note(SpaceRule::UnknownName, item.as_str())?;
        }
    }
    Ok(())
}

/// Each name that is bounded is an array type's.
pub(crate) fn array_names(
    least: &mut Least<SpaceRule>,
    types: &mut Types,
    trees: &[Tree],
    heads: &Heads,
    bounds: &[ArrayBound],
) -> Result<(), NoMemory>
    requires { AreHeads trees.now heads.now }
    ensures noted { OnOk result (least.new ≡ fold lesser least.old (arrays_unknown (headings_of (map root trees.now)) bounds.now)) }
    ensures extends { Extends types.old types.new }
{
    let _ = trees;
    for bound in bounds {
        if array_type(least.alloc(), types, heads, bound.name.as_str().as_bytes())?.is_none() {
            let item = item_of(least.alloc(), "arrays.", bound.name.as_str())?;
            least.note(SpaceRule::UnknownName, item.as_str())?;
        }
    }
    Ok(())
}
