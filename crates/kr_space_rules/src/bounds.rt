// The array types that a document bounds.
ghost use Rattle.std.specs.Prelude.{◌≡◌, ◌<◌, ◌+◌, ◌^◌, All, IfOk, IfSome, length, map, option_map, option_to_list};
ghost use Rattle.std.proofs.Common.{get_or};
ghost use Rattle.kr_space_rules.specs.Vocabulary.{AreHeads, bound_number, bounded, count, Extends, headings_of, root, type_at};
ghost use Rattle.kr_space_rules.specs.Entries.{AreBounds, IsBound, bound_in, bound_shown, no_bound};

use kr_ast::Tree;
use kr_base::{NoMemory, add_found};
use kr_classes_names::{Heads, Types};
use kr_fin::ArrayBound;
use kr_space_names::array_type;
use std::alloc::Global;

/// An array type that a document bounds: the number of its type, and its place among those that the document names.
#[derive(Clone, Copy)]
pub struct Bound {
    pub number: u32,
    pub at: u32,
}

/// The document's bounds at a place, if it is an array type.
fn bound_at(
    alloc: Global,
    types: &mut Types,
    trees: &[Tree],
    heads: &Heads,
    all: &[ArrayBound],
    at: u32,
) -> Result<Option<Bound>, NoMemory>
    requires heads { AreHeads trees.now heads.now }
    requires at { at < length all.now }
    ensures stands { IfOk result (λ found. IfSome found (IsBound types.new all.now)) }
    ensures shown { IfOk result (λ found. option_to_list (option_map (bound_shown types.new all.now) found) ≡ bound_in (headings_of (map root trees.now)) (get_or all.now at no_bound)) }
    ensures extends { Extends types.old types.new }
{
    let _ = trees;
    let bound = &all[at as usize];
    match array_type(alloc, types, heads, bound.name.as_str().as_bytes())? {
        None => Ok(None),
        Some(number) => Ok(Some(Bound { number, at })),
    }
}

/// The array types that the document bounds, in its order; a name that is no array type's is left out.
pub fn bounds_of(
    alloc: Global,
    types: &mut Types,
    trees: &[Tree],
    heads: &Heads,
    all: &[ArrayBound],
) -> Result<Vec<Bound>, NoMemory>
    requires { AreHeads trees.now heads.now }
    ensures bounds { IfOk result (λ bounds. AreBounds types.new all.now bounds.items (bounded (headings_of (map root trees.now)) all.now)) }
    ensures extends { Extends types.old types.new }
{
    let Ok(count) = u32::try_from(all.len()) else {
        return Err(NoMemory::at_limit(all));
    };
    let mut bounds = Vec::new(alloc);
    for at in 0..count {
        let found = bound_at(alloc, types, trees, heads, all, at)?;
        add_found(&mut bounds, found)?;
    }
    Ok(bounds)
}

/// The number of the domain of an array type, where it has one: it is after all object domains of classes.
pub fn array_domain_of(
    types: &Types,
    objects: u32,
    bounds: &[Bound],
    all: &[ArrayBound],
    number: u32,
) -> Option<u32>
    requires number { number < count types.now }
    requires few { objects + length bounds.now < 2 ^ 32 }
    requires bounds { All (IsBound types.now all.now) bounds.now }
    ensures { result ≡ bound_number objects (map (bound_shown types.now all.now) bounds.now) (type_at types.now number) }
{
    let _ = all;
    for (at, bound) in bounds.iter().enumerate() {
        if types.is_same(bound.number, number) {
            return Some(objects + at as u32);
        }
    }
    None
}
