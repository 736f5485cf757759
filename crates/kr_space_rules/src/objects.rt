// The object domains that a document declares.
ghost use Rattle.std.specs.Prelude.{◌≡◌, ◌<◌, ◌+◌, ◌^◌, All, IfOk, IfSome, bytes_eq, ◌==◌, ◌&&◌, length, map, option_map, option_to_list};
ghost use Rattle.std.proofs.Common.{get_or};
ghost use Rattle.kr_space_rules.specs.Vocabulary.{AreHeads, declared, declared_by, headings_of, object_number, root};
ghost use Rattle.kr_space_rules.specs.ObjectDomains.{AreDeclared, IsDeclared, declared_shown, no_count};

use kr_ast::Tree;
use kr_base::{NoMemory, add_found};
use kr_classes_names::Heads;
use kr_fin::Count;
use std::alloc::Global;

/// An object domain that has objects: the number of their class, and its place among those that the document names.
#[derive(Clone, Copy)]
pub struct Declared {
    pub class: u32,
    pub at: u32,
}

/// The object domain that the document declares at a place, if it has objects.
fn declared_at(trees: &[Tree], heads: &Heads, all: &[Count], at: u32) -> Option<Declared>
    requires heads { AreHeads trees.now heads.now }
    requires at { at < length all.now }
    ensures stands { IfSome result (IsDeclared all.now) }
    ensures shown { option_to_list (option_map (declared_shown all.now) result) ≡ declared_by (headings_of (map root trees.now)) (get_or all.now at no_count) }
{
    let _ = trees;
    let domain = &all[at as usize];
    if domain.count == 0 {
        return None;
    }
    match heads.number_of(domain.class.as_str().as_bytes()) {
        Some(class) => Some(Declared { class, at }),
        None => None,
    }
}

/// The object domains that have objects of a class of the program, in the document's order.
pub fn declared_of(
    alloc: Global,
    trees: &[Tree],
    heads: &Heads,
    all: &[Count],
) -> Result<Vec<Declared>, NoMemory>
    requires { AreHeads trees.now heads.now }
    ensures { IfOk result (λ objects. AreDeclared all.now objects.items (declared (headings_of (map root trees.now)) all.now)) }
{
    let Ok(count) = u32::try_from(all.len()) else {
        return Err(NoMemory::at_limit(all));
    };
    let mut objects = Vec::new(alloc);
    for at in 0..count {
        add_found(&mut objects, declared_at(trees, heads, all, at))?;
    }
    Ok(objects)
}

/// Whether an object domain has a name and a class.
fn is_named(all: &[Count], object: Declared, name: &[u8], class: u32) -> bool
    requires { object.at < length all.now }
    ensures { result ≡ (bytes_eq (declared_shown all.now object).1.name name.now && ((declared_shown all.now object).0 == class)) }
{
    let domain = &all[object.at as usize];
    domain.name.as_str().as_bytes() == name && object.class == class
}

/// The number of the object domain of a name and a class, where it has objects.
pub fn object_domain_of(objects: &[Declared], all: &[Count], name: &[u8], class: u32) -> Option<u32>
    requires few { length objects.now < 2 ^ 32 }
    requires objects { All (IsDeclared all.now) objects.now }
    ensures { result ≡ object_number 0 (map (declared_shown all.now) objects.now) name.now class }
{
    for (at, object) in objects.iter().enumerate() {
        if is_named(all, *object, name, class) {
            return Some(at as u32);
        }
    }
    None
}
