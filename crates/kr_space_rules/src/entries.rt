// The entries of domains, with the meanings of names.
ghost use Rattle.std.specs.Prelude.{◌≡◌, ◌<◌, ◌+◌, ◌^◌, ◌∷◌, [], All, IfOk, length, map, option_to_list};
ghost use Rattle.kr_space_rules.specs.Vocabulary.{all_objects, AreHeads, domain_of, Extends, integers, IsMeaning, IsSmall, item_values, Meant, meant_values, number_of, Plain, root, setting_of, values_with};
ghost use Rattle.kr_space_rules.specs.Entries.{AreBounds};
ghost use Rattle.kr_space_rules.specs.ObjectDomains.{AreDeclared};

use crate::bounds::{Bound, array_domain_of};
use crate::objects::{Declared, object_domain_of};
use kr_ast::Tree;
use kr_base::{NoMemory, add_found};
use kr_classes_names::{Heads, Types};
use kr_fin::{FinDoc, Item as FinItem};
use kr_space_layout::DomainEntry;
use kr_space_names::{Meaning, meaning_of};
use kr_value::{Value, Width};
use std::alloc::Global;

/// The entry that is all objects of a domain, if there is one.
fn all_of(domain: Option<u32>) -> Option<DomainEntry>
    ensures { domain_of (option_to_list result) ≡ all_objects domain }
{
    match domain {
        None => None,
        Some(domain) => Some(DomainEntry::Objects(domain)),
    }
}

/// The entry that a name's meaning is.
#[tactic(auto, unfolding(kr_space_meaning::specs::Bounds::setting_of, kr_classes_table::specs::Table::table_of))]
fn meant_entry(
    types: &Types,
    trees: &[Tree],
    document: &FinDoc,
    objects: &[Declared],
    bounds: &[Bound],
    name: &[u8],
    meaning: Meaning,
) -> Option<DomainEntry>
    requires few { length objects.now + length bounds.now < 2 ^ 32 }
    requires objects { AreDeclared document.now.objects objects.now (setting_of (map root trees.now) document.now).objects }
    requires bounds { AreBounds types.now document.now.arrays bounds.now (setting_of (map root trees.now) document.now).arrays }
    requires meaning { (m : Meant) × IsMeaning types.now meaning m }
    ensures { (m : Meant) → IsMeaning types.now meaning m → domain_of (option_to_list result) ≡ meant_values (setting_of (map root trees.now) document.now) name.now m }
{
    let _ = trees;
    match meaning {
        Meaning::Null => Some(DomainEntry::Plain(Value::Null)),
        Meaning::Objects(class) => {
            let all = document.objects.as_slice();
            all_of(object_domain_of(objects, all, name, class))
        }
        Meaning::Arrays(number) => {
            let first = objects.len() as u32;
            let all = document.arrays.as_slice();
            all_of(array_domain_of(types, first, bounds, all, number))
        }
        Meaning::Unknown => None,
    }
}

/// The numbers of a width from one to another, both included.
fn range_entry(width: Width, from: i64, to: i64) -> DomainEntry
    ensures { domain_of (result ∷ []) ≡ map (λ z. Plain (number_of width z)) (integers from to) }
{
    let _ = width;
    DomainEntry::Integers(from, to)
}

/// An entry of a document, where numbers have a width: nothing where its name has no objects.
#[tactic(auto, unfolding(kr_space_meaning::specs::Bounds::setting_of, kr_classes_table::specs::Table::table_of), using(crate::proofs::Bounded::bounds_kept))]
fn entry_of(
    alloc: Global,
    types: &mut Types,
    trees: &[Tree],
    heads: &Heads,
    document: &FinDoc,
    objects: &[Declared],
    bounds: &[Bound],
    width: Width,
    item: &FinItem,
) -> Result<Option<DomainEntry>, NoMemory>
    requires heads { AreHeads trees.now heads.now }
    requires small { IsSmall item.now }
    requires few { length objects.now + length bounds.now < 2 ^ 32 }
    requires objects { AreDeclared document.now.objects objects.now (setting_of (map root trees.now) document.now).objects }
    requires bounds { AreBounds types.old document.now.arrays bounds.now (setting_of (map root trees.now) document.now).arrays }
    ensures is { IfOk result (λ found. domain_of (option_to_list found) ≡ item_values (setting_of (map root trees.now) document.now) width item.now) }
    ensures extends { Extends types.old types.new }
{
    match item {
        FinItem::Number(number) => Ok(Some(DomainEntry::Plain(Value::Int(*number)))),
        FinItem::Range(from, to) => Ok(Some(range_entry(width, *from, *to))),
        FinItem::Truth(truth) => Ok(Some(DomainEntry::Plain(Value::Bool(*truth)))),
        FinItem::Name(name) => {
            let name = name.as_str().as_bytes();
            let meaning = meaning_of(alloc, types, heads, document, name)?;
            let types = &*types;
            Ok(meant_entry(types, trees, document, objects, bounds, name, meaning))
        }
    }
}

/// The entries of a domain whose numbers have a width: the values that the document gives it.
pub fn entries_of(
    alloc: Global,
    types: &mut Types,
    trees: &[Tree],
    heads: &Heads,
    document: &FinDoc,
    objects: &[Declared],
    bounds: &[Bound],
    width: Width,
    items: &[FinItem],
) -> Result<Vec<DomainEntry>, NoMemory>
    requires heads { AreHeads trees.now heads.now }
    requires small { All IsSmall items.now }
    requires few { length objects.now + length bounds.now < 2 ^ 32 }
    requires objects { AreDeclared document.now.objects objects.now (setting_of (map root trees.now) document.now).objects }
    requires bounds { AreBounds types.old document.now.arrays bounds.now (setting_of (map root trees.now) document.now).arrays }
    ensures are { IfOk result (λ found. domain_of found.items ≡ values_with (setting_of (map root trees.now) document.now) width items.now) }
    ensures extends { Extends types.old types.new }
{
    let mut found = Vec::new(alloc);
    for item in items {
        let entry = entry_of(
            alloc, types, trees, heads, document, objects, bounds, width, item,
        )?;
        add_found(&mut found, entry)?;
    }
    Ok(found)
}
