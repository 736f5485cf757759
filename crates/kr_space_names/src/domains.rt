// Rule S1 in the domains of fields, elements and parameters.
ghost use Rattle.std.specs.Prelude.{◌≡◌, ◌||◌, IfOk, OnOk, fold, map, position};
ghost use Rattle.std.specs.List.{list_any};
ghost use Rattle.kr_space_names.specs.Vocabulary.{AreHeads, Extends, headings_of, is_dot, is_unknown, lesser, meant, names_elements, names_predefined, names_unknown, owner_unknown, owners_unknown, part_before, part_behind, root, value_unknown, values_unknown};
ghost use Rattle.kr_space_names.specs.Meanings.{is_nothing};

use crate::meaning::{Meaning, meaning_of, names_domains};
use crate::names::item_of;
use crate::written::array_type;
use kr_ast::Tree;
use kr_base::NoMemory;
use kr_classes_names::{Heads, Types};
use kr_classes_table::is_predefined;
use kr_fin::{FinDoc, Item, Least, NamedDomain};
use kr_space_meaning::SpaceRule;
use std::alloc::Global;

fn first_dot(key: &[u8]) -> Option<usize>
    ensures { result ≡ position is_dot key.now }
{
    key.iter().position(|byte| *byte == b'.')
}

/// The text before the first dot of a key.
pub fn owner_part(key: &[u8]) -> &[u8]
    ensures { result.now ≡ part_before key.now }
{
    match first_dot(key) {
        Some(at) => &key[..at],
        None => key,
    }
}

/// The text after the first dot of a key.
pub fn name_part(key: &[u8]) -> &[u8]
    ensures { result.now ≡ part_behind key.now }
{
    match first_dot(key) {
        Some(at) => &key[at + 1..],
        None => &key[key.len()..],
    }
}

/// Whether a key is that of an array type's elements.
pub fn is_elements(key: &[u8]) -> bool
    ensures { result ≡ names_elements key.now }
{
    name_part(key) == b"*".as_slice()
}

/// Whether the text before the dot is no class, or before `.*` no array type.
pub fn has_no_owner(
    alloc: Global,
    types: &mut Types,
    trees: &[Tree],
    heads: &Heads,
    key: &[u8],
) -> Result<bool, NoMemory>
    requires { AreHeads trees.now heads.now }
    ensures is { IfOk result (λ b. b ≡ owner_unknown (headings_of (map root trees.now)) key.now) }
    ensures extends { Extends types.old types.new }
{
    let _ = trees;
    if is_elements(key) {
        Ok(array_type(alloc, types, heads, owner_part(key))?.is_none())
    } else {
        Ok(heads.number_of(owner_part(key)).is_none())
    }
}

/// Each domain is one of a class's or of an array type's.
pub(crate) fn owner_names(
    least: &mut Least<SpaceRule>,
    types: &mut Types,
    trees: &[Tree],
    heads: &Heads,
    domains: &[NamedDomain],
) -> Result<(), NoMemory>
    requires { AreHeads trees.now heads.now }
    ensures noted { OnOk result (least.new ≡ fold lesser least.old (owners_unknown (headings_of (map root trees.now)) domains.now)) }
    ensures extends { Extends types.old types.new }
{
    for domain in domains {
        if has_no_owner(
            least.alloc(),
            types,
            trees,
            heads,
            domain.key.as_str().as_bytes(),
        )? {
            let item = item_of(least.alloc(), "fields.", domain.key.as_str())?;
            least.note(SpaceRule::UnknownName, item.as_str())?;
        }
    }
    Ok(())
}

/// Whether a name is meaningless.
fn is_meaningless(meaning: Meaning) -> bool
    ensures { result ≡ is_nothing meaning }
{
    match meaning {
        Meaning::Unknown => true,
        Meaning::Null => false,
        Meaning::Objects(_) => false,
        Meaning::Arrays(_) => false,
    }
}

/// Whether a name is meaningless, or that of a predefined class, of which no domain has objects.
#[tactic(auto, using(crate::proofs::Meanings::nothing_is))]
fn is_name_unknown(
    alloc: Global,
    types: &mut Types,
    trees: &[Tree],
    heads: &Heads,
    document: &FinDoc,
    name: &[u8],
) -> Result<bool, NoMemory>
    requires { AreHeads trees.now heads.now }
    ensures is { IfOk result (λ b. b ≡ is_unknown (meant (headings_of (map root trees.now)) document.now name.now) || names_predefined document.now name.now) }
    ensures extends { Extends types.old types.new }
{
    let _ = trees;
    let meaning = meaning_of(alloc, types, heads, document, name)?;
    Ok(is_meaningless(meaning) || (!names_domains(document) && is_predefined(name)))
}

/// Whether a value is such a name.
fn is_value_unknown(
    alloc: Global,
    types: &mut Types,
    trees: &[Tree],
    heads: &Heads,
    document: &FinDoc,
    item: &Item,
) -> Result<bool, NoMemory>
    requires { AreHeads trees.now heads.now }
    ensures is { IfOk result (λ b. b ≡ names_unknown (headings_of (map root trees.now)) document.now item.now) }
    ensures extends { Extends types.old types.new }
{
    let _ = trees;
    match item {
        Item::Name(name) => is_name_unknown(
            alloc,
            types,
            trees,
            heads,
            document,
            name.as_str().as_bytes(),
        ),
        Item::Number(_) => Ok(false),
        Item::Range(..) => Ok(false),
        Item::Truth(_) => Ok(false),
    }
}

/// Whether one of the values is a meaningless name.
fn has_unknown(
    alloc: Global,
    types: &mut Types,
    trees: &[Tree],
    heads: &Heads,
    document: &FinDoc,
    items: &[Item],
) -> Result<bool, NoMemory>
    requires { AreHeads trees.now heads.now }
    ensures is { IfOk result (λ b. b ≡ list_any (names_unknown (headings_of (map root trees.now)) document.now) items.now) }
    ensures extends { Extends types.old types.new }
{
    for item in items {
        if is_value_unknown(alloc, types, trees, heads, document, item)? {
            return Ok(true);
        }
    }
    Ok(false)
}

/// No value of a domain is a meaningless name.
fn value_names_of(
    least: &mut Least<SpaceRule>,
    types: &mut Types,
    trees: &[Tree],
    heads: &Heads,
    document: &FinDoc,
    table: &str,
    domain: &NamedDomain,
) -> Result<(), NoMemory>
    requires { AreHeads trees.now heads.now }
    ensures noted { OnOk result (least.new ≡ fold lesser least.old (value_unknown (headings_of (map root trees.now)) document.now table.now domain.now)) }
    ensures extends { Extends types.old types.new }
{
    let items = domain.domain.as_slice();
    if has_unknown(least.alloc(), types, trees, heads, document, items)? {
        let item = item_of(least.alloc(), table, domain.key.as_str())?;
        least.note(SpaceRule::UnknownName, item.as_str())
    } else {
        Ok(())
    }
}

/// No value of a table's domains is a meaningless name.
pub(crate) fn value_names(
    least: &mut Least<SpaceRule>,
    types: &mut Types,
    trees: &[Tree],
    heads: &Heads,
    document: &FinDoc,
    table: &str,
    domains: &[NamedDomain],
) -> Result<(), NoMemory>
    requires { AreHeads trees.now heads.now }
    ensures noted { OnOk result (least.new ≡ fold lesser least.old (values_unknown (headings_of (map root trees.now)) document.now table.now domains.now)) }
    ensures extends { Extends types.old types.new }
{
    for domain in domains {
        value_names_of(least, types, trees, heads, document, table, domain)?;
    }
    Ok(())
}
