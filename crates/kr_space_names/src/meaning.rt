// What a name in a domain stands for.
ghost use Rattle.std.specs.Prelude.{◌≡◌, IfOk, List, map, option_map};
ghost use Rattle.kr_space_names.specs.Vocabulary.{are_domains, AreHeads, Arena, class_meant, Extends, headings_of, line_named, meant, root};
ghost use Rattle.kr_space_names.specs.Meanings.{IsMeaning};

use crate::written::array_type;
use kr_base::NoMemory;
use kr_classes_names::{Heads, Types};
use kr_fin::{Count, FinDoc};
use std::alloc::Global;

/// The meaning of a name: null, all objects of a class or of an array type, each by its number, or nothing.
#[derive(Clone, Copy, PartialEq, Eq)]
pub enum Meaning {
    Null,
    Objects(u32),
    Arrays(u32),
    Unknown,
}

/// Whether names are those of object domains, and not of classes.
pub(crate) fn names_domains(document: &FinDoc) -> bool
    ensures { result ≡ are_domains document.now }
{
    document.version == 2
}

/// The first object domain of a name.
fn line_of<'d>(counts: &'d [Count], name: &[u8]) -> Option<&'d Count>
    ensures { option_map (λ c. c.now) result ≡ line_named counts.now name.now }
{
    for count in counts {
        if count.name.as_str().as_bytes() == name {
            return Some(count);
        }
    }
    None
}

/// The class of the objects that a name stands for.
#[tactic(auto, unfolding(kr_space_meaning::specs::Names::class_of))]
pub fn class_of(heads: &Heads, document: &FinDoc, name: &[u8]) -> Option<u32>
    ensures { (files : List Arena) → AreHeads files heads.now → result ≡ class_meant (headings_of (map root files)) document.now name.now }
{
    if !names_domains(document) {
        return heads.number_of(name);
    }
    match line_of(document.objects.as_slice(), name) {
        Some(domain) => heads.number_of(domain.class.as_str().as_bytes()),
        None => None,
    }
}

/// What a name in a domain stands for.
#[tactic(auto, unfolding(kr_space_meaning::specs::Names::meant))]
pub fn meaning_of(
    alloc: Global,
    types: &mut Types,
    heads: &Heads,
    document: &FinDoc,
    name: &[u8],
) -> Result<Meaning, NoMemory>
    ensures stands { IfOk result (λ meaning. (files : List Arena) → AreHeads files heads.now → IsMeaning types.new meaning (meant (headings_of (map root files)) document.now name.now)) }
    ensures extends { Extends types.old types.new }
{
    if name == b"null".as_slice() {
        return Ok(Meaning::Null);
    }
    if let Some(class) = class_of(heads, document, name) {
        return Ok(Meaning::Objects(class));
    }
    match array_type(alloc, types, heads, name)? {
        Some(number) => Ok(Meaning::Arrays(number)),
        None => Ok(Meaning::Unknown),
    }
}
