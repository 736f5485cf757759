// The meanings of names where there are no classes, and documents with names that nothing has.
ghost use Rattle.std.specs.Prelude.{[]};
ghost use Rattle.kr_classes_names.specs.Shown.{AreHeads};

use kr_base::NoMemory;
use kr_classes_names::{Heads, Types};
use kr_fin::{FinDoc, Least, read_fin};
use kr_space_meaning::SpaceRule;
use kr_space_names::{Meaning, array_type, meaning_of, note_names, type_number};
use std::alloc::Global;

// The meaning of a text: as a type, as an array type, and as a name in a domain.
fn meanings_of(
    alloc: Global,
    types: &mut Types,
    heads: &Heads,
    document: &FinDoc,
    text: &[u8],
) -> Result<(bool, bool, &'static str), NoMemory> {
    let number = type_number(alloc, types, heads, text)?;
    let array = array_type(alloc, types, heads, text)?;
    let word = match meaning_of(alloc, types, heads, document, text)? {
        Meaning::Null => "null",
        Meaning::Objects(_) => "objects",
        Meaning::Arrays(_) => "arrays",
        Meaning::Unknown => "nothing",
    };
    Ok((number.is_some(), array.is_some(), word))
}

// Likewise among the types that are there at first.
fn meanings(
    alloc: Global,
    heads: &Heads,
    document: &FinDoc,
    text: &str,
) -> Result<(bool, bool, &'static str), NoMemory> {
    let mut types = Types::new(alloc)?;
    meanings_of(alloc, &mut types, heads, document, text.as_bytes())
}

// The first text that doesn't mean what it should, where there are these classes.
fn wrong_meaning(
    alloc: Global,
    heads: &Heads,
    document: &FinDoc,
) -> Result<Option<&'static str>, NoMemory> {
    for (text, is_type, is_array, word) in [
        ("int", true, false, "nothing"),
        ("boolean", true, false, "nothing"),
        ("int[]", true, true, "arrays"),
        ("int[][]", true, true, "arrays"),
        ("HashSet<int[]>", true, false, "nothing"),
        ("LinkedList<HashSet<int[]>[]>[]", true, true, "arrays"),
        ("HashSet<int>", false, false, "nothing"),
        ("HashSet<int>[]", false, false, "nothing"),
        ("HashSet<", false, false, "nothing"),
        ("LinkedList<>", false, false, "nothing"),
        ("int []", false, false, "nothing"),
        ("null", false, false, "null"),
        ("Node", false, false, "nothing"),
        ("[]", false, false, "nothing"),
        ("", false, false, "nothing"),
    ] {
        let found = meanings(alloc, heads, document, text)?;
        if found != (is_type, is_array, word) {
            return Ok(Some(text));
        }
    }
    Ok(None)
}

// The same beside a small document.
fn wrong_meaning_in(alloc: Global, heads: &Heads) -> Result<Option<&'static str>, NoMemory> {
    match read_fin(alloc, b"root='R'\nfuel=1".as_slice()) {
        Err(_) => Ok(Some("no document")),
        Ok(document) => wrong_meaning(alloc, heads, &document),
    }
}

#[test]
fn names(rt: HostRuntime) -> Result<(), NoMemory> {
    let heads = Heads::read(rt.alloc(), &[])?;
    let wrong = wrong_meaning_in(rt.alloc(), &heads)?;
    assert_eq!(rt; wrong, None);
    Ok(())
}

// Whether that is the item of the first broken rule, or none.
fn is_least(least: Least<SpaceRule>, item: &str) -> bool {
    match least.into_fault() {
        Some(fault) => fault.item.as_bytes() == item.as_bytes(),
        None => item == "none",
    }
}

// Whether that is the item of the first name of a document that nothing has.
fn is_unknown(
    alloc: Global,
    types: &mut Types,
    heads: &Heads,
    document: &FinDoc,
    item: &str,
) -> Result<bool, NoMemory>
    requires { AreHeads [] heads.now }
{
    let mut least = Least::new(alloc);
    note_names(&mut least, types, &[], heads, document)?;
    Ok(is_least(least, item))
}

fn is_unknown_beside(
    alloc: Global,
    heads: &Heads,
    document: &FinDoc,
    item: &str,
) -> Result<bool, NoMemory>
    requires { AreHeads [] heads.now }
{
    let mut types = Types::new(alloc)?;
    is_unknown(alloc, &mut types, heads, document, item)
}

// Likewise of a text.
fn is_unknown_in(alloc: Global, heads: &Heads, text: &str, item: &str) -> Result<bool, NoMemory>
    requires { AreHeads [] heads.now }
{
    match read_fin(alloc, text.as_bytes()) {
        Err(_) => Ok(false),
        Ok(document) => is_unknown_beside(alloc, heads, &document, item),
    }
}

// The first text whose first unknown name has another item, where there are no classes.
fn wrong_name(alloc: Global, heads: &Heads) -> Result<Option<&'static str>, NoMemory>
    requires { AreHeads [] heads.now }
{
    for (text, item) in [
        ("root='R'\nfuel=1", "root"),
        ("root='R'\nfuel=1\n[objects]\nR=1\nA=1", "objects.A"),
        (
            "root='R'\nfuel=1\n[arrays]\n'R[]'={count=1,lengths=[0]}\n'int[]'={count=1,lengths=[0]}",
            "arrays.R[]",
        ),
        ("root='R'\nfuel=1\n[fields]\n'int[].*'=[0]", "root"),
        (
            "root='R'\nfuel=1\n[fields]\n'R.f'=[0]\n'int[].*'=[0]",
            "fields.R.f",
        ),
        (
            "root='R'\nfuel=1\n[fields]\n'int[].*'=['null', 'int[]', 'M']",
            "fields.int[].*",
        ),
        ("root='R'\nfuel=1\n[params]\n'm.x'=['M']", "params.m.x"),
    ] {
        let is_unknown = is_unknown_in(alloc, heads, text, item)?;
        if !is_unknown {
            return Ok(Some(text));
        }
    }
    Ok(None)
}

#[test]
fn unknown_names(rt: HostRuntime) -> Result<(), NoMemory> {
    let heads = Heads::read(rt.alloc(), &[])?;
    let wrong = wrong_name(rt.alloc(), &heads)?;
    assert_eq!(rt; wrong, None);
    Ok(())
}
