// The least rule that small documents break beside a class without members.
ghost use Rattle.kr_space_meaning.specs.Limits.{IsWithinLimits};
ghost use Rattle.kr_space_rules.specs.Classes.{AreClasses, AreTyped};
ghost use Rattle.kr_sources.specs.Sources.{AreSources};

use crate::tests::files::document_of;
use kr_base::{Fault, NoMemory};
use kr_classes_names::{NodeTypes, Types};
use kr_fin::FinDoc;
use kr_mean::Mode;
use kr_sources::{Check, Sources, Unread, holds_of};
use kr_space::judge_space;
use kr_space_meaning::{SpaceRefusal, SpaceRule};
use kr_space_rules::Classes;
use std::alloc::Global;

fn is_fault(fault: &Fault<SpaceRule>, code: &str, item: &str) -> bool {
    fault.rule.code() == code && fault.item.as_bytes() == item.as_bytes()
}

/// A document, the first rule that it breaks, and at which item.
#[derive(Clone, Copy)]
struct Row {
    text: &'static str,
    code: &'static str,
    item: &'static str,
}

fn is_least(
    alloc: Global,
    classes: &Classes,
    types: &mut Types,
    document: &FinDoc,
    row: Row,
) -> bool
    requires classes { AreClasses classes.now }
    requires typed { AreTyped classes.now types.old }
    requires limits { IsWithinLimits document.now }
{
    match judge_space(alloc, classes, types, document, &Mode::List) {
        Err(SpaceRefusal::Broken(fault)) => is_fault(&fault, row.code, row.item),
        _ => false,
    }
}

fn is_least_in(alloc: Global, classes: &Classes, types: &mut Types, row: Row) -> bool
    requires classes { AreClasses classes.now }
    requires typed { AreTyped classes.now types.old }
{
    match document_of(alloc, row.text) {
        Err(_) => false,
        Ok(document) => is_least(alloc, classes, types, &document, row),
    }
}

fn is_least_among(
    alloc: Global,
    sources: &Sources<'_>,
    types: &mut Types,
    row: Row,
) -> Result<bool, NoMemory>
    requires { AreSources sources.now }
{
    let numbers = NodeTypes::read(alloc, sources.trees, sources.heads, types)?;
    let classes = Classes {
        trees: sources.trees,
        heads: sources.heads,
        members: sources.members,
        numbers: &numbers,
    };
    Ok(is_least_in(alloc, &classes, types, row))
}

impl Check for Row {
    fn holds(&self, alloc: Global, sources: &Sources<'_>) -> Result<bool, NoMemory> {
        let mut types = Types::new(alloc)?;
        is_least_among(alloc, sources, &mut types, *self)
    }
}

#[test]
fn least_rules(rt: HostRuntime) -> Result<(), Unread> {
    for (text, code, item) in [
        ("root='M'\nfuel=1", "S1", "root"),
        ("root='N'\nfuel=1\n[objects]\nN=1\nA=1", "S1", "objects.A"),
        (
            "root='N'\nfuel=1\n[objects]\nN=1\n[arrays]\n'int[]'={count=1,lengths=[0,1]}",
            "S2",
            "fields.int[].*",
        ),
        ("root='N'\nfuel=1", "S3", "this"),
        (
            "root='N'\nfuel=1\n[objects]\nN=1\n[arrays]\n'int[]'={count=1,lengths=[]}",
            "S3",
            "arrays.int[]",
        ),
        (
            "root='N'\nfuel=1\n[objects]\nN=1\n[fields]\n'int[].*'=[true]",
            "S4",
            "fields.int[].*",
        ),
        (
            "root='N'\nfuel=1\n[objects]\nN=1\n[fields]\n'int[].*'=[9,{from=-2000000000,to=2000000000}]",
            "S5",
            "fields.int[].*",
        ),
        (
            "root='N'\nfuel=1\n[objects]\nN=1\n[fields]\n'int[].*'=[{from=0,to=65536}]",
            "S6",
            "fields.int[].*",
        ),
        (
            "root='N'\nfuel=1\n[objects]\nN=1\n[arrays]\n'int[]'={count=64,lengths=[64]}\n[fields]\n'int[].*'=[0]",
            "S6",
            "slots",
        ),
        (
            "root='N'\nfuel=1\n[objects]\nN=64\n[fields]\n'N.f'=['null','N']",
            "S7",
            "root",
        ),
    ] {
        let row = Row { text, code, item };
        let is_least = holds_of(rt.alloc(), &row, "class N { }", "")?;
        assert!(rt; is_least, "{text}");
    }
    Ok(())
}
