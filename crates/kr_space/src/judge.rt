// All rules: whether a document is one of a program, or the least rule that it breaks.
ghost use Rattle.std.specs.Prelude.{◌≡◌, ◌++◌, None, IfErr, IfOk, OnOk, fold};
ghost use Rattle.kr_space.specs.Vocabulary.{AreBounds, AreClasses, AreDeclared, AreTyped, Extends, faults_of, files_of, IsWithinLimits, least_of, lesser, problem_of, root_of, S4, S7, S8, S9, setting_of};
ghost use Rattle.kr_space.specs.Keys.{AreKeys};
ghost use Rattle.kr_space.specs.Refusals.{Refuses, after_S1};

use crate::given::note_given;
use crate::keys::Keys;
use crate::slots::root_number;
use crate::whole::note_numbers;
use kr_base::NoMemory;
use kr_classes_names::Types;
use kr_fin::{FinDoc, Least};
use kr_mean::Mode;
use kr_space_meaning::{SpaceRefusal, SpaceRule};
use kr_space_names::note_names;
use kr_space_rules::{
    Bound, Classes, Declared, bounds_of, declared_of, note_method, note_predicate, note_slots,
    note_unfit,
};
use std::alloc::Global;

/// S8, where a method is tested.
#[tactic(auto, unfolding(kr_space_meaning::specs::Bounds::setting_of, kr_classes_table::specs::Table::table_of))]
fn note_tested(
    least: &mut Least<SpaceRule>,
    classes: &Classes,
    document: &FinDoc,
    mode: &Mode,
    root: Option<u32>,
) -> Result<(), NoMemory>
    requires classes { AreClasses classes.now }
    requires root { root ≡ root_of (setting_of (files_of classes.now) document.now) }
    ensures { OnOk result (least.new ≡ fold lesser least.old (S8 (setting_of (files_of classes.now) document.now) mode.now)) }
{
    let _ = document;
    match mode {
        Mode::List => Ok(()),
        Mode::Method(name) => note_method(least, classes, root, name.as_str().as_bytes()),
    }
}

#[tactic(auto, using(crate::proofs::Parts::types_are, kr_space_names::proofs::Growing::node_types_kept), unfolding(kr_space_meaning::specs::Bounds::setting_of))]
/// The rules on types and methods: S4, S7, S8 and S9.
fn note_types(
    least: &mut Least<SpaceRule>,
    classes: &Classes,
    types: &mut Types,
    document: &FinDoc,
    mode: &Mode,
) -> Result<(), NoMemory>
    requires classes { AreClasses classes.now }
    requires typed { AreTyped classes.now types.old }
    ensures noted { OnOk result (least.new ≡ fold lesser least.old (S4 (setting_of (files_of classes.now) document.now) ++ (S7 (setting_of (files_of classes.now) document.now) ++ (S8 (setting_of (files_of classes.now) document.now) mode.now ++ S9 (setting_of (files_of classes.now) document.now))))) }
    ensures extends { Extends types.old types.new }
{
    let root = root_number(classes, document);
    let fields = document.fields.as_slice();
    let params = document.params.as_slice();
    note_unfit(least, classes, types, document, root)?;
    note_predicate(least, classes, &*types, root)?;
    note_tested(least, classes, document, mode, root)?;
    note_slots(least, classes, types, root, fields, params)
}

/// Notes what the document breaks of the rules after that on names.
#[tactic(auto, using(crate::proofs::Parts::after_names, kr_space_names::proofs::Growing::node_types_kept))]
fn note_after_names(
    least: &mut Least<SpaceRule>,
    classes: &Classes,
    types: &mut Types,
    document: &FinDoc,
    mode: &Mode,
    keys: &Keys,
    objects: &[Declared],
    bounds: &[Bound],
) -> Result<(), NoMemory>
    requires classes { AreClasses classes.now }
    requires typed { AreTyped classes.now types.old }
    requires limits { IsWithinLimits document.now }
    requires keys { AreKeys document.now keys.now }
    requires objects { AreDeclared document.now.objects objects.now (setting_of (files_of classes.now) document.now).objects }
    requires bounds { AreBounds types.old document.now.arrays bounds.now (setting_of (files_of classes.now) document.now).arrays }
    ensures noted { OnOk result (least.new ≡ fold lesser least.old (after_S1 (problem_of (files_of classes.now) document.now mode.now) (setting_of (files_of classes.now) document.now) mode.now)) }
    ensures extends { Extends types.old types.new }
{
    note_given(
        least, classes, &*types, document, mode, keys, objects, bounds,
    )?;
    note_numbers(least, classes, types, document, mode, objects, bounds)?;
    note_types(least, classes, types, document, mode)
}

/// Notes all that the document breaks.
#[tactic(auto, using(crate::proofs::Parts::faults_are, crate::proofs::Parts::arrays_are, crate::proofs::Parts::objects_are, kr_space_names::proofs::Growing::node_types_kept))]
fn note_faults(
    least: &mut Least<SpaceRule>,
    classes: &Classes,
    types: &mut Types,
    document: &FinDoc,
    mode: &Mode,
) -> Result<(), NoMemory>
    requires classes { AreClasses classes.now }
    requires typed { AreTyped classes.now types.old }
    requires limits { IsWithinLimits document.now }
    ensures noted { OnOk result (least.new ≡ fold lesser least.old (faults_of (files_of classes.now) document.now mode.now)) }
    ensures extends { Extends types.old types.new }
{
    let alloc = least.alloc();
    let arrays = document.arrays.as_slice();
    note_names(least, types, classes.trees, classes.heads, document)?;
    let keys = Keys::of(alloc, document)?;
    let bounds = bounds_of(alloc, types, classes.trees, classes.heads, arrays)?;
    let objects = declared_of(
        alloc,
        classes.trees,
        classes.heads,
        document.objects.as_slice(),
    )?;
    note_after_names(
        least, classes, types, document, mode, &keys, &objects, &bounds,
    )
}

/// Whether a document breaks no rule beside a program; else the least of the rules that it breaks, and there the least item
/// in the order of bytes.
pub fn judge_space(
    alloc: Global,
    classes: &Classes,
    types: &mut Types,
    document: &FinDoc,
    mode: &Mode,
) -> Result<(), SpaceRefusal>
    requires classes { AreClasses classes.now }
    requires typed { AreTyped classes.now types.old }
    requires limits { IsWithinLimits document.now }
    ensures unbroken { IfOk result (λ none. least_of (faults_of (files_of classes.now) document.now mode.now) ≡ None) }
    ensures refused { IfErr result (Refuses (least_of (faults_of (files_of classes.now) document.now mode.now))) }
    ensures extends { Extends types.old types.new }
{
    let mut least = Least::new(alloc);
    match note_faults(&mut least, classes, types, document, mode) {
        Err(why) => Err(SpaceRefusal::NoMemory(why)),
        Ok(_) => match least.into_fault() {
            None => Ok(()),
            Some(fault) => Err(SpaceRefusal::Broken(fault)),
        },
    }
}
