// How many slots there are, as far as the number goes.
ghost use Rattle.std.specs.Prelude.{◌≡◌, ◌+◌, ◌*◌, ◌-◌, ◌^◌, All, IfOk, length, map, min};
ghost use Rattle.kr_space.specs.Vocabulary.{AreClasses, AreLengths, bound_shown, declared_shown, fields_of, files_of, greatest, IsBound, IsDeclared, lengths_of, root_of, setting_of, table_of, tested_parameters};
ghost use Rattle.kr_space.specs.Slots.{slots_of_arrays, slots_of_objects};

use crate::elements::greatest_of;
use kr_base::NoMemory;
use kr_classes_names::Types;
use kr_fin::FinDoc;
use kr_mean::Mode;
use kr_space_names::class_of;
use kr_space_rules::{Bound, Classes, Declared, instance_parameters};
use std::alloc::Global;

/// How many instance fields each object of a class has.
fn field_count(alloc: Global, classes: &Classes, class: u32) -> Result<u64, NoMemory>
    requires { AreClasses classes.now }
    ensures { IfOk result (λ n. n ≡ length (fields_of (table_of classes.now) class)) }
{
    let own = classes.members.fields_of(alloc, class)?;
    Ok(own.len() as u64)
}

/// How many slots the objects of a domain have.
fn object_slots(
    alloc: Global,
    classes: &Classes,
    document: &FinDoc,
    object: Declared,
) -> Result<u64, NoMemory>
    requires classes { AreClasses classes.now }
    requires object { IsDeclared document.now.objects object }
    ensures { IfOk result (λ slots. slots ≡ min ((declared_shown document.now.objects object).1.count * length (fields_of (table_of classes.now) (declared_shown document.now.objects object).0)) (2 ^ 64 - 1)) }
{
    let fields = field_count(alloc, classes, object.class)?;
    let line = &document.objects.as_slice()[object.at as usize];
    Ok(u64::from(line.count).saturating_mul(fields))
}

/// How many slots the objects of all domains have.
fn all_object_slots(
    alloc: Global,
    classes: &Classes,
    document: &FinDoc,
    objects: &[Declared],
) -> Result<u64, NoMemory>
    requires classes { AreClasses classes.now }
    requires objects { All (IsDeclared document.now.objects) objects.now }
    ensures { IfOk result (λ slots. slots ≡ min (slots_of_objects (setting_of (files_of classes.now) document.now) (map (declared_shown document.now.objects) objects.now)) (2 ^ 64 - 1)) }
{
    let mut total: u64 = 0;
    for object in objects {
        let own = object_slots(alloc, classes, document, *object)?;
        total = total.saturating_add(own);
    }
    Ok(total)
}

/// How many slots the arrays of an array type have.
fn array_slots(classes: &Classes, types: &Types, document: &FinDoc, bound: Bound) -> u64
    requires bound { IsBound types.now document.now.arrays bound }
    requires lengths { All (λ b. All AreLengths b.lengths) document.now.arrays }
    ensures { result ≡ min ((bound_shown types.now document.now.arrays bound).1.count * (greatest (lengths_of (setting_of (files_of classes.now) document.now) (bound_shown types.now document.now.arrays bound).1.lengths) + 1)) (2 ^ 64 - 1) }
{
    let _ = types;
    let bound = &document.arrays.as_slice()[bound.at as usize];
    let spots = u64::from(greatest_of(classes, document, bound)) + 1;
    u64::from(bound.count).saturating_mul(spots)
}

/// How many slots the arrays of all array types have.
fn all_array_slots(classes: &Classes, types: &Types, document: &FinDoc, bounds: &[Bound]) -> u64
    requires bounds { All (IsBound types.now document.now.arrays) bounds.now }
    requires lengths { All (λ b. All AreLengths b.lengths) document.now.arrays }
    ensures { result ≡ min (slots_of_arrays (setting_of (files_of classes.now) document.now) (map (bound_shown types.now document.now.arrays) bounds.now)) (2 ^ 64 - 1) }
{
    let mut total: u64 = 0;
    for bound in bounds {
        total = total.saturating_add(array_slots(classes, types, document, *bound));
    }
    total
}

/// How many parameters the method under test has, where one is tested.
#[tactic(auto, unfolding(kr_space_meaning::specs::Bounds::setting_of, kr_classes_table::specs::Table::table_of), using(crate::proofs::SlotCounts::shown_long))]
fn parameter_count(
    alloc: Global,
    classes: &Classes,
    document: &FinDoc,
    mode: &Mode,
    root: Option<u32>,
) -> Result<u64, NoMemory>
    requires classes { AreClasses classes.now }
    requires root { root ≡ root_of (setting_of (files_of classes.now) document.now) }
    ensures { IfOk result (λ n. n ≡ length (tested_parameters (setting_of (files_of classes.now) document.now) mode.now)) }
{
    let _ = document;
    match mode {
        Mode::List => Ok(0),
        Mode::Method(name) => {
            let parameters = instance_parameters(alloc, classes, root, name.as_str().as_bytes())?;
            Ok(parameters.len() as u64)
        }
    }
}

/// How many slots there are: `this`, the parameters of the method under test, and those of the objects.
pub(crate) fn slot_count(
    alloc: Global,
    classes: &Classes,
    types: &Types,
    document: &FinDoc,
    mode: &Mode,
    objects: &[Declared],
    bounds: &[Bound],
) -> Result<u64, NoMemory>
    requires classes { AreClasses classes.now }
    requires objects { All (IsDeclared document.now.objects) objects.now }
    requires bounds { All (IsBound types.now document.now.arrays) bounds.now }
    requires lengths { All (λ b. All AreLengths b.lengths) document.now.arrays }
    ensures { IfOk result (λ n. n ≡ min (length (tested_parameters (setting_of (files_of classes.now) document.now) mode.now) + (slots_of_objects (setting_of (files_of classes.now) document.now) (map (declared_shown document.now.objects) objects.now) + slots_of_arrays (setting_of (files_of classes.now) document.now) (map (bound_shown types.now document.now.arrays) bounds.now)) + 1) (2 ^ 64 - 1)) }
{
    let root = root_number(classes, document);
    let parameters = parameter_count(alloc, classes, document, mode, root)?;
    let of_objects = all_object_slots(alloc, classes, document, objects)?;
    let of_arrays = all_array_slots(classes, types, document, bounds);
    Ok(
        parameters
            .saturating_add(of_objects)
            .saturating_add(of_arrays)
            .saturating_add(1),
    )
}

/// The class of the root, if it has one.
#[tactic(auto, unfolding(kr_space_meaning::specs::Bounds::setting_of, kr_classes_table::specs::Table::table_of))]
pub(crate) fn root_number(classes: &Classes, document: &FinDoc) -> Option<u32>
    requires { AreClasses classes.now }
    ensures { result ≡ root_of (setting_of (files_of classes.now) document.now) }
{
    class_of(classes.heads, document, document.root.as_str().as_bytes())
}
