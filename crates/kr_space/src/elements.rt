// Rule S2 of the elements of arrays, and of the parameters of the method under test.
ghost use Rattle.std.specs.Prelude.{◌≡◌, ◌&&◌, nat_lt, All, OnOk, flat_map, fold, map};
ghost use Rattle.kr_space.specs.Vocabulary.{AreClasses, AreLengths, array_S2, bound_shown, files_of, greatest, IsBound, IsIndexOf, IsParameter, lengths_of, lesser, parameter_S2, parameter_shown, root_of, setting_of, tested_parameters, Testing};

use crate::keys::joined;
use crate::lengths::greatest_length;
use crate::undefined::note_absent;
use kr_ast::tree_of;
use kr_base::NoMemory;
use kr_classes_names::{Index, Types};
use kr_fin::{ArrayBound, FinDoc, Least};
use kr_mean::Mode;
use kr_space_meaning::SpaceRule;
use kr_space_rules::{Bound, Classes, Parameter, instance_parameters};

/// The greatest of the lengths of an array type.
pub(crate) fn greatest_of(classes: &Classes, document: &FinDoc, bound: &ArrayBound) -> u32
    requires { All AreLengths bound.now.lengths }
    ensures { result ≡ greatest (lengths_of (setting_of (files_of classes.now) document.now) bound.now.lengths) }
{
    let _ = classes;
    let _ = document;
    greatest_length(bound.lengths.as_slice())
}

/// Whether there are arrays, and one of them may have elements.
fn has_elements(count: u32, greatest: u32) -> bool
    ensures { result ≡ (nat_lt 0 count && nat_lt 0 greatest) }
{
    count > 0 && greatest > 0
}

/// The elements of an array type that has arrays with elements have a domain.
#[tactic(auto, unfolding(kr_space_meaning::specs::Bounds::setting_of))]
fn note_elements(
    least: &mut Least<SpaceRule>,
    classes: &Classes,
    types: &Types,
    fields: &Index,
    document: &FinDoc,
    bound: Bound,
) -> Result<(), NoMemory>
    requires fields { IsIndexOf (map (λ d. d.key) document.now.fields) fields.now }
    requires lengths { All (λ b. All AreLengths b.lengths) document.now.arrays }
    requires bound { IsBound types.now document.now.arrays bound }
    ensures { OnOk result (least.new ≡ fold lesser least.old (array_S2 (setting_of (files_of classes.now) document.now) (bound_shown types.now document.now.arrays bound))) }
{
    let _ = types;
    let bound = &document.arrays.as_slice()[bound.at as usize];
    if has_elements(bound.count, greatest_of(classes, document, bound)) {
        let name = bound.name.as_str().as_bytes();
        let key = joined(least.alloc(), name, b".*".as_slice())?;
        note_absent(
            least,
            b"fields.".as_slice(),
            fields,
            document.fields.as_slice(),
            &key,
        )
    } else {
        Ok(())
    }
}

/// The elements of each array type that has arrays with elements have a domain.
pub(crate) fn note_all_elements(
    least: &mut Least<SpaceRule>,
    classes: &Classes,
    types: &Types,
    fields: &Index,
    document: &FinDoc,
    bounds: &[Bound],
) -> Result<(), NoMemory>
    requires fields { IsIndexOf (map (λ d. d.key) document.now.fields) fields.now }
    requires lengths { All (λ b. All AreLengths b.lengths) document.now.arrays }
    requires bounds { All (IsBound types.now document.now.arrays) bounds.now }
    ensures { OnOk result (least.new ≡ fold lesser least.old (flat_map (array_S2 (setting_of (files_of classes.now) document.now)) (map (bound_shown types.now document.now.arrays) bounds.now))) }
{
    for bound in bounds {
        note_elements(least, classes, types, fields, document, *bound)?;
    }
    Ok(())
}

/// A parameter of the method under test has a domain.
#[tactic(auto, unfolding(kr_space_meaning::specs::Bounds::setting_of))]
fn note_parameter(
    least: &mut Least<SpaceRule>,
    classes: &Classes,
    params: &Index,
    document: &FinDoc,
    method: &[u8],
    parameter: Parameter,
) -> Result<(), NoMemory>
    requires params { IsIndexOf (map (λ d. d.key) document.now.params) params.now }
    requires parameter { IsParameter classes.now.trees.now parameter }
    ensures { OnOk result (least.new ≡ fold lesser least.old (parameter_S2 (setting_of (files_of classes.now) document.now) (Testing method.now) (parameter_shown classes.now.trees.now parameter))) }
{
    let owner = joined(least.alloc(), method, b".".as_slice())?;
    let name = tree_of(classes.trees, parameter.file).name(parameter.name);
    let key = joined(least.alloc(), &owner, name)?;
    note_absent(
        least,
        b"params.".as_slice(),
        params,
        document.params.as_slice(),
        &key,
    )
}

/// Each of some parameters of the method under test has a domain.
fn note_each_parameter(
    least: &mut Least<SpaceRule>,
    classes: &Classes,
    params: &Index,
    document: &FinDoc,
    method: &[u8],
    parameters: &[Parameter],
) -> Result<(), NoMemory>
    requires params { IsIndexOf (map (λ d. d.key) document.now.params) params.now }
    requires parameters { All (IsParameter classes.now.trees.now) parameters.now }
    ensures { OnOk result (least.new ≡ fold lesser least.old (flat_map (parameter_S2 (setting_of (files_of classes.now) document.now) (Testing method.now)) (map (parameter_shown classes.now.trees.now) parameters.now))) }
{
    for parameter in parameters {
        note_parameter(least, classes, params, document, method, *parameter)?;
    }
    Ok(())
}

/// The parameters of the method under test have domains, where one is tested.
#[tactic(auto, unfolding(kr_space_meaning::specs::Bounds::setting_of, kr_classes_table::specs::Table::table_of))]
pub(crate) fn note_parameters(
    least: &mut Least<SpaceRule>,
    classes: &Classes,
    params: &Index,
    document: &FinDoc,
    mode: &Mode,
    root: Option<u32>,
) -> Result<(), NoMemory>
    requires classes { AreClasses classes.now }
    requires params { IsIndexOf (map (λ d. d.key) document.now.params) params.now }
    requires root { root ≡ root_of (setting_of (files_of classes.now) document.now) }
    ensures { OnOk result (least.new ≡ fold lesser least.old (flat_map (parameter_S2 (setting_of (files_of classes.now) document.now) mode.now) (tested_parameters (setting_of (files_of classes.now) document.now) mode.now))) }
{
    match mode {
        Mode::List => Ok(()),
        Mode::Method(name) => {
            let method = name.as_str().as_bytes();
            let parameters = instance_parameters(least.alloc(), classes, root, method)?;
            note_each_parameter(least, classes, params, document, method, &parameters)
        }
    }
}
