// Rule S4: values fit the types of their slots.
ghost use Rattle.std.specs.Prelude.{◌≡◌, ◌<◌, IfOk, OnOk, Option, fold, not};
ghost use Rattle.std.specs.List.{list_any};
ghost use Rattle.kr_space_rules.specs.Vocabulary.{count, Extends, fields_unfit, fits, is_unfit_in, IsTypeNumber, JavaType, lesser, params_unfit, Stands};
ghost use Rattle.kr_space_rules.specs.Classes.{AreClasses, AreTyped, table_of};

use crate::classes::Classes;
use crate::fits::item_fits;
use crate::key_types::{field_type, parameter_type};
use kr_base::NoMemory;
use kr_classes_names::Types;
use kr_fin::{FinDoc, Item, Least, NamedDomain};
use kr_space_meaning::SpaceRule;
use kr_space_names::item_of;
use std::alloc::Global;

/// Whether one of the values doesn't fit the type.
fn has_unfit(
    alloc: Global,
    classes: &Classes,
    types: &mut Types,
    document: &FinDoc,
    number: u32,
    items: &[Item],
) -> Result<bool, NoMemory>
    requires classes { AreClasses classes.now }
    requires number { number < count types.old }
    ensures is { IfOk result (λ b. (t : JavaType) → IsTypeNumber types.old number t → b ≡ list_any (λ i. not (fits (table_of classes.now) document.now t i)) items.now) }
    ensures extends { Extends types.old types.new }
{
    for item in items {
        if !item_fits(alloc, classes, types, document, number, item)? {
            return Ok(true);
        }
    }
    Ok(false)
}

/// Whether one of the values doesn't fit the type, where there is one.
fn is_unfit(
    alloc: Global,
    classes: &Classes,
    types: &mut Types,
    document: &FinDoc,
    found: Option<u32>,
    items: &[Item],
) -> Result<bool, NoMemory>
    requires classes { AreClasses classes.now }
    requires found { (t : Option JavaType) × Stands types.old found t }
    ensures is { IfOk result (λ b. (t : Option JavaType) → Stands types.old found t → b ≡ is_unfit_in (table_of classes.now) document.now t items.now) }
    ensures extends { Extends types.old types.new }
{
    match found {
        None => Ok(false),
        Some(number) => has_unfit(alloc, classes, types, document, number, items),
    }
}

/// The values of fields and elements fit.
#[tactic(auto, using(kr_space_names::proofs::Growing::node_types_kept))]
fn note_fields(
    least: &mut Least<SpaceRule>,
    classes: &Classes,
    types: &mut Types,
    document: &FinDoc,
    domains: &[NamedDomain],
) -> Result<(), NoMemory>
    requires classes { AreClasses classes.now }
    requires typed { AreTyped classes.now types.old }
    ensures noted { OnOk result (least.new ≡ fold lesser least.old (fields_unfit (table_of classes.now) document.now domains.now)) }
    ensures extends { Extends types.old types.new }
{
    for domain in domains {
        let found = field_type(
            least.alloc(),
            classes,
            types,
            domain.key.as_str().as_bytes(),
        )?;
        if is_unfit(
            least.alloc(),
            classes,
            types,
            document,
            found,
            domain.domain.as_slice(),
        )? {
            let item = item_of(least.alloc(), "fields.", domain.key.as_str())?;
            least.note(SpaceRule::UnfitValue, item.as_str())?;
        }
    }
    Ok(())
}

/// The values of parameters fit.
#[tactic(auto, using(kr_space_names::proofs::Growing::node_types_kept))]
fn note_params(
    least: &mut Least<SpaceRule>,
    classes: &Classes,
    types: &mut Types,
    document: &FinDoc,
    root: Option<u32>,
    domains: &[NamedDomain],
) -> Result<(), NoMemory>
    requires classes { AreClasses classes.now }
    requires typed { AreTyped classes.now types.old }
    ensures noted { OnOk result (least.new ≡ fold lesser least.old (params_unfit (table_of classes.now) document.now root domains.now)) }
    ensures extends { Extends types.old types.new }
{
    for domain in domains {
        let key = domain.key.as_str().as_bytes();
        let found = parameter_type(least.alloc(), classes, &*types, root, key)?;
        if is_unfit(
            least.alloc(),
            classes,
            types,
            document,
            found,
            domain.domain.as_slice(),
        )? {
            let item = item_of(least.alloc(), "params.", domain.key.as_str())?;
            least.note(SpaceRule::UnfitValue, item.as_str())?;
        }
    }
    Ok(())
}

/// S4: the values of each domain fit the type that its key requires, where it requires one.
#[tactic(auto, using(kr_space_names::proofs::Growing::node_types_kept))]
pub fn note_unfit(
    least: &mut Least<SpaceRule>,
    classes: &Classes,
    types: &mut Types,
    document: &FinDoc,
    root: Option<u32>,
) -> Result<(), NoMemory>
    requires classes { AreClasses classes.now }
    requires typed { AreTyped classes.now types.old }
    ensures noted { OnOk result (least.new ≡ fold lesser (fold lesser least.old (fields_unfit (table_of classes.now) document.now document.now.fields)) (params_unfit (table_of classes.now) document.now root document.now.params)) }
    ensures extends { Extends types.old types.new }
{
    note_fields(least, classes, types, document, document.fields.as_slice())?;
    let params = document.params.as_slice();
    note_params(least, classes, types, document, root, params)
}
