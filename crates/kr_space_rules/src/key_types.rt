// The types of the values that keys of domains require.
ghost use Rattle.std.specs.Prelude.{All, IfOk, Option, bytes_eq, find, map, option_map};
ghost use Rattle.kr_space_rules.specs.Vocabulary.{Extends, field_shown, JavaType, Stands};
ghost use Rattle.kr_space_meaning.specs.Keys as spec;
ghost use Rattle.kr_space_rules.specs.Classes.{AreClasses, AreTyped, table_of};
ghost use Rattle.kr_space_rules.specs.Parameters.{IsParameter, parameter_shown};

use crate::classes::Classes;
use crate::parameters::{Parameter, parameters_of};
use kr_ast::tree_of;
use kr_base::NoMemory;
use kr_classes_members::Field;
use kr_classes_names::{TypeForm, Types};
use kr_space_names::{array_type, is_elements, name_part, owner_part};
use std::alloc::Global;

/// The number of the type of an array type's elements.
fn element_of(types: &Types, found: Option<u32>) -> Option<u32>
    requires { (t : Option JavaType) × Stands types.now found t }
    ensures { (t : Option JavaType) → Stands types.now found t → Stands types.now result (spec.element_of t) }
{
    let Some(number) = found else {
        return None;
    };
    match types.form(number) {
        TypeForm::Array(element) => Some(element),
        TypeForm::Number(_) => None,
        TypeForm::Boolean => None,
        TypeForm::Null => None,
        TypeForm::Void => None,
        TypeForm::Inferred => None,
        TypeForm::Class(_) => None,
        TypeForm::Set(_) => None,
        TypeForm::List(_) => None,
        TypeForm::Unknown(..) => None,
        TypeForm::Applied(..) => None,
    }
}

/// The number of the type of a field, where each object has it.
fn instance_type(classes: &Classes, types: &Types, field: Field) -> Option<u32>
    requires { AreTyped classes.now types.now }
    ensures { Stands types.now result (spec.instance_type (field_shown classes.now.trees.now field)) }
{
    if field.is_static {
        None
    } else {
        Some(classes.numbers.number(field.file, field.declared))
    }
}

/// The number of the type of the instance field of a name that a class itself declares.
fn own_field_type(classes: &Classes, types: &Types, name: &[u8], class: Option<u32>) -> Option<u32>
    requires classes { AreClasses classes.now }
    requires typed { AreTyped classes.now types.now }
    ensures { Stands types.now result (spec.own_field_type (table_of classes.now) name.now class) }
{
    let Some(class) = class else {
        return None;
    };
    match classes.members.own_field(class, name) {
        None => None,
        Some(field) => instance_type(classes, types, field),
    }
}

/// The number of the type that a key of `fields` requires.
#[tactic(auto, unfolding(kr_classes_table::specs::Table::table_of))]
pub(crate) fn field_type(
    alloc: Global,
    classes: &Classes,
    types: &mut Types,
    key: &[u8],
) -> Result<Option<u32>, NoMemory>
    requires classes { AreClasses classes.now }
    requires typed { AreTyped classes.now types.old }
    ensures stands { IfOk result (λ found. Stands types.new found (spec.field_type (table_of classes.now) key.now)) }
    ensures extends { Extends types.old types.new }
{
    let owner = owner_part(key);
    if is_elements(key) {
        let found = array_type(alloc, types, classes.heads, owner)?;
        Ok(element_of(&*types, found))
    } else {
        let class = classes.heads.number_of(owner);
        Ok(own_field_type(classes, &*types, name_part(key), class))
    }
}

/// The number of the type of the parameter of a name, the first of them.
fn type_among(
    classes: &Classes,
    types: &Types,
    parameters: &[Parameter],
    name: &[u8],
) -> Option<u32>
    requires stand { All (IsParameter classes.now.trees.now) parameters.now }
    requires typed { AreTyped classes.now types.now }
    ensures { Stands types.now result (option_map (λ p. p.type) (find (λ p. bytes_eq p.name name.now) (map (parameter_shown classes.now.trees.now) parameters.now))) }
{
    for parameter in parameters {
        if tree_of(classes.trees, parameter.file).name(parameter.name) == name {
            return Some(classes.numbers.number(parameter.file, parameter.declared));
        }
    }
    None
}

/// The number of the type that a key of `params` requires.
pub(crate) fn parameter_type(
    alloc: Global,
    classes: &Classes,
    types: &Types,
    root: Option<u32>,
    key: &[u8],
) -> Result<Option<u32>, NoMemory>
    requires classes { AreClasses classes.now }
    requires typed { AreTyped classes.now types.now }
    ensures { IfOk result (λ found. Stands types.now found (spec.parameter_type (table_of classes.now) root key.now)) }
{
    let parameters = parameters_of(alloc, classes, root, owner_part(key))?;
    Ok(type_among(classes, types, &parameters, name_part(key)))
}
