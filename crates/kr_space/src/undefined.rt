// Rule S2: each field, element and parameter that has slots has a domain.
ghost use Rattle.std.specs.Prelude.{◌≡◌, All, IfOk, OnOk, codes, flat_map, fold, map};
ghost use Rattle.kr_space.specs.Vocabulary.{AreClasses, class_name_in, declared_shown, field_shown, files_of, IsField, IsIndexOf, key_of_field, lesser, no_domain, object_S2, setting_of, table_of};

use crate::keys::{is_absent, joined};
use kr_ast::tree_of;
use kr_base::NoMemory;
use kr_classes_members::Field;
use kr_classes_names::Index;
use kr_fin::{FinDoc, Least, NamedDomain};
use kr_space_meaning::SpaceRule;
use kr_space_rules::{Classes, Declared};
use std::alloc::Global;

/// Notes a key that no domain is given for.
pub(crate) fn note_absent(
    least: &mut Least<SpaceRule>,
    table: &[u8],
    index: &Index,
    domains: &[NamedDomain],
    key: &[u8],
) -> Result<(), NoMemory>
    requires { IsIndexOf (map (λ d. d.key) domains.now) index.now }
    ensures { OnOk result (least.new ≡ fold lesser least.old (no_domain table.now domains.now key.now)) }
{
    if is_absent(index, domains, key) {
        let item = joined(least.alloc(), table, key)?;
        least.note_at(SpaceRule::NoDomain, &item)
    } else {
        Ok(())
    }
}

/// The name of a class.
#[tactic(auto, unfolding(kr_classes_table::specs::Table::table_of))]
pub(crate) fn class_name<'p>(classes: &Classes<'p>, class: u32) -> &'p [u8]
    requires { AreClasses classes.now }
    ensures { result.now ≡ class_name_in (table_of classes.now) class }
{
    match classes.heads.headings().get(class as usize) {
        None => &[],
        Some(heading) => tree_of(classes.trees, heading.file).name(heading.name),
    }
}

/// The key of a field: its class, a dot and its name.
pub(crate) fn field_key(alloc: Global, classes: &Classes, field: Field) -> Result<Vec<u8>, NoMemory>
    requires classes { AreClasses classes.now }
    requires field { IsField classes.now.trees.now field }
    ensures { IfOk result (λ key. key.items ≡ key_of_field (table_of classes.now) (field_shown classes.now.trees.now field)) }
{
    let owner = joined(alloc, class_name(classes, field.class), b".".as_slice())?;
    let name = tree_of(classes.trees, field.file).name(field.name);
    joined(alloc, &owner, name)
}

/// Each of some fields has a domain.
fn note_fields(
    least: &mut Least<SpaceRule>,
    classes: &Classes,
    index: &Index,
    domains: &[NamedDomain],
    fields: &[Field],
) -> Result<(), NoMemory>
    requires classes { AreClasses classes.now }
    requires index { IsIndexOf (map (λ d. d.key) domains.now) index.now }
    requires fields { All (IsField classes.now.trees.now) fields.now }
    ensures { OnOk result (least.new ≡ fold lesser least.old (flat_map (λ f. no_domain (codes "fields.") domains.now (key_of_field (table_of classes.now) f)) (map (field_shown classes.now.trees.now) fields.now))) }
{
    for field in fields {
        let key = field_key(least.alloc(), classes, *field)?;
        note_absent(least, b"fields.".as_slice(), index, domains, &key)?;
    }
    Ok(())
}

/// The fields of the objects of a domain have domains.
#[tactic(auto, unfolding(kr_space_meaning::specs::Bounds::setting_of))]
fn note_object(
    least: &mut Least<SpaceRule>,
    classes: &Classes,
    fields: &Index,
    document: &FinDoc,
    object: Declared,
) -> Result<(), NoMemory>
    requires classes { AreClasses classes.now }
    requires fields { IsIndexOf (map (λ d. d.key) document.now.fields) fields.now }
    ensures { OnOk result (least.new ≡ fold lesser least.old (object_S2 (setting_of (files_of classes.now) document.now) (declared_shown document.now.objects object))) }
{
    let own = classes.members.fields_of(least.alloc(), object.class)?;
    note_fields(least, classes, fields, document.fields.as_slice(), &own)
}

/// The fields of the objects that are declared have domains.
pub(crate) fn note_undefined(
    least: &mut Least<SpaceRule>,
    classes: &Classes,
    objects: &[Declared],
    fields: &Index,
    document: &FinDoc,
) -> Result<(), NoMemory>
    requires classes { AreClasses classes.now }
    requires fields { IsIndexOf (map (λ d. d.key) document.now.fields) fields.now }
    ensures { OnOk result (least.new ≡ fold lesser least.old (flat_map (object_S2 (setting_of (files_of classes.now) document.now)) (map (declared_shown document.now.objects) objects.now))) }
{
    for object in objects {
        note_object(least, classes, fields, document, *object)?;
    }
    Ok(())
}
