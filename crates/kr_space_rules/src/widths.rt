// The widths of the numbers of domains, by the types that their keys require.
ghost use Rattle.std.specs.Prelude.{◌≡◌, IfOk, Option};
ghost use Rattle.kr_space_rules.specs.Vocabulary.{Extends, JavaType, setting_of, Stands, width_of_type};
ghost use Rattle.kr_space_rules.specs.Classes.{AreClasses, AreTyped, files_of};
ghost use Rattle.kr_space_rules.specs.Widths.{asked};

use crate::classes::Classes;
use crate::key_types::{field_type, parameter_type};
use kr_base::NoMemory;
use kr_classes_names::Types;
use kr_fin::FinDoc;
use kr_space_names::class_of;
use kr_value::Width;
use std::alloc::Global;

/// Whose domains the keys of a table name: those of fields and elements, or those of parameters.
#[derive(Clone, Copy, PartialEq, Eq)]
pub enum Keyed {
    Field,
    Parameter,
}

/// The width at which the numbers of a domain are made.
#[tactic(auto, unfolding(kr_space_meaning::specs::Bounds::width_for))]
fn width_for(types: &Types, found: Option<u32>) -> Width
    ensures { (t : Option JavaType) → Stands types.now found t → result ≡ width_of_type t }
{
    let _ = types;
    let _ = found;
    Width::Bits32
}

/// The number of the type that a key requires, if it requires one.
#[tactic(auto, unfolding(kr_space_meaning::specs::Bounds::setting_of, kr_classes_table::specs::Table::table_of))]
fn type_asked(
    alloc: Global,
    classes: &Classes,
    types: &mut Types,
    document: &FinDoc,
    keyed: Keyed,
    key: &[u8],
) -> Result<Option<u32>, NoMemory>
    requires classes { AreClasses classes.now }
    requires typed { AreTyped classes.now types.old }
    ensures stands { IfOk result (λ found. Stands types.new found (asked (setting_of (files_of classes.now) document.now) keyed key.now)) }
    ensures extends { Extends types.old types.new }
{
    match keyed {
        Keyed::Field => field_type(alloc, classes, types, key),
        Keyed::Parameter => {
            let root = class_of(classes.heads, document, document.root.as_str().as_bytes());
            parameter_type(alloc, classes, &*types, root, key)
        }
    }
}

/// The width of the numbers of the domain that a key names.
pub fn width_asked(
    alloc: Global,
    classes: &Classes,
    types: &mut Types,
    document: &FinDoc,
    keyed: Keyed,
    key: &[u8],
) -> Result<Width, NoMemory>
    requires classes { AreClasses classes.now }
    requires typed { AreTyped classes.now types.old }
    ensures width { IfOk result (λ width. width ≡ width_of_type (asked (setting_of (files_of classes.now) document.now) keyed key.now)) }
    ensures extends { Extends types.old types.new }
{
    let found = type_asked(alloc, classes, types, document, keyed, key)?;
    Ok(width_for(&*types, found))
}
