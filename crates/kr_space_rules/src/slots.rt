// Rule S9: each domain is a field's, elements' or a parameter's.
ghost use Rattle.std.specs.Prelude.{◌≡◌, IfOk, OnOk, fold};
ghost use Rattle.kr_space_rules.specs.Vocabulary.{Extends, is_no_field_in, lesser, no_fields, no_params};
ghost use Rattle.kr_space_rules.specs.Classes.{AreClasses, AreTyped, table_of};

use crate::classes::Classes;
use crate::key_types::{field_type, parameter_type};
use kr_base::NoMemory;
use kr_classes_names::Types;
use kr_fin::{Least, NamedDomain};
use kr_space_meaning::SpaceRule;
use kr_space_names::{has_no_owner, item_of};
use std::alloc::Global;

/// Whether a class has no such field of its own.
#[tactic(auto, unfolding(kr_classes_table::specs::Table::table_of))]
fn is_no_field(
    alloc: Global,
    classes: &Classes,
    types: &mut Types,
    key: &[u8],
) -> Result<bool, NoMemory>
    requires classes { AreClasses classes.now }
    requires typed { AreTyped classes.now types.old }
    ensures is { IfOk result (λ b. b ≡ is_no_field_in (table_of classes.now) key.now) }
    ensures extends { Extends types.old types.new }
{
    let found = field_type(alloc, classes, types, key)?;
    let is_owned = !has_no_owner(alloc, types, classes.trees, classes.heads, key)?;
    Ok(found.is_none() && is_owned)
}

/// Each domain of a field or of elements is one's.
#[tactic(auto, using(kr_space_names::proofs::Growing::node_types_kept))]
fn note_fields(
    least: &mut Least<SpaceRule>,
    classes: &Classes,
    types: &mut Types,
    domains: &[NamedDomain],
) -> Result<(), NoMemory>
    requires classes { AreClasses classes.now }
    requires typed { AreTyped classes.now types.old }
    ensures noted { OnOk result (least.new ≡ fold lesser least.old (no_fields (table_of classes.now) domains.now)) }
    ensures extends { Extends types.old types.new }
{
    for domain in domains {
        if is_no_field(
            least.alloc(),
            classes,
            types,
            domain.key.as_str().as_bytes(),
        )? {
            let item = item_of(least.alloc(), "fields.", domain.key.as_str())?;
            least.note(SpaceRule::NoSlot, item.as_str())?;
        }
    }
    Ok(())
}

/// Each domain of a parameter is one's.
fn note_params(
    least: &mut Least<SpaceRule>,
    classes: &Classes,
    types: &Types,
    root: Option<u32>,
    domains: &[NamedDomain],
) -> Result<(), NoMemory>
    requires classes { AreClasses classes.now }
    requires typed { AreTyped classes.now types.now }
    ensures { OnOk result (least.new ≡ fold lesser least.old (no_params (table_of classes.now) root domains.now)) }
{
    for domain in domains {
        let key = domain.key.as_str().as_bytes();
        if parameter_type(least.alloc(), classes, types, root, key)?.is_none() {
            let item = item_of(least.alloc(), "params.", domain.key.as_str())?;
            least.note(SpaceRule::NoSlot, item.as_str())?;
        }
    }
    Ok(())
}

/// S9: each domain is that of a field, of an array type's elements or of a parameter.
pub fn note_slots(
    least: &mut Least<SpaceRule>,
    classes: &Classes,
    types: &mut Types,
    root: Option<u32>,
    fields: &[NamedDomain],
    params: &[NamedDomain],
) -> Result<(), NoMemory>
    requires classes { AreClasses classes.now }
    requires typed { AreTyped classes.now types.old }
    ensures noted { OnOk result (least.new ≡ fold lesser (fold lesser least.old (no_fields (table_of classes.now) fields.now)) (no_params (table_of classes.now) root params.now)) }
    ensures extends { Extends types.old types.new }
{
    note_fields(least, classes, types, fields)?;
    note_params(least, classes, &*types, root, params)
}
