// Which values fit which types.
ghost use Rattle.std.specs.Prelude.{◌≡◌, ◌<◌, ◌&&◌, ◌||◌, not, IfOk};
ghost use Rattle.std.specs.Int.Signed.{le_z};
ghost use Rattle.kr_classes_table.specs.Table as table;
ghost use Rattle.kr_space_rules.specs.Vocabulary.{ClassType, count, Extends, fits, is_within, IsMeaning, IsTypeNumber, JavaType, Meant, meant_fits_in, number_fits, type_at};
ghost use Rattle.kr_space_rules.specs.Classes.{AreClasses, table_of};

use crate::classes::Classes;
use kr_base::NoMemory;
use kr_classes_names::{TypeForm, Types};
use kr_fin::{FinDoc, Item};
use kr_space_names::{Meaning, meaning_of};
use kr_types_judging::is_assignable;
use kr_value::Width;
use std::alloc::Global;

/// Whether objects of a class go into a type.
fn class_fits(classes: &Classes, types: &Types, number: u32, class: u32) -> bool
    requires classes { AreClasses classes.now }
    requires number { number < count types.now }
    ensures { result ≡ table.is_assignable (table_of classes.now) (ClassType class) (type_at types.now number) }
{
    match types.form(number) {
        TypeForm::Class(other) => classes.members.is_below(class, other),
        _ => false,
    }
}

/// Whether the meaning of a name fits a type.
fn meant_fits(classes: &Classes, types: &Types, number: u32, meaning: Meaning) -> bool
    requires classes { AreClasses classes.now }
    requires number { number < count types.now }
    requires meaning { (m : Meant) × IsMeaning types.now meaning m }
    ensures { (m : Meant) → IsMeaning types.now meaning m → result ≡ meant_fits_in (table_of classes.now) (type_at types.now number) m }
{
    match meaning {
        Meaning::Null => types.is_reference(number),
        Meaning::Objects(class) => class_fits(classes, types, number, class),
        Meaning::Arrays(array) => is_assignable(types, classes.members, array, number),
        Meaning::Unknown => true,
    }
}

/// Whether it is a number of the width.
#[tactic(auto, using(crate::proofs::Ends::int_ends, crate::proofs::Ends::long_ends))]
fn is_within(width: Width, number: i64) -> bool
    ensures { result ≡ is_within width number }
{
    match width {
        Width::Bits32 => -2_147_483_648 <= number && number <= 2_147_483_647,
        Width::Bits64 => true,
    }
}

/// Whether a number is one of the type.
fn number_fits(types: &Types, class: u32, number: i64) -> bool
    requires { class < count types.now }
    ensures { result ≡ number_fits (type_at types.now class) number }
{
    match types.form(class) {
        TypeForm::Number(width) => is_within(width, number),
        _ => false,
    }
}

/// Whether the range is empty, or its ends fit a type.
fn range_fits(types: &Types, class: u32, from: i64, to: i64) -> bool
    requires { class < count types.now }
    ensures { result ≡ (not (le_z from to) || (number_fits (type_at types.now class) from && number_fits (type_at types.now class) to)) }
{
    from > to || (number_fits(types, class, from) && number_fits(types, class, to))
}

/// Whether a value of a domain fits a type.
#[tactic(auto, unfolding(kr_classes_table::specs::Table::table_of))]
pub(crate) fn item_fits(
    alloc: Global,
    classes: &Classes,
    types: &mut Types,
    document: &FinDoc,
    number: u32,
    item: &Item,
) -> Result<bool, NoMemory>
    requires classes { AreClasses classes.now }
    requires number { number < count types.old }
    ensures is { IfOk result (λ b. (t : JavaType) → IsTypeNumber types.old number t → b ≡ fits (table_of classes.now) document.now t item.now) }
    ensures extends { Extends types.old types.new }
{
    match item {
        Item::Number(value) => Ok(number_fits(&*types, number, *value)),
        Item::Range(from, to) => Ok(range_fits(&*types, number, *from, *to)),
        Item::Truth(_) => Ok(types.is_same(number, types.boolean())),
        Item::Name(name) => {
            let name = name.as_str().as_bytes();
            let meaning = meaning_of(alloc, types, classes.heads, document, name)?;
            Ok(meant_fits(classes, &*types, number, meaning))
        }
    }
}
