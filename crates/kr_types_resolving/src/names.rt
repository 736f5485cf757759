// The meaning of a name at a node.
ghost use Rattle.std.specs.Prelude.{◌≡◌, ◌<◌, List, Some, IfOk, IfSome, length, option_and_then, slice_get};
ghost use Rattle.kr_ast.specs.Files.{file_at};
ghost use Rattle.kr_classes_table.specs.Constants.{Known, constant_of, field_meant};
ghost use Rattle.kr_types_meaning.specs.Scopes.{field_or_none, meant};
ghost use Rattle.kr_types_scopes.specs.Settings.{setting};
ghost use Rattle.kr_types_scopes.specs.Scoped.{AreScopes, scope_at};
ghost use Rattle.kr_classes_members.specs.Rosters.{all_fields};
ghost use Rattle.kr_types_resolving.specs.Meanings as meanings;
ghost use Rattle.kr_types_resolving.specs.Shown.{AreClasses, IsMeaningWithin, meaning_shown, table_of};

use crate::members::field_meaning;
use crate::{Classes, Meaning};
use kr_ast::tree_of;
use kr_base::NoMemory;
use kr_classes_table::{ClassId, FieldId};
use kr_types_scopes::Scopes;

/// The constant of a name that a class has, by its number.
pub(crate) fn constant_named(classes: &Classes<'_>, class: ClassId, name: &[u8]) -> Option<FieldId>
    requires classes { AreClasses classes.now }
    ensures within { IfSome result (λ k. k < length (all_fields (table_of classes.now))) }
    ensures shown { option_and_then (slice_get (all_fields (table_of classes.now))) result ≡ constant_of (table_of classes.now) (Some class) name.now }
{
    match classes.roster.field_named(classes.members, class, name) {
        None => None,
        Some(number) => {
            if classes.roster.fields[number as usize].is_static {
                Some(number)
            } else {
                None
            }
        }
    }
}

/// The field or constant that a name means in the code of a class if no local has it, by its number.
fn field_meant(classes: &Classes<'_>, class: ClassId, name: &[u8]) -> Option<FieldId>
    requires classes { AreClasses classes.now }
    ensures within { IfSome result (λ k. k < length (all_fields (table_of classes.now))) }
    ensures shown { option_and_then (slice_get (all_fields (table_of classes.now))) result ≡ field_meant (table_of classes.now) class name.now }
{
    match classes.roster.field_named(classes.members, class, name) {
        Some(number) => Some(number),
        None => match classes.members.outer_class(class) {
            None => None,
            Some(outer) => constant_named(classes, outer, name),
        },
    }
}

/// The meaning of a name that no local has.
fn unbound_meaning(classes: &Classes<'_>, class: ClassId, name: &[u8]) -> Meaning
    requires classes { AreClasses classes.now }
    ensures within { IsMeaningWithin (table_of classes.now) result }
    ensures shown { meaning_shown (table_of classes.now) result ≡ meanings.name_meaning (table_of classes.now) name.now (field_or_none (field_meant (table_of classes.now) class name.now)) }
{
    match field_meant(classes, class, name) {
        None => Meaning::of_class(classes.heads.number_of(name)),
        Some(number) => field_meaning(classes, Some(number)),
    }
}

/// The meaning of a name at a node of a file, in the code of a class. Fails at 2^32 - 1 locals.
pub fn variable_meaning(
    classes: &Classes<'_>,
    scopes: &Scopes,
    file: u32,
    node: u32,
    class: ClassId,
    name: &[u8],
) -> Result<Meaning, NoMemory>
    requires classes { AreClasses classes.now }
    requires file { file < length classes.now.trees.now }
    requires node { node < length (file_at classes.now.trees.now file).entries }
    requires scopes { AreScopes (file_at classes.now.trees.now file) scopes.now.bindings.items scopes.now.within.items }
    ensures within { IfOk result (λ m. IsMeaningWithin (table_of classes.now) m) }
    ensures shown { IfOk result (λ m. (known : List Known) → let s = scope_at (setting (table_of classes.now) known (file_at classes.now.trees.now file)) scopes.now.bindings.items scopes.now.within.items node in s.class ≡ class → meaning_shown (table_of classes.now) m ≡ meanings.name_meaning (table_of classes.now) name.now (meant s name.now)) }
{
    match scopes.local(tree_of(classes.trees, file), node, name) {
        None => Ok(unbound_meaning(classes, class, name)),
        Some(local) => {
            if local.number >= 0xffff_ffff {
                return Err(NoMemory::at_sum(local.number as u64, 1));
            }
            Ok(Meaning::Local(local.number as u32))
        }
    }
}
