// Fields and methods that were found, as meanings.
ghost use Rattle.std.specs.Prelude.{◌≡◌, ◌<◌, IfSome, length, option_and_then, slice_get};
ghost use Rattle.kr_classes_members.specs.Rosters.{all_fields, all_methods};
ghost use Rattle.kr_types_resolving.specs.Meanings as meanings;
ghost use Rattle.kr_types_resolving.specs.Shown.{AreClasses, IsMeaningWithin, meaning_shown, table_of};

use crate::{Classes, Meaning};
use kr_classes_table::{FieldId, MethodId};

/// A field or constant by its number.
pub(crate) fn field_meaning(classes: &Classes<'_>, found: Option<FieldId>) -> Meaning
    requires classes { AreClasses classes.now }
    requires found { IfSome found (λ k. k < length (all_fields (table_of classes.now))) }
    ensures within { IsMeaningWithin (table_of classes.now) result }
    ensures shown { meaning_shown (table_of classes.now) result ≡ meanings.field_meaning (option_and_then (slice_get (all_fields (table_of classes.now))) found) }
{
    match found {
        None => Meaning::Nothing,
        Some(number) => {
            if classes.roster.fields[number as usize].is_static {
                Meaning::Constant(number)
            } else {
                Meaning::Instance(number)
            }
        }
    }
}

/// A method by its number.
pub(crate) fn method_meaning(classes: &Classes<'_>, found: Option<MethodId>) -> Meaning
    requires classes { AreClasses classes.now }
    requires found { IfSome found (λ k. k < length (all_methods (table_of classes.now))) }
    ensures within { IsMeaningWithin (table_of classes.now) result }
    ensures shown { meaning_shown (table_of classes.now) result ≡ meanings.method_meaning (option_and_then (slice_get (all_methods (table_of classes.now))) found) }
{
    match found {
        None => Meaning::Nothing,
        Some(number) => {
            if classes.roster.methods[number as usize].is_static {
                Meaning::Static(number)
            } else {
                Meaning::Virtual(number)
            }
        }
    }
}
