// Types made of one type.
ghost use Rattle.std.specs.Prelude.{◌<◌, IfOk, None, Option, Some, if◌then◌else◌};
ghost use Rattle.kr_space_names.specs.Vocabulary.{count, Extends, is_element, IsMadeOf, JavaType, type_at, type_of_form};
ghost use Rattle.kr_space_names.specs.Texts.{Stands, wrap as wrapped_once, wrapped};

use kr_base::NoMemory;
use kr_classes_names::{TypeForm, Types};

/// An array type, or one of the two collections, of a type.
#[derive(Clone, Copy, PartialEq, Eq)]
pub(crate) enum Wrapping {
    Array,
    Set,
    List,
}

/// The number of a collection, where its members' type may be in one.
fn collection(types: &mut Types, form: TypeForm, member: u32) -> Result<Option<u32>, NoMemory>
    requires form { IsMadeOf types.old form }
    requires member { member < count types.old }
    ensures stands { IfOk result (λ found. Stands types.new found (if is_element (type_at types.old member) then Some (type_of_form types.old form) else None)) }
    ensures extends { Extends types.old types.new }
{
    if types.is_element(member) {
        Ok(Some(types.number(form)?))
    } else {
        Ok(None)
    }
}

/// The number of an array type, or of a collection, of the type of a number.
pub(crate) fn wrap(
    types: &mut Types,
    wrapping: Wrapping,
    found: Option<u32>,
) -> Result<Option<u32>, NoMemory>
    requires { (t : Option JavaType) × Stands types.old found t }
    ensures stands { IfOk result (λ next. (t : Option JavaType) → Stands types.old found t → Stands types.new next (wrapped_once wrapping t)) }
    ensures extends { Extends types.old types.new }
{
    let Some(number) = found else {
        return Ok(None);
    };
    match wrapping {
        Wrapping::Array => Ok(Some(types.number(TypeForm::Array(number))?)),
        Wrapping::Set => collection(types, TypeForm::Set(number), number),
        Wrapping::List => collection(types, TypeForm::List(number), number),
    }
}

/// The number of a type in several wrappings, the outermost first.
pub(crate) fn wrap_all(
    types: &mut Types,
    wrappings: Vec<Wrapping>,
    found: Option<u32>,
) -> Result<Option<u32>, NoMemory>
    requires { (t : Option JavaType) × Stands types.old found t }
    ensures stands { IfOk result (λ next. (t : Option JavaType) → Stands types.old found t → Stands types.new next (wrapped wrappings.items t)) }
    ensures some { IfOk result (λ next. (t : Option JavaType) × Stands types.new next t) }
    ensures extends { Extends types.old types.new }
{
    let mut wrappings = wrappings;
    let mut next = found;
    while let Some(wrapping) = wrappings.pop() {
        next = wrap(types, wrapping, next)?;
    }
    Ok(next)
}
