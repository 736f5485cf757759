// Which type a text means.
ghost use Rattle.std.specs.Prelude.{IfOk, List, Option, length, map};
ghost use Rattle.kr_space_names.specs.Vocabulary.{AreHeads, Arena, array_or_none, array_type_of, Extends, headings_of, JavaType, root, type_within, word_type};
ghost use Rattle.kr_space_names.specs.Texts.{Stands};

use crate::peeling::peel;
use crate::wrapping::{Wrapping, wrap_all};
use kr_base::NoMemory;
use kr_classes_names::{Heads, TypeForm, Types};
use std::alloc::Global;

/// The number of `int`, `long`, `boolean` or a class.
fn word(types: &mut Types, heads: &Heads, text: &[u8]) -> Result<Option<u32>, NoMemory>
    ensures stands { IfOk result (λ found. (files : List Arena) → AreHeads files heads.now → Stands types.new found (word_type (headings_of (map root files)) text.now)) }
    ensures some { IfOk result (λ found. (t : Option JavaType) × Stands types.new found t) }
    ensures extends { Extends types.old types.new }
{
    if text == b"int".as_slice() {
        Ok(Some(types.int()))
    } else if text == b"long".as_slice() {
        Ok(Some(types.long()))
    } else if text == b"boolean".as_slice() {
        Ok(Some(types.boolean()))
    } else {
        match heads.number_of(text) {
            None => Ok(None),
            Some(class) => Ok(Some(types.number(TypeForm::Class(class))?)),
        }
    }
}

/// The number of the type that a text means, if it means one: `int`, `long`, `boolean`, a class, an array type, or a collection
/// of class or array types.
pub fn type_number(
    alloc: Global,
    types: &mut Types,
    heads: &Heads,
    text: &[u8],
) -> Result<Option<u32>, NoMemory>
    ensures stands { IfOk result (λ found. (files : List Arena) → AreHeads files heads.now → Stands types.new found (type_within (length text.now) (headings_of (map root files)) text.now)) }
    ensures some { IfOk result (λ found. (t : Option JavaType) × Stands types.new found t) }
    ensures extends { Extends types.old types.new }
{
    if text.is_empty() {
        return Ok(None);
    }
    let mut wrappings = Vec::new(alloc);
    let mut rest = text;
    while let Some((wrapping, inner)) = peel(rest) {
        wrappings.push(wrapping)?;
        rest = inner;
    }
    let found = word(types, heads, rest)?;
    wrap_all(types, wrappings, found)
}

/// The number, where its type is an array type.
fn only_array(types: &Types, found: Option<u32>) -> Option<u32>
    requires { (t : Option JavaType) × Stands types.now found t }
    ensures { (t : Option JavaType) → Stands types.now found t → Stands types.now result (array_or_none t) }
{
    let Some(number) = found else {
        return None;
    };
    match types.form(number) {
        TypeForm::Array(_) => Some(number),
        TypeForm::Number(_) => None,
        TypeForm::Boolean => None,
        TypeForm::Null => None,
        TypeForm::Void => None,
        TypeForm::Inferred => None,
        TypeForm::Class(_) => None,
        TypeForm::Set(_) => None,
        TypeForm::List(_) => None,
        TypeForm::Unknown(..) => None,
        TypeForm::Applied(..) => None,
    }
}

/// The number of the array type that a text means, if it means one.
#[tactic(auto, unfolding(kr_space_meaning::specs::Names::array_type))]
pub fn array_type(
    alloc: Global,
    types: &mut Types,
    heads: &Heads,
    text: &[u8],
) -> Result<Option<u32>, NoMemory>
    ensures stands { IfOk result (λ found. (files : List Arena) → AreHeads files heads.now → Stands types.new found (array_type_of (headings_of (map root files)) text.now)) }
    ensures extends { Extends types.old types.new }
{
    let found = type_number(alloc, types, heads, text)?;
    Ok(only_array(&*types, found))
}
