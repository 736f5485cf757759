// The array types in a type.
ghost use Rattle.std.specs.Prelude.{◌≡◌, ◌<◌, ◌++◌, ◌∷◌, [], IfOk, IfSome, MatchOption, OnOk, if◌then◌else◌, reverse};
ghost use Rattle.kr_space_names.specs.Vocabulary.{arrays_in, count, type_at};
ghost use Rattle.kr_space_names.specs.Collected.{AreNumbers, IsClosed, collected, depth, types_shown};

use crate::collected::add_all;
use crate::list::Arrays;
use kr_base::NoMemory;
use kr_classes_names::{TypeForm, Types};
use std::alloc::Global;

/// The type of the elements of an array type, or of the members of a collection.
#[derive(Clone, Copy)]
struct Inner {
    number: u32,
    is_of_array: bool,
}

/// The parts of a type, if it is an array type or a collection.
fn inner_of(types: &Types, number: u32) -> Option<Inner>
    requires { number < count types.now }
    ensures within { IfSome result (λ i. i.number < count types.now) }
    ensures smaller { IfSome result (λ i. depth (type_at types.now i.number) < depth (type_at types.now number)) }
    ensures shown { MatchOption result (arrays_in (type_at types.now number) ≡ []) (λ i. arrays_in (type_at types.now number) ≡ arrays_in (type_at types.now i.number) ++ (if i.is_of_array then type_at types.now number ∷ [] else [])) }
{
    match types.form(number) {
        TypeForm::Array(element) => Some(Inner {
            number: element,
            is_of_array: true,
        }),
        TypeForm::Set(member) => Some(Inner {
            number: member,
            is_of_array: false,
        }),
        TypeForm::List(member) => Some(Inner {
            number: member,
            is_of_array: false,
        }),
        _ => None,
    }
}

/// Adds a number where it is wanted.
fn add_if(found: &mut Vec<u32>, is_wanted: bool, number: u32) -> Result<(), NoMemory>
    ensures { OnOk result (found.new.items ≡ found.old.items ++ (if is_wanted then number ∷ [] else [])) }
{
    if is_wanted {
        found.push(number)?;
    }
    Ok(())
}

/// The parts of a type, if there are array types in it that aren't listed.
#[tactic(auto, using(crate::proofs::Closed::there_already, crate::proofs::Closed::none_in))]
fn inner_left(types: &Types, arrays: &Arrays, number: u32) -> Option<Inner>
    requires numbers { AreNumbers types.now arrays.now }
    requires closed { IsClosed (types_shown types.now arrays.now) }
    requires number { number < count types.now }
    ensures within { IfSome result (λ i. i.number < count types.now) }
    ensures smaller { IfSome result (λ i. depth (type_at types.now i.number) < depth (type_at types.now number)) }
    ensures shown { MatchOption result (collected (types_shown types.now arrays.now) (arrays_in (type_at types.now number)) ≡ types_shown types.now arrays.now) (λ i. arrays_in (type_at types.now number) ≡ arrays_in (type_at types.now i.number) ++ (if i.is_of_array then type_at types.now number ∷ [] else [])) }
{
    types.distinct_law();
    if arrays.has(number) {
        return None;
    }
    match inner_of(types, number) {
        None => None,
        Some(inner) => Some(inner),
    }
}

/// The array types in a type, the outermost first, as far as the first that is listed.
#[tactic(auto, using(crate::proofs::Collecting::inner_numbers, crate::proofs::Collecting::inner_shown, crate::proofs::Closed::rest_there))]
fn arrays_within(
    alloc: Global,
    types: &Types,
    arrays: &Arrays,
    number: u32,
) -> Result<Vec<u32>, NoMemory>
    requires numbers { AreNumbers types.now arrays.now }
    requires closed { IsClosed (types_shown types.now arrays.now) }
    requires number { number < count types.now }
    ensures numbers { IfOk result (λ found. AreNumbers types.now (reverse found.items)) }
    ensures shown { IfOk result (λ found. collected (types_shown types.now arrays.now) (types_shown types.now (reverse found.items)) ≡ collected (types_shown types.now arrays.now) (arrays_in (type_at types.now number))) }
{
    let mut found = Vec::new(alloc);
    let mut at = number;
    while let Some(inner) = inner_left(types, arrays, at) {
        add_if(&mut found, inner.is_of_array, at)?;
        at = inner.number;
    }
    Ok(found)
}

/// Adds the array types in a type, those of elements first, where they aren't there yet. What it takes is linear in the
/// types that are added.
#[tactic(auto, using(crate::proofs::Closed::closed_more))]
pub fn add_arrays_in(
    alloc: Global,
    types: &Types,
    arrays: &mut Arrays,
    number: u32,
) -> Result<(), NoMemory>
    requires numbers { AreNumbers types.now arrays.old }
    requires closed { IsClosed (types_shown types.now arrays.old) }
    requires number { number < count types.now }
    ensures numbers { OnOk result (AreNumbers types.now arrays.new) }
    ensures closed { OnOk result (IsClosed (types_shown types.now arrays.new)) }
    ensures shown { OnOk result (types_shown types.now arrays.new ≡ collected (types_shown types.now arrays.old) (arrays_in (type_at types.now number))) }
{
    let mut found = arrays_within(alloc, types, &*arrays, number)?;
    found.reverse();
    add_all(types, arrays, &found)?;
    Ok(())
}
