// The types of one small class, and a set of arrays.
ghost use Rattle.kr_sources.specs.Sources.{AreSources};

use kr_base::NoMemory;
use kr_classes_names::{NodeTypes, TypeForm, Types};
use kr_sources::Sources;
use std::alloc::Global;

/// Whether a node of the first file names the type of a number.
fn is_named(numbers: &NodeTypes, number: u32) -> bool {
    for node in 0..16 {
        if numbers.number(0, node) == number {
            return true;
        }
    }
    false
}

/// Equal types have one number: the array type that is asked for is the one that the file names.
fn numbers_fit(types: &mut Types, numbers: &NodeTypes) -> Result<bool, NoMemory> {
    let element = types.int();
    let array = types.number(TypeForm::Array(element))?;
    Ok(types.len() == 7 && is_named(numbers, element) && is_named(numbers, array))
}

fn read_fit(alloc: Global, sources: &Sources<'_>, types: &mut Types) -> Result<bool, NoMemory>
    requires { AreSources sources.now }
{
    let before = types.len();
    let numbers = NodeTypes::read(alloc, sources.trees, sources.heads, types)?;
    let fit = numbers_fit(types, &numbers)?;
    Ok(before == 6 && fit)
}

/// A class with a field of type `int[]`.
pub fn fit(alloc: Global, sources: &Sources<'_>) -> Result<bool, NoMemory>
    requires { AreSources sources.now }
{
    let mut types = Types::new(alloc)?;
    read_fit(alloc, sources, &mut types)
}

/// A set of arrays is known, and an array type equals itself.
fn sets_fit(alloc: Global, types: &mut Types) -> Result<bool, NoMemory> {
    let element = types.int();
    let array = types.number(TypeForm::Array(element))?;
    let is_same = types.is_same(array, array);
    let head = types.unknown(alloc, b"", b"HashSet")?;
    let set = types.applied(head, array)?;
    Ok(is_same && types.is_known(set))
}

#[test]
fn a_set_of_arrays_is_known(rt: HostRuntime) -> Result<(), NoMemory> {
    let mut types = Types::new(rt.alloc())?;
    let fit = sets_fit(rt.alloc(), &mut types)?;
    assert!(rt; fit);
    Ok(())
}
