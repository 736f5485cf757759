// The array types that `class A { int[][] v = new A[7]; }` names.
ghost use Rattle.kr_space_names.specs.Collected.{AreNumbers};
ghost use Rattle.kr_sources.specs.Sources.{AreSources};

use kr_base::NoMemory;
use kr_classes_names::{NodeTypes, TypeForm, Types};
use kr_sources::{Check, Sources, Unread, holds_of};
use kr_space_names::array_types;
use std::alloc::Global;

/// `int[]`, `int[][]` and `A[]`.
fn forms_fit(types: &Types, arrays: &[u32], class: u32) -> bool
    requires { AreNumbers types.now arrays.now }
{
    arrays.len() == 3
        && types.form(arrays[0]) == TypeForm::Array(types.int())
        && types.form(arrays[1]) == TypeForm::Array(arrays[0])
        && types.form(arrays[2]) == TypeForm::Array(class)
}

fn types_fit(alloc: Global, sources: &Sources<'_>, types: &mut Types) -> Result<bool, NoMemory>
    requires { AreSources sources.now }
{
    let class = types.number(TypeForm::Class(0))?;
    let numbers = NodeTypes::read(alloc, sources.trees, sources.heads, types)?;
    let arrays = array_types(alloc, types, sources.trees, &numbers)?.into_vec();
    Ok(forms_fit(types, &arrays, class))
}

/// The array types that the sources name are these three.
#[derive(Clone, Copy)]
struct ThreeArrays;

impl Check for ThreeArrays {
    fn holds(&self, alloc: Global, sources: &Sources<'_>) -> Result<bool, NoMemory> {
        let mut types = Types::new(alloc)?;
        types_fit(alloc, sources, &mut types)
    }
}

#[test]
fn three_array_types(rt: HostRuntime) -> Result<(), Unread> {
    let source = "class A { int[][] v = new A[7]; }";
    let holds = holds_of(rt.alloc(), &ThreeArrays, source, "")?;
    assert!(rt; holds);
    Ok(())
}
