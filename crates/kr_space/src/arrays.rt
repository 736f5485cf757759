// The array types of a problem, by number.
ghost use Rattle.std.specs.Prelude.{◌≡◌, ◌<◌, All, IfOk, OnOk, flat_map, length, map};
ghost use Rattle.kr_space.specs.Vocabulary.{AreNumbers, AreTyped, arrays_in, bound_shown, collected, Extends, IsBound, IsClosed, types_shown};
ghost use Rattle.kr_space.specs.Basis.{AreArrays, AreBoundsOn, setting_on};

use crate::basis::Basis;
use kr_base::NoMemory;
use kr_classes_names::Types;
use kr_fin::ArrayBound;
use kr_space_names::{Arrays, add_arrays_in, array_types};
use kr_space_rules::Bound;
use std::alloc::Global;

/// Adds the array types that the document bounds, where they aren't there yet.
fn add_bounded(
    alloc: Global,
    types: &Types,
    arrays: &mut Arrays,
    all: &[ArrayBound],
    bounds: &[Bound],
) -> Result<(), NoMemory>
    requires numbers { AreNumbers types.now arrays.old }
    requires closed { IsClosed (types_shown types.now arrays.old) }
    requires bounds { All (IsBound types.now all.now) bounds.now }
    ensures numbers { OnOk result (AreNumbers types.now arrays.new) }
    ensures shown { OnOk result (types_shown types.now arrays.new ≡ collected (types_shown types.now arrays.old) (flat_map (λ a. arrays_in a.0) (map (bound_shown types.now all.now) bounds.now))) }
{
    let _ = all;
    for bound in bounds {
        add_arrays_in(alloc, types, arrays, bound.number)?;
    }
    Ok(())
}

/// The array types that the files name, followed by those that only the document names.
#[tactic(auto, using(crate::proofs::Problems::arrays_whole, kr_space_rules::proofs::Bounded::bounds_kept))]
pub(crate) fn arrays_of(
    alloc: Global,
    types: &mut Types,
    basis: &Basis,
) -> Result<Vec<u32>, NoMemory>
    requires few { length basis.now.classes.now.trees.now < 65 }
    requires typed { AreTyped basis.now.classes.now types.old }
    requires bounds { AreBoundsOn types.old basis.now }
    ensures arrays { IfOk result (λ arrays. AreArrays types.new (setting_on basis.now) arrays.items) }
    ensures extends { Extends types.old types.new }
{
    let classes = basis.classes;
    let all = basis.document.arrays.as_slice();
    let mut arrays = array_types(alloc, types, classes.trees, classes.numbers)?;
    add_bounded(alloc, &*types, &mut arrays, all, basis.bounds)?;
    let arrays = arrays.into_vec();
    if arrays.len() > 0xffff_ffff {
        return Err(NoMemory::at_limit(arrays.as_slice()));
    }
    Ok(arrays)
}
