// The class domains of array types.
ghost use Rattle.std.specs.Prelude.{◌≡◌, ◌<◌, ◌^◌, ◌++◌, [], IfOk, List, OnOk, length, map, unwrap_or};
ghost use Rattle.std.proofs.Common.{get_or};
ghost use Rattle.kr_space.specs.Vocabulary.{AreNumbers, array_class_domain, bound_shown, count, Domain, domain_shown, element_spots, elements_key, IsBound, lengths_of, no_bound, number_of_array, Setting, spots_of_array, spotted, type_at, types_shown};
ghost use Rattle.kr_space.specs.Basis.{AreArrays, AreBoundsOn, IsBasis, setting_on};
ghost use Rattle.kr_space.specs.Pools.{fields_given, pool};

use crate::basis::Basis;
use crate::elements::greatest_of;
use crate::keys::joined;
use crate::places::{field_domain, lengths_domain};
use kr_base::NoMemory;
use kr_classes_names::Types;
use kr_fin::{ArrayBound, Listed};
use kr_space_layout::{ClassDomain, Spotted};
use kr_space_rules::Bound;
use kr_value::{Class, Spot};
use std::alloc::Global;

/// The number of an array type among the array types; 0 where it is none of them.
fn array_number(types: &Types, arrays: &[u32], number: u32) -> u32
    requires numbers { AreNumbers types.now arrays.now }
    requires few { length arrays.now < 2 ^ 32 }
    requires number { number < count types.now }
    ensures { result ≡ unwrap_or (number_of_array (types_shown types.now arrays.now) (type_at types.now number)) 0 }
{
    for (at, array) in arrays.iter().enumerate() {
        if types.is_same(number, *array) {
            return at as u32;
        }
    }
    0
}

/// Adds so many elements.
fn add_elements(spots: &mut Listed<Spotted>, count: u32, domain: u32) -> Result<(), NoMemory>
    ensures { (domains : List Domain) → OnOk result (map (spotted domains) spots.new ≡ map (spotted domains) spots.old ++ element_spots 0 count (get_or domains domain [])) }
{
    for at in 0..count {
        spots.push(Spotted {
            spot: Spot::Element(at),
            domain,
        })?;
    }
    Ok(())
}

/// The number of the domain of an array type's elements.
fn elements_domain(alloc: Global, basis: &Basis, bound: &ArrayBound) -> Result<u32, NoMemory>
    requires { IsBasis basis.now }
    ensures { IfOk result (λ n. (setting : Setting) → get_or (pool setting basis.now.document.now) n [] ≡ fields_given setting basis.now.document.now (elements_key bound.now.name)) }
{
    let key = joined(alloc, bound.name.as_str().as_bytes(), b".*".as_slice())?;
    Ok(field_domain(basis.keys, basis.document, &key))
}

/// Where the arrays of an array type have values: their length, and as many elements as the greatest length.
fn array_spots(alloc: Global, basis: &Basis, at: u32) -> Result<Listed<Spotted>, NoMemory>
    requires basis { IsBasis basis.now }
    requires at { at < length basis.now.document.now.arrays }
    ensures { IfOk result (λ spots. map (spotted (pool (setting_on basis.now) basis.now.document.now)) spots ≡ spots_of_array (lengths_of (setting_on basis.now) (get_or basis.now.document.now.arrays at no_bound).lengths) (fields_given (setting_on basis.now) basis.now.document.now (elements_key (get_or basis.now.document.now.arrays at no_bound).name))) }
{
    let document = basis.document;
    let bound = &document.arrays.as_slice()[at as usize];
    let elements = elements_domain(alloc, basis, bound)?;
    let mut spots = Listed::new(alloc);
    spots.push(Spotted {
        spot: Spot::Length,
        domain: lengths_domain(document, at),
    })?;
    let greatest = greatest_of(basis.classes, document, bound);
    add_elements(&mut spots, greatest, elements)?;
    Ok(spots)
}

/// The class domain of an array type.
fn array_domain(
    alloc: Global,
    types: &Types,
    arrays: &[u32],
    basis: &Basis,
    bound: Bound,
) -> Result<ClassDomain, NoMemory>
    requires basis { IsBasis basis.now }
    requires arrays { AreArrays types.now (setting_on basis.now) arrays.now }
    requires bound { IsBound types.now basis.now.document.now.arrays bound }
    ensures { IfOk result (λ domain. domain_shown (pool (setting_on basis.now) basis.now.document.now) domain ≡ array_class_domain (setting_on basis.now) (bound_shown types.now basis.now.document.now.arrays bound)) }
{
    let spots = array_spots(alloc, basis, bound.at)?;
    let number = array_number(types, arrays, bound.number);
    let bound = &basis.document.arrays.as_slice()[bound.at as usize];
    let name = bound.name.as_str().as_bytes();
    Ok(ClassDomain {
        name: Listed::from_vec(Vec::from_slice(alloc, name)?),
        class: Class::Array(number),
        count: bound.count,
        spots,
    })
}

/// Adds the class domains of the array types that the document bounds.
pub(crate) fn add_array_domains(
    alloc: Global,
    types: &Types,
    arrays: &[u32],
    basis: &Basis,
    domains: &mut Listed<ClassDomain>,
) -> Result<(), NoMemory>
    requires basis { IsBasis basis.now }
    requires bounds { AreBoundsOn types.now basis.now }
    requires arrays { AreArrays types.now (setting_on basis.now) arrays.now }
    ensures { OnOk result (map (domain_shown (pool (setting_on basis.now) basis.now.document.now)) domains.new ≡ map (domain_shown (pool (setting_on basis.now) basis.now.document.now)) domains.old ++ map (array_class_domain (setting_on basis.now)) (map (bound_shown types.now basis.now.document.now.arrays) basis.now.bounds.now)) }
{
    for bound in basis.bounds {
        domains.push(array_domain(alloc, types, arrays, basis, *bound)?)?;
    }
    Ok(())
}
