// The object domains of classes.
ghost use Rattle.std.specs.Prelude.{◌≡◌, IfOk, map};
ghost use Rattle.kr_space.specs.Vocabulary.{declared_shown, domain_declared, domain_shown, fields_of, IsDeclared, spots_of_fields, spotted, table_of};
ghost use Rattle.kr_space.specs.Basis.{IsBasis, setting_on};
ghost use Rattle.kr_space.specs.Pools.{pool};

use crate::basis::Basis;
use crate::places::field_domain;
use crate::undefined::field_key;
use kr_base::NoMemory;
use kr_fin::Listed;
use kr_space_layout::{ClassDomain, Spotted};
use kr_space_rules::Declared;
use kr_value::{Class, Spot};
use std::alloc::Global;

/// Where the objects of a class have values: their fields, those of the superclass first.
fn field_spots(alloc: Global, basis: &Basis, class: u32) -> Result<Listed<Spotted>, NoMemory>
    requires { IsBasis basis.now }
    ensures { IfOk result (λ spots. map (spotted (pool (setting_on basis.now) basis.now.document.now)) spots ≡ spots_of_fields (setting_on basis.now) 0 (fields_of (table_of basis.now.classes.now) class)) }
{
    let fields = basis.classes.members.fields_of(alloc, class)?;
    let Ok(count) = u32::try_from(fields.len()) else {
        return Err(NoMemory::at_limit(fields.as_slice()));
    };
    let mut spots = Listed::new(alloc);
    for at in 0..count {
        let key = field_key(alloc, basis.classes, fields[at as usize])?;
        spots.push(Spotted {
            spot: Spot::Field(at),
            domain: field_domain(basis.keys, basis.document, &key),
        })?;
    }
    Ok(spots)
}

/// An object domain that the document declares.
fn object_domain(alloc: Global, basis: &Basis, object: Declared) -> Result<ClassDomain, NoMemory>
    requires basis { IsBasis basis.now }
    requires object { IsDeclared basis.now.document.now.objects object }
    ensures { IfOk result (λ domain. domain_shown (pool (setting_on basis.now) basis.now.document.now) domain ≡ domain_declared (setting_on basis.now) (declared_shown basis.now.document.now.objects object)) }
{
    let spots = field_spots(alloc, basis, object.class)?;
    let line = &basis.document.objects.as_slice()[object.at as usize];
    let name = line.name.as_str().as_bytes();
    Ok(ClassDomain {
        name: Listed::from_vec(Vec::from_slice(alloc, name)?),
        class: Class::Object(object.class),
        count: line.count,
        spots,
    })
}

/// The object domains that the document declares.
pub(crate) fn object_domains(alloc: Global, basis: &Basis) -> Result<Listed<ClassDomain>, NoMemory>
    requires { IsBasis basis.now }
    ensures { IfOk result (λ domains. map (domain_shown (pool (setting_on basis.now) basis.now.document.now)) domains ≡ map (domain_declared (setting_on basis.now)) (map (declared_shown basis.now.document.now.objects) basis.now.objects.now)) }
{
    let mut domains = Listed::new(alloc);
    for object in basis.objects {
        domains.push(object_domain(alloc, basis, *object)?)?;
    }
    Ok(domains)
}
