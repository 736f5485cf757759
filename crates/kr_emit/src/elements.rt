// E3: the elements of arrays.
ghost use Rattle.std.specs.Prelude.{◌≡◌, ◌<◌, ◌++◌, All, IfOk, OnOk, codes, flat_map, fold, length};
ghost use Rattle.kr_fin.specs.Least.{least};
ghost use Rattle.kr_emit.specs.Vocabulary.{array_elements, bare, ClassDomain, count, domain_at, elements_fault, is_named, IsPosed, lesser, posed, rank_of, type_at};

use crate::types::is_named;
use kr_base::{Fault, NoMemory};
use kr_emit_meaning::ElementRule;
use kr_fin::Least;
use kr_space_problem::Problem;
use kr_value::Class;
use std::alloc::Global;

/// The name of an array type, with that of its table.
fn item_bytes(alloc: Global, name: &[u8]) -> Result<Vec<u8>, NoMemory>
    ensures { IfOk result (λ item. item.items ≡ codes "arrays." ++ name.now) }
{
    let mut item = Vec::from_slice(alloc, b"arrays.")?;
    item.extend_from_slice(name)?;
    Ok(item)
}

/// Notes an array type whose elements `new` can't name.
fn note_elements(
    alloc: Global,
    problem: &Problem,
    name: &[u8],
    class: Class,
    least: &mut Least<ElementRule>,
) -> Result<(), NoMemory>
    requires { IsPosed problem.now }
    ensures { OnOk result (least.new ≡ fold (lesser rank_of) least.old (elements_fault (posed problem.now).program name.now class)) }
{
    match class {
        Class::Array(number) => {
            if is_named(problem, number) {
                return Ok(());
            }
            let item = item_bytes(alloc, name)?;
            least.note_at(ElementRule::Elements, item.as_slice())
        }
        Class::Object(_) => Ok(()),
        Class::Set => Ok(()),
        Class::List => Ok(()),
    }
}

/// The least item of so many class domains that breaks E3.
pub(crate) fn first_elements(
    alloc: Global,
    problem: &Problem,
    domains: u32,
) -> Result<Option<Fault<ElementRule>>, NoMemory>
    requires posed { IsPosed problem.now }
    requires all { domains ≡ length problem.now.layout.domains }
    ensures { IfOk result (λ fault. fault ≡ least rank_of (flat_map (λ (d : ClassDomain). elements_fault (posed problem.now).program d.name d.class) problem.now.layout.domains)) }
{
    let layout = &problem.layout;
    let mut least = Least::new(alloc);
    for domain in 0..domains {
        note_elements(
            alloc,
            problem,
            layout.name(domain),
            layout.class(domain),
            &mut least,
        )?;
    }
    Ok(least.into_fault())
}
