// Problems built by hand.
ghost use Rattle.std.specs.Prelude.{◌≡◌, IfOk};

use kr_base::NoMemory;
use kr_fin::Listed;
use kr_space_layout::{ClassDomain, Spotted};
use kr_value::Class;
use std::alloc::Global;

/// A list of these.
pub(crate) fn listed<T: Copy + Drop>(alloc: Global, items: &[T]) -> Result<Listed<T>, NoMemory>
    ensures { IfOk result (λ list. list ≡ items.now) }
{
    let items = Vec::from_slice(alloc, items)?;
    Ok(Listed::from_vec(items))
}

/// A class domain of these.
pub(crate) fn class_domain(
    alloc: Global,
    name: &[u8],
    class: Class,
    count: u32,
    spots: &[Spotted],
) -> Result<ClassDomain, NoMemory>
    ensures { IfOk result (λ domain. domain ≡ record { name = name.now; class = class; count = count; spots = spots.now }) }
{
    let name = listed(alloc, name)?;
    let spots = listed(alloc, spots)?;
    Ok(ClassDomain {
        name,
        class,
        count,
        spots,
    })
}
