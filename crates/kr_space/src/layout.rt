// The layout of a document's problem.
ghost use Rattle.std.specs.Prelude.{◌≡◌, IfOk};
ghost use Rattle.kr_space.specs.Vocabulary.{AreTyped, Extends, root_domain};
ghost use Rattle.kr_space.specs.Basis.{AreArrays, AreBoundsOn, IsBasis, bounds_on, setting_on};
ghost use Rattle.kr_space.specs.Pools.{AreDomainsOn, AreValuesOn};

use crate::array_domains::add_array_domains;
use crate::basis::Basis;
use crate::domains::pool_of;
use crate::object_domains::object_domains;
use crate::parameters::parameter_domains;
use crate::root;
use crate::slots::root_number;
use kr_base::NoMemory;
use kr_classes_names::Types;
use kr_fin::Listed;
use kr_mean::Mode;
use kr_space_layout::{ClassDomain, DomainEntry, Layout};
use std::alloc::Global;

/// The domains of a document's problem.
fn all_domains(
    alloc: Global,
    types: &Types,
    arrays: &[u32],
    basis: &Basis,
) -> Result<Listed<ClassDomain>, NoMemory>
    requires basis { IsBasis basis.now }
    requires bounds { AreBoundsOn types.now basis.now }
    requires arrays { AreArrays types.now (setting_on basis.now) arrays.now }
    ensures { IfOk result (λ domains. AreDomainsOn basis.now domains) }
{
    let mut domains = object_domains(alloc, basis)?;
    add_array_domains(alloc, types, arrays, basis, &mut domains)?;
    Ok(domains)
}

/// The layout over these class domains and the values of the domains that the document gives.
fn layout_over(
    alloc: Global,
    basis: &Basis,
    mode: Mode,
    root: u32,
    domains: Listed<ClassDomain>,
    values: &[Listed<DomainEntry>],
) -> Result<Layout, NoMemory>
    requires basis { IsBasis basis.now }
    requires root { root ≡ root_domain (setting_on basis.now) }
    requires domains { AreDomainsOn basis.now domains }
    requires values { AreValuesOn basis.now values.now }
    ensures { IfOk result (λ layout. layout ≡ bounds_on (setting_on basis.now) mode) }
{
    let class = root_number(basis.classes, basis.document);
    let parameters = parameter_domains(alloc, basis, &mode, class)?;
    Layout::new(
        alloc,
        root,
        mode,
        basis.document.fuel,
        parameters,
        domains,
        values,
    )
}

/// The layout over the values of the domains that the document gives.
fn layout_with(
    alloc: Global,
    types: &Types,
    arrays: &[u32],
    basis: &Basis,
    mode: Mode,
    root: u32,
    values: &[Listed<DomainEntry>],
) -> Result<Layout, NoMemory>
    requires basis { IsBasis basis.now }
    requires root { root ≡ root_domain (setting_on basis.now) }
    requires bounds { AreBoundsOn types.now basis.now }
    requires arrays { AreArrays types.now (setting_on basis.now) arrays.now }
    requires values { AreValuesOn basis.now values.now }
    ensures { IfOk result (λ layout. layout ≡ bounds_on (setting_on basis.now) mode) }
{
    let domains = all_domains(alloc, types, arrays, basis)?;
    layout_over(alloc, basis, mode, root, domains, values)
}

/// The number of the root's domain.
fn root_of(alloc: Global, types: &mut Types, basis: &Basis) -> Result<u32, NoMemory>
    requires basis { IsBasis basis.now }
    requires bounds { AreBoundsOn types.old basis.now }
    ensures root { IfOk result (λ n. n ≡ root_domain (setting_on basis.now)) }
    ensures extends { Extends types.old types.new }
{
    root::root_domain(
        alloc,
        types,
        basis.classes,
        basis.document,
        basis.objects,
        basis.bounds,
    )
}

/// The slots and domains of a document's problem whose root has this domain.
#[tactic(auto, using(kr_space_rules::proofs::Bounded::bounds_kept))]
fn layout_in(
    alloc: Global,
    types: &mut Types,
    arrays: &[u32],
    basis: &Basis,
    mode: Mode,
    root: u32,
) -> Result<Layout, NoMemory>
    requires basis { IsBasis basis.now }
    requires typed { AreTyped basis.now.classes.now types.old }
    requires root { root ≡ root_domain (setting_on basis.now) }
    requires bounds { AreBoundsOn types.old basis.now }
    requires arrays { AreArrays types.old (setting_on basis.now) arrays.now }
    ensures layout { IfOk result (λ layout. layout ≡ bounds_on (setting_on basis.now) mode) }
    ensures extends { Extends types.old types.new }
{
    let values = pool_of(alloc, types, basis)?;
    layout_with(alloc, &*types, arrays, basis, mode, root, &values)
}

/// The slots and domains of a document's problem.
#[tactic(auto, using(kr_space_rules::proofs::Bounded::bounds_kept, kr_space_names::proofs::Growing::node_types_kept))]
pub(crate) fn layout_of(
    alloc: Global,
    types: &mut Types,
    arrays: &[u32],
    basis: &Basis,
    mode: Mode,
) -> Result<Layout, NoMemory>
    requires basis { IsBasis basis.now }
    requires typed { AreTyped basis.now.classes.now types.old }
    requires bounds { AreBoundsOn types.old basis.now }
    requires arrays { AreArrays types.old (setting_on basis.now) arrays.now }
    ensures layout { IfOk result (λ layout. layout ≡ bounds_on (setting_on basis.now) mode) }
    ensures extends { Extends types.old types.new }
{
    let root = root_of(alloc, types, basis)?;
    layout_in(alloc, types, arrays, basis, mode, root)
}
