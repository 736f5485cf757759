// The domains that a document gives, with their values.
ghost use Rattle.std.specs.Prelude.{◌≡◌, ◌++◌, ◌∷◌, [], All, IfOk, OnOk, map};
ghost use Rattle.kr_space.specs.Vocabulary.{AreLengths, AreTyped, asked, domain_of, Extends, IsSmall, lengths_of, values_of, values_with};
ghost use Rattle.kr_space.specs.Basis.{AreBoundsOn, IsBasis, setting_on};
ghost use Rattle.kr_space.specs.Pools.{all_lengths, all_values, pool};

use crate::basis::Basis;
use kr_base::NoMemory;
use kr_classes_names::Types;
use kr_fin::{ArrayBound, Item as FinItem, Listed, NamedDomain};
use kr_space_layout::DomainEntry;
use kr_space_rules::{Keyed, entries_of, width_asked};
use kr_value::Width;
use std::alloc::Global;

/// Adds the values of a domain whose numbers have a width.
fn add_values(
    alloc: Global,
    types: &mut Types,
    basis: &Basis,
    domains: &mut Vec<Listed<DomainEntry>>,
    width: Width,
    items: &[FinItem],
) -> Result<(), NoMemory>
    requires basis { IsBasis basis.now }
    requires bounds { AreBoundsOn types.old basis.now }
    requires small { All IsSmall items.now }
    ensures added { OnOk result (map domain_of domains.new.items ≡ map domain_of domains.old.items ++ values_with (setting_on basis.now) width items.now ∷ []) }
    ensures extends { Extends types.old types.new }
{
    let classes = basis.classes;
    let entries = entries_of(
        alloc,
        types,
        classes.trees,
        classes.heads,
        basis.document,
        basis.objects,
        basis.bounds,
        width,
        items,
    )?;
    domains.push(Listed::from_vec(entries))?;
    Ok(())
}

/// Adds the values of a domain, for the type that its key requires.
#[tactic(auto, using(kr_space_rules::proofs::Bounded::bounds_kept))]
fn add_domain(
    alloc: Global,
    types: &mut Types,
    basis: &Basis,
    domains: &mut Vec<Listed<DomainEntry>>,
    keyed: Keyed,
    named: &NamedDomain,
) -> Result<(), NoMemory>
    requires basis { IsBasis basis.now }
    requires typed { AreTyped basis.now.classes.now types.old }
    requires bounds { AreBoundsOn types.old basis.now }
    requires small { All IsSmall named.now.domain }
    ensures added { OnOk result (map domain_of domains.new.items ≡ map domain_of domains.old.items ++ values_of (setting_on basis.now) (asked (setting_on basis.now) keyed named.now.key) named.now.domain ∷ []) }
    ensures extends { Extends types.old types.new }
{
    let key = named.key.as_str().as_bytes();
    let width = width_asked(alloc, basis.classes, types, basis.document, keyed, key)?;
    add_values(alloc, types, basis, domains, width, named.domain.as_slice())
}

/// Adds the values of the domains of a table.
#[tactic(auto, using(kr_space_names::proofs::Growing::node_types_kept))]
fn add_domains(
    alloc: Global,
    types: &mut Types,
    basis: &Basis,
    domains: &mut Vec<Listed<DomainEntry>>,
    keyed: Keyed,
    named: &[NamedDomain],
) -> Result<(), NoMemory>
    requires basis { IsBasis basis.now }
    requires typed { AreTyped basis.now.classes.now types.old }
    requires bounds { AreBoundsOn types.old basis.now }
    requires small { All (λ d. All IsSmall d.domain) named.now }
    ensures added { OnOk result (map domain_of domains.new.items ≡ map domain_of domains.old.items ++ all_values (setting_on basis.now) (asked (setting_on basis.now) keyed) named.now) }
    ensures extends { Extends types.old types.new }
{
    for domain in named {
        add_domain(alloc, types, basis, domains, keyed, domain)?;
    }
    Ok(())
}

/// Adds the lengths of an array type.
#[tactic(auto, using(crate::proofs::BoundedKept::lengths_small))]
fn add_length(
    alloc: Global,
    types: &mut Types,
    basis: &Basis,
    domains: &mut Vec<Listed<DomainEntry>>,
    bound: &ArrayBound,
) -> Result<(), NoMemory>
    requires basis { IsBasis basis.now }
    requires bounds { AreBoundsOn types.old basis.now }
    requires lengths { All AreLengths bound.now.lengths }
    ensures added { OnOk result (map domain_of domains.new.items ≡ map domain_of domains.old.items ++ lengths_of (setting_on basis.now) bound.now.lengths ∷ []) }
    ensures extends { Extends types.old types.new }
{
    let lengths = bound.lengths.as_slice();
    add_values(alloc, types, basis, domains, Width::Bits32, lengths)
}

/// Adds the lengths of the array types that the document bounds.
fn add_lengths(
    alloc: Global,
    types: &mut Types,
    basis: &Basis,
    domains: &mut Vec<Listed<DomainEntry>>,
    arrays: &[ArrayBound],
) -> Result<(), NoMemory>
    requires basis { IsBasis basis.now }
    requires bounds { AreBoundsOn types.old basis.now }
    requires lengths { All (λ a. All AreLengths a.lengths) arrays.now }
    ensures added { OnOk result (map domain_of domains.new.items ≡ map domain_of domains.old.items ++ all_lengths (setting_on basis.now) arrays.now) }
    ensures extends { Extends types.old types.new }
{
    for bound in arrays {
        add_length(alloc, types, basis, domains, bound)?;
    }
    Ok(())
}

/// Adds the domains that a document gives.
#[tactic(auto, using(kr_space_names::proofs::Growing::node_types_kept, kr_space_rules::proofs::Bounded::bounds_kept, crate::proofs::Pooled::pool_whole))]
fn add_pool(
    alloc: Global,
    types: &mut Types,
    basis: &Basis,
    domains: &mut Vec<Listed<DomainEntry>>,
) -> Result<(), NoMemory>
    requires basis { IsBasis basis.now }
    requires typed { AreTyped basis.now.classes.now types.old }
    requires bounds { AreBoundsOn types.old basis.now }
    ensures added { OnOk result (map domain_of domains.new.items ≡ map domain_of domains.old.items ++ pool (setting_on basis.now) basis.now.document.now) }
    ensures extends { Extends types.old types.new }
{
    let document = basis.document;
    let fields = document.fields.as_slice();
    let params = document.params.as_slice();
    add_domains(alloc, types, basis, domains, Keyed::Field, fields)?;
    add_domains(alloc, types, basis, domains, Keyed::Parameter, params)?;
    add_lengths(alloc, types, basis, domains, document.arrays.as_slice())
}

/// The domains that a document gives.
#[tactic(auto, using(crate::proofs::Pooled::pool_alone))]
pub(crate) fn pool_of(
    alloc: Global,
    types: &mut Types,
    basis: &Basis,
) -> Result<Vec<Listed<DomainEntry>>, NoMemory>
    requires basis { IsBasis basis.now }
    requires typed { AreTyped basis.now.classes.now types.old }
    requires bounds { AreBoundsOn types.old basis.now }
    ensures pool { IfOk result (λ domains. map domain_of domains.items ≡ pool (setting_on basis.now) basis.now.document.now) }
    ensures extends { Extends types.old types.new }
{
    let mut domains = Vec::new(alloc);
    add_pool(alloc, types, basis, &mut domains)?;
    Ok(domains)
}
