// Rules S3, S5 and S6 of the domains that are given.
ghost use Rattle.std.specs.Prelude.{◌≡◌, ◌++◌, All, OnOk, fold};
ghost use Rattle.kr_space.specs.Vocabulary.{AreLengths, asked, Bits32, choices_in, Extends, IsSmall, lengths_of, lesser, number_faults, numbers_of, numbers_of_lengths, of_arrays, values_of, values_with};
ghost use Rattle.kr_space.specs.Bounded.{IsBounded, problem_in, setting_in};

use crate::bounded::Bounded;
use kr_base::NoMemory;
use kr_classes_names::Types;
use kr_fin::{ArrayBound, Item, Least, NamedDomain};
use kr_space_meaning::SpaceRule;
use kr_space_names::item_of;
use kr_space_rules::{Keyed, entries_of, note_numbers, width_asked};
use kr_value::Width;

#[tactic(auto, using(crate::proofs::BoundedKept::numbers_same))]
/// The numbers of the values of a domain whose numbers have a width, under its item.
fn note_values(
    least: &mut Least<SpaceRule>,
    types: &mut Types,
    bounded: &Bounded,
    width: Width,
    item: &str,
    items: &[Item],
) -> Result<(), NoMemory>
    requires bounded { IsBounded types.old bounded.now }
    requires small { All IsSmall items.now }
    ensures noted { OnOk result (least.new ≡ fold lesser least.old (number_faults item.now (choices_in (problem_in bounded.now) (values_with (setting_in bounded.now) width items.now)))) }
    ensures extends { Extends types.old types.new }
{
    let classes = bounded.classes;
    let entries = entries_of(
        least.alloc(),
        types,
        classes.trees,
        classes.heads,
        bounded.document,
        bounded.objects,
        bounded.bounds,
        width,
        items,
    )?;
    note_numbers(least, item, &entries, bounded.blocks)
}

/// The numbers of the values of a field, of elements or of a parameter, where numbers have a width.
fn note_domain(
    least: &mut Least<SpaceRule>,
    types: &mut Types,
    bounded: &Bounded,
    width: Width,
    table: &str,
    domain: &NamedDomain,
) -> Result<(), NoMemory>
    requires bounded { IsBounded types.old bounded.now }
    requires small { All IsSmall domain.now.domain }
    ensures noted { OnOk result (least.new ≡ fold lesser least.old (number_faults (table.now ++ domain.now.key) (choices_in (problem_in bounded.now) (values_with (setting_in bounded.now) width domain.now.domain)))) }
    ensures extends { Extends types.old types.new }
{
    let item = item_of(least.alloc(), table, domain.key.as_str())?;
    let items = domain.domain.as_slice();
    note_values(least, types, bounded, width, item.as_str(), items)
}

/// The numbers of the values of a domain, for the type that its key requires.
#[tactic(auto, using(crate::proofs::BoundedKept::bounded_kept))]
fn note_keyed(
    least: &mut Least<SpaceRule>,
    types: &mut Types,
    bounded: &Bounded,
    keyed: Keyed,
    table: &str,
    domain: &NamedDomain,
) -> Result<(), NoMemory>
    requires bounded { IsBounded types.old bounded.now }
    requires small { All IsSmall domain.now.domain }
    ensures noted { OnOk result (least.new ≡ fold lesser least.old (number_faults (table.now ++ domain.now.key) (choices_in (problem_in bounded.now) (values_of (setting_in bounded.now) (asked (setting_in bounded.now) keyed domain.now.key) domain.now.domain)))) }
    ensures extends { Extends types.old types.new }
{
    let alloc = least.alloc();
    let key = domain.key.as_str().as_bytes();
    let width = width_asked(alloc, bounded.classes, types, bounded.document, keyed, key)?;
    note_domain(least, types, bounded, width, table, domain)
}

/// The numbers of the values of the domains of a table.
pub(crate) fn note_domains(
    least: &mut Least<SpaceRule>,
    types: &mut Types,
    bounded: &Bounded,
    keyed: Keyed,
    table: &str,
    domains: &[NamedDomain],
) -> Result<(), NoMemory>
    requires bounded { IsBounded types.old bounded.now }
    requires small { All (λ d. All IsSmall d.domain) domains.now }
    ensures noted { OnOk result (least.new ≡ fold lesser least.old (numbers_of (problem_in bounded.now) (setting_in bounded.now) (asked (setting_in bounded.now) keyed) table.now domains.now)) }
    ensures extends { Extends types.old types.new }
{
    for domain in domains {
        note_keyed(least, types, bounded, keyed, table, domain)?;
    }
    Ok(())
}

#[tactic(auto, using(crate::proofs::BoundedKept::lengths_small))]
/// The numbers of the values of an array type's lengths.
fn note_length_values(
    least: &mut Least<SpaceRule>,
    types: &mut Types,
    bounded: &Bounded,
    bound: &ArrayBound,
) -> Result<(), NoMemory>
    requires bounded { IsBounded types.old bounded.now }
    requires lengths { All AreLengths bound.now.lengths }
    ensures noted { OnOk result (least.new ≡ fold lesser least.old (number_faults (of_arrays bound.now.name) (choices_in (problem_in bounded.now) (values_with (setting_in bounded.now) Bits32 bound.now.lengths)))) }
    ensures extends { Extends types.old types.new }
{
    let item = item_of(least.alloc(), "arrays.", bound.name.as_str())?;
    let lengths = bound.lengths.as_slice();
    note_values(least, types, bounded, Width::Bits32, item.as_str(), lengths)
}

/// The numbers of the lengths of an array type.
fn note_lengths(
    least: &mut Least<SpaceRule>,
    types: &mut Types,
    bounded: &Bounded,
    bound: &ArrayBound,
) -> Result<(), NoMemory>
    requires bounded { IsBounded types.old bounded.now }
    requires lengths { All AreLengths bound.now.lengths }
    ensures noted { OnOk result (least.new ≡ fold lesser least.old (number_faults (of_arrays bound.now.name) (choices_in (problem_in bounded.now) (lengths_of (setting_in bounded.now) bound.now.lengths)))) }
    ensures extends { Extends types.old types.new }
{
    note_length_values(least, types, bounded, bound)
}

/// The numbers of the lengths of the array types that the document bounds.
pub(crate) fn note_all_lengths(
    least: &mut Least<SpaceRule>,
    types: &mut Types,
    bounded: &Bounded,
    bounds: &[ArrayBound],
) -> Result<(), NoMemory>
    requires bounded { IsBounded types.old bounded.now }
    requires lengths { All (λ b. All AreLengths b.lengths) bounds.now }
    ensures noted { OnOk result (least.new ≡ fold lesser least.old (numbers_of_lengths (problem_in bounded.now) (setting_in bounded.now) bounds.now)) }
    ensures extends { Extends types.old types.new }
{
    for bound in bounds {
        note_lengths(least, types, bounded, bound)?;
    }
    Ok(())
}
