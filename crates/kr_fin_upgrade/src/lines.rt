// The object domains of a document, and the names of classes without one, in the order of the names' bytes.
ghost use Rattle.std.specs.Prelude.{◌≡◌, IfOk, OnOk, flat_map, fold, if◌then◌else◌};
ghost use Rattle.kr_fin_upgrade.specs.Upgraded as spec;
ghost use Rattle.kr_fin_upgrade.specs.Shown.{lines_shown};

use kr_base::NoMemory;
use kr_fin::{Count, FinDoc, Item, NamedDomain, is_domain_name};
use std::alloc::Global;
use std::collections::BTreeMap;

/// How many objects each name has.
pub(crate) type Lines = BTreeMap<String, u32>;

/// Adds a name with its number of objects, where it isn't there yet.
fn add_line(alloc: Global, lines: &mut Lines, name: &str, count: u32) -> Result<(), NoMemory>
    ensures { OnOk result (lines_shown lines.new ≡ spec.add_line (lines_shown lines.old) (spec.line name.now count)) }
{
    if lines.contains_key(name) {
        return Ok(());
    }
    let name = String::from_str(alloc, name)?;
    lines.insert(name, count)?;
    Ok(())
}

/// Adds a name without objects, where it may be a domain's.
fn add_name(alloc: Global, lines: &mut Lines, name: &str) -> Result<(), NoMemory>
    ensures { OnOk result (lines_shown lines.new ≡ fold spec.add_line (lines_shown lines.old) (spec.name_lines name.now)) }
{
    if is_domain_name(name) {
        add_line(alloc, lines, name, 0)
    } else {
        Ok(())
    }
}

/// Adds the object domains that the document has.
fn add_counts(alloc: Global, lines: &mut Lines, counts: &[Count]) -> Result<(), NoMemory>
    ensures { OnOk result (lines_shown lines.new ≡ fold spec.add_line (lines_shown lines.old) counts.now) }
{
    for count in counts {
        add_line(alloc, lines, count.name.as_str(), count.count)?;
    }
    Ok(())
}

/// Adds the name that a value of a domain is, where it is one.
fn add_item(alloc: Global, lines: &mut Lines, item: &Item) -> Result<(), NoMemory>
    ensures { OnOk result (lines_shown lines.new ≡ fold spec.add_line (lines_shown lines.old) (spec.item_lines item.now)) }
{
    match item {
        Item::Name(name) => add_name(alloc, lines, name.as_str()),
        Item::Number(_) => Ok(()),
        Item::Range(..) => Ok(()),
        Item::Truth(_) => Ok(()),
    }
}

/// Adds the names in the values of a domain.
fn add_items(alloc: Global, lines: &mut Lines, items: &[Item]) -> Result<(), NoMemory>
    ensures { OnOk result (lines_shown lines.new ≡ fold spec.add_line (lines_shown lines.old) (flat_map spec.item_lines items.now)) }
{
    for item in items {
        add_item(alloc, lines, item)?;
    }
    Ok(())
}

/// Adds the names in the domains of a table.
fn add_domains(alloc: Global, lines: &mut Lines, domains: &[NamedDomain]) -> Result<(), NoMemory>
    ensures { OnOk result (lines_shown lines.new ≡ fold spec.add_line (lines_shown lines.old) (spec.domain_lines domains.now)) }
{
    for domain in domains {
        add_items(alloc, lines, domain.domain.as_slice())?;
    }
    Ok(())
}

/// Adds all object domains and names of a document.
#[tactic(auto, using(crate::proofs::Maps::all_added))]
fn add_all(alloc: Global, lines: &mut Lines, document: &FinDoc) -> Result<(), NoMemory>
    ensures { OnOk result (lines_shown lines.new ≡ fold spec.add_line (lines_shown lines.old) (spec.lines_of document.now)) }
{
    add_counts(alloc, lines, document.objects.as_slice())?;
    add_name(alloc, lines, document.root.as_str())?;
    add_domains(alloc, lines, document.fields.as_slice())?;
    add_domains(alloc, lines, document.params.as_slice())
}

/// The object domains of a document, and of each name of a class without one, in the order of their names.
pub(crate) fn all_lines(alloc: Global, document: &FinDoc) -> Result<Lines, NoMemory>
    ensures { IfOk result (λ lines. lines_shown lines ≡ spec.all_lines (spec.lines_of document.now)) }
{
    let mut lines = Lines::new(alloc);
    add_all(alloc, &mut lines, document)?;
    Ok(lines)
}
