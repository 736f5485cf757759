// From bytes to a document.
ghost use Rattle.std.specs.Prelude.{◌≡◌, ◌↔◌, ◌<◌, length, IsTrue, Some, Ok, Err, option_map, option_and_then, option_to_list, unwrap_or, IfOk, IfErr, MatchResult};
ghost use Rattle.toml.specs.Data.{as_integer, get_member, no_members};
ghost use Rattle.kr_fin.specs.Shapes.{counts, fuels};
ghost use Rattle.toml.specs.Errors.{IsMemory};
ghost use Rattle.toml.specs.View.{view, table_view, array_view};
ghost use Rattle.kr_fin.specs.Ascending.{AreBounds, AreCounts, AreDomains, IsInOrder};
ghost use Rattle.kr_fin.specs.Document as spec;
ghost use Rattle.kr_fin.specs.Meaning.{Refuses, document_in, meaning};
ghost use Rattle.kr_fin.specs.Version as versions;

use crate::document::{ArrayBound, Count, Domain, FinDoc, Item, NamedDomain};
use crate::judge::{is_second, least_fault, objects_section, value_at};
use crate::list::Listed;
use crate::refusal::{FinRefusal, FinRule};
use crate::shapes::Section;
use crate::text::Text;
use kr_base::{Fault, ItemName, NoMemory};
use std::alloc::Global;
use toml::value::Array;
use toml::{Table, Value};

/// The greatest length of a finitization, in bytes: 1 MiB.
pub const MAX_FIN_BYTES: usize = 1_048_576;

/// Whether the bytes are more than a finitization may have.
pub fn is_too_long(bytes: &[u8]) -> bool
    ensures { IsTrue result ↔ (MAX_FIN_BYTES < length bytes.now) }
{
    bytes.len() > MAX_FIN_BYTES
}

// The count that the number is; 0 where it is out of the limits.
fn count(number: i64) -> u32
    ensures { result ≡ spec.within counts (Some number) }
{
    if 0 <= number && number <= 64 {
        number as u32
    } else {
        0
    }
}

fn count_of(value: Option<&Value>) -> u32
    ensures { result ≡ spec.number_of counts (option_map (λ v. view v.now) value.entry) }
{
    let Some(value) = value else {
        return 0;
    };
    match value.as_integer() {
        Some(number) => count(number),
        None => 0,
    }
}

// The fuel that the number is; 0 where it is out of the limits.
fn fuel(number: i64) -> u64
    ensures { result ≡ spec.within fuels (Some number) }
{
    if 1 <= number && number <= 1_000_000_000 {
        number as u64
    } else {
        0
    }
}

fn fuel_of(value: Option<&Value>) -> u64
    ensures { result ≡ spec.number_of fuels (option_map (λ v. view v.now) value.entry) }
{
    let Some(value) = value else {
        return 0;
    };
    match value.as_integer() {
        Some(number) => fuel(number),
        None => 0,
    }
}

fn text_of(alloc: Global, value: Option<&Value>) -> Result<Text, NoMemory>
    ensures { IfOk result (λ text. text ≡ spec.text_of (option_map (λ v. view v.now) value.entry)) }
{
    let Some(value) = value else {
        return Text::of(alloc, "");
    };
    match value.as_str() {
        Some(text) => Text::of(alloc, text),
        None => Text::of(alloc, ""),
    }
}

fn integer_at(table: &Table, key: &str) -> Option<i64>
    ensures { result ≡ option_and_then as_integer (get_member key.now (table_view table.now)) }
{
    match value_at(table, key) {
        Some(value) => value.as_integer(),
        None => None,
    }
}

// The range that a table is.
fn range_in(table: &Table) -> Option<Item>
    ensures { option_to_list result ≡ spec.range_in (table_view table.now) }
{
    match (integer_at(table, "from"), integer_at(table, "to")) {
        (Some(from), Some(to)) => Some(Item::Range(from, to)),
        _ => None,
    }
}

// The item that a value is.
fn item_of(alloc: Global, value: &Value) -> Result<Option<Item>, NoMemory>
    ensures { IfOk result (λ item. option_to_list item ≡ spec.item_of (view value.now)) }
{
    match value {
        Value::Integer(number) => Ok(Some(Item::Number(*number))),
        Value::Table(table) => Ok(range_in(table)),
        Value::Boolean(truth) => Ok(Some(Item::Truth(*truth))),
        Value::String(name) => Ok(Some(Item::Name(Text::of(alloc, name.as_str())?))),
        Value::Float(_) | Value::Datetime(_) | Value::Array(_) => Ok(None),
    }
}

fn items_of(alloc: Global, array: &Array) -> Result<Domain, NoMemory>
    ensures { IfOk result (λ domain. domain ≡ spec.items_of (array_view array.now)) }
{
    let mut domain = Listed::new(alloc);
    for value in array {
        if let Some(item) = item_of(alloc, value)? {
            domain.push(item)?;
        }
    }
    Ok(domain)
}

fn domain_of(alloc: Global, value: Option<&Value>) -> Result<Domain, NoMemory>
    ensures { IfOk result (λ domain. domain ≡ spec.domain_of (option_map (λ v. view v.now) value.entry)) }
{
    let Some(value) = value else {
        return Ok(Listed::new(alloc));
    };
    match value.as_array() {
        Some(array) => items_of(alloc, array),
        None => Ok(Listed::new(alloc)),
    }
}

fn counts_of(alloc: Global, table: &Table) -> Result<Listed<Count>, NoMemory>
    ensures all { IfOk result (λ all. all ≡ spec.counts_of (table_view table.now)) }
    ensures ordered { IfOk result AreCounts }
{
    let mut counts = Listed::new(alloc);
    for (key, value) in table {
        let name = Text::of(alloc, key.as_str())?;
        let class = Text::of(alloc, key.as_str())?;
        let count = count_of(Some(value));
        counts.push(Count { name, class, count })?;
    }
    Ok(counts)
}

fn object_domain_of(alloc: Global, key: &str, table: &Table) -> Result<Count, NoMemory>
    ensures { IfOk result (λ domain. domain ≡ spec.object_domain_of key.now (table_view table.now)) }
{
    let name = Text::of(alloc, key)?;
    let class = text_of(alloc, value_at(table, "class"))?;
    let count = count_of(value_at(table, "count"));
    Ok(Count { name, class, count })
}

// The object domain of a name; of a value that is no table, one of no class.
fn object_domain_at(alloc: Global, key: &str, value: &Value) -> Result<Count, NoMemory>
    ensures { IfOk result (λ domain. domain ≡ spec.object_domain_of key.now (spec.members_of (Some (view value.now)))) }
{
    match value.as_table() {
        Some(table) => object_domain_of(alloc, key, table),
        None => Ok(Count {
            name: Text::of(alloc, key)?,
            class: Text::of(alloc, "")?,
            count: 0,
        }),
    }
}

fn object_domains_of(alloc: Global, table: &Table) -> Result<Listed<Count>, NoMemory>
    ensures all { IfOk result (λ all. all ≡ spec.object_domains_of (table_view table.now)) }
    ensures ordered { IfOk result AreCounts }
{
    let mut domains = Listed::new(alloc);
    for (key, value) in table {
        let domain = object_domain_at(alloc, key.as_str(), value)?;
        domains.push(domain)?;
    }
    Ok(domains)
}

// The objects that a table of either version has.
fn objects_of(alloc: Global, section: Section, table: &Table) -> Result<Listed<Count>, NoMemory>
    ensures all { IfOk result (λ all. all ≡ spec.objects_of section (table_view table.now)) }
    ensures ordered { IfOk result AreCounts }
{
    match section {
        Section::Domains => object_domains_of(alloc, table),
        _ => counts_of(alloc, table),
    }
}

fn bound_of(alloc: Global, key: &str, table: &Table) -> Result<ArrayBound, NoMemory>
    ensures { IfOk result (λ bound. bound ≡ spec.bound_of key.now (table_view table.now)) }
{
    let name = Text::of(alloc, key)?;
    let count = count_of(value_at(table, "count"));
    let lengths = domain_of(alloc, value_at(table, "lengths"))?;
    Ok(ArrayBound {
        name,
        count,
        lengths,
    })
}

// The bound of an array type; of a value that is no table, none.
fn bound_at(alloc: Global, key: &str, value: &Value) -> Result<ArrayBound, NoMemory>
    ensures { IfOk result (λ bound. bound ≡ spec.bound_of key.now (spec.members_of (Some (view value.now)))) }
{
    match value.as_table() {
        Some(table) => bound_of(alloc, key, table),
        None => Ok(ArrayBound {
            name: Text::of(alloc, key)?,
            count: 0,
            lengths: Listed::new(alloc),
        }),
    }
}

fn bounds_of(alloc: Global, table: &Table) -> Result<Listed<ArrayBound>, NoMemory>
    ensures all { IfOk result (λ all. all ≡ spec.bounds_of (table_view table.now)) }
    ensures ordered { IfOk result AreBounds }
{
    let mut bounds = Listed::new(alloc);
    for (key, value) in table {
        let bound = bound_at(alloc, key.as_str(), value)?;
        bounds.push(bound)?;
    }
    Ok(bounds)
}

fn domains_of(alloc: Global, table: &Table) -> Result<Listed<NamedDomain>, NoMemory>
    ensures all { IfOk result (λ all. all ≡ spec.domains_of (table_view table.now)) }
    ensures ordered { IfOk result AreDomains }
{
    let mut domains = Listed::new(alloc);
    for (key, value) in table {
        let domain = domain_of(alloc, Some(value))?;
        let key = Text::of(alloc, key.as_str())?;
        domains.push(NamedDomain { key, domain })?;
    }
    Ok(domains)
}

// The table of names at a section's key, if there is one.
fn section_of(document: &Table, section: Section) -> Option<&Table>
    ensures { unwrap_or (option_map (λ t. table_view t.now) result) no_members ≡ spec.table_of section (table_view document.now) }
{
    match value_at(document, section.name()) {
        Some(value) => value.as_table(),
        None => None,
    }
}

fn objects_in(alloc: Global, document: &Table) -> Result<Listed<Count>, NoMemory>
    ensures all { IfOk result (λ all. all ≡ spec.objects_of (versions.objects_section (table_view document.now)) (spec.table_of (versions.objects_section (table_view document.now)) (table_view document.now))) }
    ensures ordered { IfOk result AreCounts }
{
    let section = objects_section(document);
    match section_of(document, section) {
        Some(table) => objects_of(alloc, section, table),
        None => Ok(Listed::new(alloc)),
    }
}

fn version_of(document: &Table) -> u32
    ensures { result ≡ versions.version_of (table_view document.now) }
{
    if is_second(document) { 2 } else { 1 }
}

fn arrays_in(alloc: Global, document: &Table) -> Result<Listed<ArrayBound>, NoMemory>
    ensures all { IfOk result (λ all. all ≡ spec.bounds_of (spec.table_of Section.Arrays (table_view document.now))) }
    ensures ordered { IfOk result AreBounds }
{
    match section_of(document, Section::Arrays) {
        Some(table) => bounds_of(alloc, table),
        None => Ok(Listed::new(alloc)),
    }
}

fn domains_in(
    alloc: Global,
    document: &Table,
    section: Section,
) -> Result<Listed<NamedDomain>, NoMemory>
    ensures all { IfOk result (λ all. all ≡ spec.domains_of (spec.table_of section (table_view document.now))) }
    ensures ordered { IfOk result AreDomains }
{
    match section_of(document, section) {
        Some(table) => domains_of(alloc, table),
        None => Ok(Listed::new(alloc)),
    }
}

// The contents of a table.
#[tactic(auto, unfolding(crate::specs::Document::document_of))]
fn document_of(alloc: Global, document: &Table) -> Result<FinDoc, NoMemory>
    ensures all { IfOk result (λ doc. doc ≡ spec.document_of (table_view document.now)) }
    ensures ordered { IfOk result IsInOrder }
{
    let version = version_of(document);
    let root = text_of(alloc, value_at(document, "root"))?;
    let fuel = fuel_of(value_at(document, "fuel"));
    let objects = objects_in(alloc, document)?;
    let arrays = arrays_in(alloc, document)?;
    let fields = domains_in(alloc, document, Section::Fields)?;
    let params = domains_in(alloc, document, Section::Params)?;
    Ok(FinDoc {
        version,
        root,
        fuel,
        objects,
        arrays,
        fields,
        params,
    })
}

fn broken(alloc: Global, rule: FinRule, item: &str) -> FinRefusal
    ensures { Refuses (Err (record { rule = rule; item = item.now })) result }
{
    match ItemName::of(alloc, item.as_bytes()) {
        Ok(item) => FinRefusal::Broken(Fault { rule, item }),
        Err(why) => FinRefusal::NoMemory(why),
    }
}

// The document of a table, or its least fault.
#[tactic(auto, unfolding(crate::specs::Meaning::document_in))]
fn judge(alloc: Global, table: &Table) -> Result<FinDoc, FinRefusal>
    ensures read { MatchResult result (λ doc. document_in (table_view table.now) ≡ Ok doc) (Refuses (document_in (table_view table.now))) }
    ensures ordered { IfOk result IsInOrder }
{
    match least_fault(alloc, table) {
        Ok(None) => {}
        Ok(Some(fault)) => return Err(FinRefusal::Broken(fault)),
        Err(why) => return Err(FinRefusal::NoMemory(why)),
    }
    match document_of(alloc, table) {
        Ok(document) => Ok(document),
        Err(why) => Err(FinRefusal::NoMemory(why)),
    }
}

/// Out of memory, as the reader of TOML reports it: it hands on no error of the allocator.
fn lacking(error: &toml::de::Error) -> NoMemory
    requires { IsMemory error.now }
{
    let _ = error;
    NoMemory::reported()
}

/// The document that the bytes are, or the rule that they break first.
pub fn read_fin(alloc: Global, bytes: &[u8]) -> Result<FinDoc, FinRefusal>
    ensures read { IfOk result (λ document. meaning bytes.now ≡ Ok document) }
    ensures refused { IfErr result (Refuses (meaning bytes.now)) }
    ensures ordered { IfOk result IsInOrder }
{
    if is_too_long(bytes) {
        return Err(broken(alloc, FinRule::TooLong, "size"));
    }
    match toml::table_from_slice(alloc, bytes) {
        Ok(table) => judge(alloc, &table),
        Err(error) => {
            if error.is_memory() {
                Err(FinRefusal::NoMemory(lacking(&error)))
            } else {
                Err(broken(alloc, FinRule::NotToml, "toml"))
            }
        }
    }
}
