// Which rules a table breaks: each part notes its faults, of which the least is kept.
ghost use Rattle.std.specs.Prelude.{◌≡◌, Some, None, fold, option_map, unwrap_or, string_bytes, OnOk, IfOk};
ghost use Rattle.toml.specs.View.{view, table_view, array_view};
ghost use Rattle.toml.specs.Data.{get_member};
ghost use Rattle.kr_fin.specs.Order.{lesser, least as least_of};
ghost use Rattle.kr_fin.specs.Faults as spec;
ghost use Rattle.kr_fin.specs.Shapes as shape;
ghost use Rattle.kr_fin.specs.Version as versions;

use crate::least::Least;
use crate::refusal::FinRule;
use crate::shapes::{
    COUNTS, FUEL, Limits, Purpose, Section, Shape, VERSIONS, is_domain_name, is_pair,
};
use kr_base::{Fault, NoMemory};
use std::alloc::Global;
use toml::value::Array;
use toml::{Table, Value};

/// The value at a key.
pub(crate) fn value_at<'t>(table: &'t Table, key: &str) -> Option<&'t Value>
    ensures { option_map (λ v. view v.now) result ≡ get_member key.now (table_view table.now) }
{
    table.get(key)
}

// Each key is one that the table may have. The item is the one given, else the key.
fn unknown_keys(
    least: &mut Least<FinRule>,
    shape: Shape,
    item: Option<&str>,
    table: &Table,
) -> Result<(), NoMemory>
    ensures { OnOk result (least.new ≡ fold lesser least.old
        (spec.unknown_keys shape (λ key. unwrap_or (option_map (λ i. i.now) item.entry) key) (table_view table.now))) }
{
    for (key, _) in table {
        let key = key.as_str();
        if !shape.knows(key) {
            least.note(FinRule::UnknownKey, item.unwrap_or(key))?;
        }
    }
    Ok(())
}

fn within(least: &mut Least<FinRule>, limits: Limits, at: &str, number: i64) -> Result<(), NoMemory>
    ensures { OnOk result (least.new ≡ fold lesser least.old (spec.within limits at.now number)) }
{
    if !limits.have(number) {
        least.note(FinRule::OutOfLimit, at)?;
    }
    Ok(())
}

fn number(
    least: &mut Least<FinRule>,
    limits: Limits,
    at: &str,
    value: &Value,
) -> Result<(), NoMemory>
    ensures { OnOk result (least.new ≡ fold lesser least.old (spec.number limits at.now (view value.now))) }
{
    match value.as_integer() {
        Some(number) => within(least, limits, at, number),
        None => least.note(FinRule::WrongKind, at),
    }
}

// A number that has to be there.
fn required_number(
    least: &mut Least<FinRule>,
    limits: Limits,
    at: &str,
    value: Option<&Value>,
) -> Result<(), NoMemory>
    ensures { OnOk result (least.new ≡ fold lesser least.old
        (spec.required (spec.number limits at.now) at.now (option_map (λ v. view v.now) value.entry))) }
{
    match value {
        Some(value) => number(least, limits, at, value),
        None => least.note(FinRule::MissingKey, at),
    }
}

fn text(least: &mut Least<FinRule>, at: &str, value: &Value) -> Result<(), NoMemory>
    ensures { OnOk result (least.new ≡ fold lesser least.old (spec.text at.now (view value.now))) }
{
    match value.as_str() {
        Some(_) => Ok(()),
        None => least.note(FinRule::WrongKind, at),
    }
}

// A text that has to be there.
fn required_text(
    least: &mut Least<FinRule>,
    at: &str,
    value: Option<&Value>,
) -> Result<(), NoMemory>
    ensures { OnOk result (least.new ≡ fold lesser least.old
        (spec.required (spec.text at.now) at.now (option_map (λ v. view v.now) value.entry))) }
{
    match value {
        Some(value) => text(least, at, value),
        None => least.note(FinRule::MissingKey, at),
    }
}

fn range(
    least: &mut Least<FinRule>,
    limits: Limits,
    at: &str,
    table: &Table,
) -> Result<(), NoMemory>
    ensures { OnOk result (least.new ≡ fold lesser least.old (spec.range limits at.now (table_view table.now))) }
{
    unknown_keys(least, Shape::Range, Some(at), table)?;
    required_number(least, limits, at, value_at(table, "from"))?;
    required_number(least, limits, at, value_at(table, "to"))
}

// A value of a domain.
fn value(
    least: &mut Least<FinRule>,
    purpose: Purpose,
    at: &str,
    value: &Value,
) -> Result<(), NoMemory>
    ensures { OnOk result (least.new ≡ fold lesser least.old (spec.value purpose at.now (view value.now))) }
{
    match value {
        Value::Integer(number) => within(least, purpose.limits(), at, *number),
        Value::Table(table) => range(least, purpose.limits(), at, table),
        Value::Boolean(_) | Value::String(_) => plain(least, purpose, at),
        Value::Float(_) | Value::Datetime(_) | Value::Array(_) => least.note(
            FinRule::WrongKind,
            at,
        ),
    }
}

// A truth value or a name, which lengths don't have.
fn plain(least: &mut Least<FinRule>, purpose: Purpose, at: &str) -> Result<(), NoMemory>
    ensures { OnOk result (least.new ≡ fold lesser least.old (spec.plain purpose at.now)) }
{
    match purpose {
        Purpose::Slot => Ok(()),
        Purpose::Lengths => least.note(FinRule::WrongKind, at),
    }
}

fn values(
    least: &mut Least<FinRule>,
    purpose: Purpose,
    at: &str,
    array: &Array,
) -> Result<(), NoMemory>
    ensures { OnOk result (least.new ≡ fold lesser least.old (spec.values purpose at.now (array_view array.now))) }
{
    for one in array {
        value(least, purpose, at, one)?;
    }
    Ok(())
}

fn domain(
    least: &mut Least<FinRule>,
    purpose: Purpose,
    at: &str,
    value: &Value,
) -> Result<(), NoMemory>
    ensures { OnOk result (least.new ≡ fold lesser least.old (spec.domain purpose at.now (view value.now))) }
{
    match value.as_array() {
        Some(array) => values(least, purpose, at, array),
        None => least.note(FinRule::WrongKind, at),
    }
}

// The lengths of an array type, which have to be there.
fn required_lengths(
    least: &mut Least<FinRule>,
    at: &str,
    value: Option<&Value>,
) -> Result<(), NoMemory>
    ensures { OnOk result (least.new ≡ fold lesser least.old
        (spec.required (spec.domain Purpose.Lengths at.now) at.now (option_map (λ v. view v.now) value.entry))) }
{
    match value {
        Some(value) => domain(least, Purpose::Lengths, at, value),
        None => least.note(FinRule::MissingKey, at),
    }
}

// The class of an object domain, and how many objects it has.
fn object_domain(least: &mut Least<FinRule>, at: &str, table: &Table) -> Result<(), NoMemory>
    ensures { OnOk result (least.new ≡ fold lesser least.old (spec.object_domain at.now (table_view table.now))) }
{
    unknown_keys(least, Shape::ObjectDomain, Some(at), table)?;
    required_text(least, at, value_at(table, "class"))?;
    required_number(least, COUNTS, at, value_at(table, "count"))
}

// An object domain of a name.
fn named_domain(
    least: &mut Least<FinRule>,
    key: &str,
    at: &str,
    value: &Value,
) -> Result<(), NoMemory>
    ensures { OnOk result (least.new ≡ fold lesser least.old (spec.named_domain key.now at.now (view value.now))) }
{
    if !is_domain_name(key) {
        least.note(FinRule::WrongKind, at)?;
    }
    match value.as_table() {
        Some(table) => object_domain(least, at, table),
        None => least.note(FinRule::WrongKind, at),
    }
}

// How many arrays of a type there are, and how long they are.
fn bound(least: &mut Least<FinRule>, at: &str, table: &Table) -> Result<(), NoMemory>
    ensures { OnOk result (least.new ≡ fold lesser least.old (spec.bound at.now (table_view table.now))) }
{
    unknown_keys(least, Shape::Array, Some(at), table)?;
    required_number(least, COUNTS, at, value_at(table, "count"))?;
    required_lengths(least, at, value_at(table, "lengths"))
}

// The domain of a field, of elements or of a parameter.
fn keyed(least: &mut Least<FinRule>, key: &str, at: &str, value: &Value) -> Result<(), NoMemory>
    ensures { OnOk result (least.new ≡ fold lesser least.old (spec.keyed key.now at.now (view value.now))) }
{
    if !is_pair(key.as_bytes()) {
        least.note(FinRule::WrongKind, at)?;
    }
    domain(least, Purpose::Slot, at, value)
}

// The entry of a table of names for one of them.
fn entry(
    least: &mut Least<FinRule>,
    section: Section,
    key: &str,
    at: &str,
    value: &Value,
) -> Result<(), NoMemory>
    ensures { OnOk result (least.new ≡ fold lesser least.old (spec.entry section key.now at.now (view value.now))) }
{
    match section {
        Section::Objects => number(least, COUNTS, at, value),
        Section::Domains => named_domain(least, key, at, value),
        Section::Arrays => match value.as_table() {
            Some(table) => bound(least, at, table),
            None => least.note(FinRule::WrongKind, at),
        },
        Section::Fields | Section::Params => keyed(least, key, at, value),
    }
}

// The item of a name: the table's key, a dot and the name.
fn item_of(alloc: Global, section: Section, name: &str) -> Result<String, NoMemory>
    ensures { IfOk result (λ item. string_bytes item ≡ shape.item_of section name.now) }
{
    let mut item = String::from_str(alloc, section.name())?;
    item.push_str(".")?;
    item.push_str(name)?;
    Ok(item)
}

fn entries(least: &mut Least<FinRule>, section: Section, table: &Table) -> Result<(), NoMemory>
    ensures { OnOk result (least.new ≡ fold lesser least.old (spec.entries section (table_view table.now))) }
{
    for (key, value) in table {
        let at = item_of(least.alloc(), section, key.as_str())?;
        entry(least, section, key.as_str(), at.as_str(), value)?;
    }
    Ok(())
}

// A table of names, which may be absent.
fn section(least: &mut Least<FinRule>, section: Section, document: &Table) -> Result<(), NoMemory>
    ensures { OnOk result (least.new ≡ fold lesser least.old (spec.section section (table_view document.now))) }
{
    match value_at(document, section.name()) {
        Some(value) => match value.as_table() {
            Some(table) => entries(least, section, table),
            None => least.note(FinRule::WrongKind, section.name()),
        },
        None => Ok(()),
    }
}

fn root(least: &mut Least<FinRule>, document: &Table) -> Result<(), NoMemory>
    ensures { OnOk result (least.new ≡ fold lesser least.old (spec.root (table_view document.now))) }
{
    required_text(least, "root", value_at(document, "root"))
}

// The version, which may be absent.
fn version(least: &mut Least<FinRule>, document: &Table) -> Result<(), NoMemory>
    ensures { OnOk result (least.new ≡ fold lesser least.old (spec.version (table_view document.now))) }
{
    match value_at(document, "version") {
        Some(value) => number(least, VERSIONS, "version", value),
        None => Ok(()),
    }
}

/// Whether the document is to be read as version 2.
#[tactic(auto, unfolding(crate::specs::Version::is_second))]
pub(crate) fn is_second(document: &Table) -> bool
    ensures { result ≡ versions.is_second (table_view document.now) }
{
    let Some(value) = value_at(document, "version") else {
        return false;
    };
    match value.as_integer() {
        Some(number) => number == 2,
        None => false,
    }
}

/// How the table of objects is to be read.
pub(crate) fn objects_section(document: &Table) -> Section
    ensures { result ≡ versions.objects_section (table_view document.now) }
{
    if is_second(document) {
        Section::Domains
    } else {
        Section::Objects
    }
}

/// The least of the faults of the document's table, if it has any.
#[tactic(auto, unfolding(crate::specs::Faults::faults_in))]
pub(crate) fn least_fault(
    alloc: Global,
    document: &Table,
) -> Result<Option<Fault<FinRule>>, NoMemory>
    ensures { IfOk result (λ fault. fault ≡ least_of (spec.faults_in (table_view document.now))) }
{
    let mut least = Least::new(alloc);
    unknown_keys(&mut least, Shape::Document, None, document)?;
    version(&mut least, document)?;
    root(&mut least, document)?;
    required_number(&mut least, FUEL, "fuel", value_at(document, "fuel"))?;
    section(&mut least, objects_section(document), document)?;
    section(&mut least, Section::Arrays, document)?;
    section(&mut least, Section::Fields, document)?;
    section(&mut least, Section::Params, document)?;
    Ok(least.into_fault())
}
