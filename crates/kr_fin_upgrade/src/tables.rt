// The tables of TOML that the parts of a finitization are written as.
ghost use Rattle.std.specs.Prelude.{◌≡◌, ◌<◌, ◌^◌, ℤ, pos, IfOk, OnOk, string_bytes};
ghost use Rattle.toml.specs.View.{items_view, view, table_view};
ghost use Rattle.toml.specs.Data.{item as one_more, no_items, string, table as table_data};
ghost use Rattle.kr_fin_upgrade.specs.Shown.{after_items, lines_shown};
ghost use Rattle.kr_fin_upgrade.specs.Tables as spec;
ghost use Rattle.kr_fin_upgrade.specs.Upgraded.{line};

use crate::lines::Lines;
use kr_base::NoMemory;
use kr_fin::{ArrayBound, Item, NamedDomain};
use std::alloc::Global;
use toml::value::Array;
use toml::{Table, Value};

/// Puts a value at a key.
#[tactic(auto, using(crate::proofs::Puts::put_view))]
pub(crate) fn put(alloc: Global, table: &mut Table, key: &str, value: Value) -> Result<(), NoMemory>
    ensures { OnOk result (table_view table.new ≡ spec.put (table_view table.old) key.now (view value)) }
{
    let key = String::from_str(alloc, key)?;
    table.insert(key, value)?;
    Ok(())
}

/// A text as a value.
pub(crate) fn text(alloc: Global, text: &str) -> Result<Value, NoMemory>
    ensures { IfOk result (λ value. view value ≡ string text.now) }
{
    Ok(Value::String(String::from_str(alloc, text)?))
}

/// The table of two keys.
fn two_keys(
    alloc: Global,
    first: &str,
    second: &str,
    value: Value,
    other: Value,
) -> Result<Value, NoMemory>
    ensures { IfOk result (λ both. view both ≡ table_data (spec.two_keys first.now (view value) second.now (view other))) }
{
    let mut table = Table::new(alloc);
    put(alloc, &mut table, first, value)?;
    put(alloc, &mut table, second, other)?;
    Ok(Value::Table(table))
}

fn item(alloc: Global, item: &Item) -> Result<Value, NoMemory>
    ensures { IfOk result (λ value. view value ≡ spec.data_of item.now) }
{
    match item {
        Item::Number(number) => Ok(Value::Integer(*number)),
        Item::Range(from, to) => two_keys(
            alloc,
            "from",
            "to",
            Value::Integer(*from),
            Value::Integer(*to),
        ),
        Item::Truth(truth) => Ok(Value::Boolean(*truth)),
        Item::Name(name) => text(alloc, name.as_str()),
    }
}

/// Adds an item of a domain.
#[tactic(auto, using(crate::proofs::Puts::pushed_view))]
fn add_item(alloc: Global, array: &mut Array, one: &Item) -> Result<(), NoMemory>
    ensures { OnOk result (items_view array.new.items ≡ after_items (items_view array.old.items) (one_more (spec.data_of one.now) no_items)) }
{
    let value = item(alloc, one)?;
    array.push(value)?;
    Ok(())
}

fn domain(alloc: Global, items: &[Item]) -> Result<Value, NoMemory>
    ensures { IfOk result (λ value. view value ≡ spec.domain_data items.now) }
{
    let mut array = Array::new(alloc);
    for one in items {
        add_item(alloc, &mut array, one)?;
    }
    Ok(Value::Array(array))
}

/// The object domain of a class's name.
fn count(alloc: Global, name: &str, count: u32) -> Result<Value, NoMemory>
    ensures { IfOk result (λ value. view value ≡ spec.count_data 2 (line name.now count)) }
{
    let class = text(alloc, name)?;
    two_keys(
        alloc,
        "class",
        "count",
        class,
        Value::Integer(i64::from(count)),
    )
}

fn bound(alloc: Global, bound: &ArrayBound) -> Result<Value, NoMemory>
    ensures { IfOk result (λ value. view value ≡ spec.bound_data bound.now) }
{
    let lengths = domain(alloc, bound.lengths.as_slice())?;
    let number = Value::Integer(i64::from(bound.count));
    two_keys(alloc, "count", "lengths", number, lengths)
}

/// The table of object domains.
pub(crate) fn counts(alloc: Global, lines: &Lines) -> Result<Table, NoMemory>
    ensures { IfOk result (λ table. table_view table ≡ spec.counts_table 2 (lines_shown lines.now)) }
{
    let mut table = Table::new(alloc);
    for (name, number) in lines {
        let value = count(alloc, name.as_str(), *number)?;
        put(alloc, &mut table, name.as_str(), value)?;
    }
    Ok(table)
}

/// The table of array types with their bounds.
pub(crate) fn bounds(alloc: Global, bounds: &[ArrayBound]) -> Result<Table, NoMemory>
    ensures { IfOk result (λ table. table_view table ≡ spec.bounds_table bounds.now) }
{
    let mut table = Table::new(alloc);
    for one in bounds {
        let value = bound(alloc, one)?;
        put(alloc, &mut table, one.name.as_str(), value)?;
    }
    Ok(table)
}

/// The table of domains by their keys.
pub(crate) fn domains(alloc: Global, domains: &[NamedDomain]) -> Result<Table, NoMemory>
    ensures { IfOk result (λ table. table_view table ≡ spec.domains_table domains.now) }
{
    let mut table = Table::new(alloc);
    for one in domains {
        let value = domain(alloc, one.domain.as_slice())?;
        put(alloc, &mut table, one.key.as_str(), value)?;
    }
    Ok(table)
}
