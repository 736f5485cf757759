// A finitization carried over to version 2, as the text of a TOML document.
ghost use Rattle.std.specs.Prelude.{◌≡◌, ◌≤◌, Some, IfOk, OnOk, false, string_bytes};
ghost use Rattle.toml.specs.Text.{IsDocumentText};
ghost use Rattle.toml.specs.View.{table_view};
ghost use Rattle.kr_fin.specs.Meaning.{table_in};
ghost use Rattle.kr_fin_upgrade.specs.Shown.{lines_shown};
ghost use Rattle.kr_fin_upgrade.specs.Tables as spec;
ghost use Rattle.kr_fin_upgrade.specs.Upgraded.{all_lines as lines_after, lines_of, up};

use crate::lines::{Lines, all_lines};
use crate::tables::{bounds, counts, domains, put, text};
use kr_base::NoMemory;
use kr_fin::FinDoc;
use std::alloc::Global;
use toml::{Table, Value};

/// Writes what comes before the tables.
#[tactic(auto, unfolding(crate::specs::Upgraded::up))]
fn put_head(alloc: Global, table: &mut Table, document: &FinDoc) -> Result<(), NoMemory>
    requires { document.now.fuel ≤ 1000000000 }
    ensures { OnOk result (table_view table.new ≡ spec.with_head (table_view table.old) (up document.now)) }
{
    put(alloc, table, "version", Value::Integer(2))?;
    let root = text(alloc, document.root.as_str())?;
    put(alloc, table, "root", root)?;
    put(alloc, table, "fuel", Value::Integer(document.fuel as i64))
}

/// Puts the tables of names.
#[tactic(auto, unfolding(crate::specs::Upgraded::up))]
fn put_tables(
    alloc: Global,
    table: &mut Table,
    lines: &Lines,
    document: &FinDoc,
) -> Result<(), NoMemory>
    requires { lines_shown lines.now ≡ lines_after (lines_of document.now) }
    ensures { OnOk result (table_view table.new ≡ spec.with_tables (table_view table.old) (up document.now)) }
{
    let objects = counts(alloc, lines)?;
    put(alloc, table, "objects", Value::Table(objects))?;
    let arrays = bounds(alloc, document.arrays.as_slice())?;
    put(alloc, table, "arrays", Value::Table(arrays))?;
    let fields = domains(alloc, document.fields.as_slice())?;
    put(alloc, table, "fields", Value::Table(fields))?;
    let params = domains(alloc, document.params.as_slice())?;
    put(alloc, table, "params", Value::Table(params))
}

/// The table of the document that is carried over.
#[tactic(auto, unfolding(crate::specs::Tables::table_of))]
fn table_of(alloc: Global, document: &FinDoc) -> Result<Table, NoMemory>
    requires { document.now.fuel ≤ 1000000000 }
    ensures { IfOk result (λ table. table_view table ≡ spec.table_of (up document.now)) }
{
    let lines = all_lines(alloc, document)?;
    let mut table = Table::new(alloc);
    put_head(alloc, &mut table, document)?;
    put_tables(alloc, &mut table, &lines, document)?;
    Ok(table)
}

/// The text of the document that is carried over.
pub(crate) fn write_upgraded(alloc: Global, document: &FinDoc) -> Result<String, NoMemory>
    requires { document.now.fuel ≤ 1000000000 }
    ensures text { IfOk result (λ text. IsDocumentText false (spec.table_of (up document.now)) (string_bytes text)) }
    ensures read { IfOk result (λ text. table_in (string_bytes text) ≡ Some (spec.table_of (up document.now))) }
{
    let table = table_of(alloc, document)?;
    match toml::table_to_string(alloc, &table) {
        Ok(text) => {
            // Known to be UTF-8 from here on.
            let _ = text.as_str();
            Ok(text)
        }
        Err(_) => Err(NoMemory::reported()),
    }
}
