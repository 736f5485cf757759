// The tables of two classes, one below the other.
ghost use Rattle.std.specs.Prelude.{◌≡◌, ◌∷◌, [], IfOk, codes, map};
ghost use Rattle.kr_code.specs.Tables.{row_items};
ghost use Rattle.kr_classes_members.specs.Rosters.{IsRoster};
ghost use Rattle.kr_sources.specs.Sources.{AreSources};

use kr_base::NoMemory;
use kr_classes_members::Roster;
use kr_classes_names::{TypeForm, Types};
use kr_code_bodies::Tables;
use kr_sources::Sources;
use std::alloc::Global;

/// Whether a table has this row.
fn has_row(rows: &Vec<Vec<Option<u32>>>, at: usize, row: &[Option<u32>]) -> bool {
    match rows.get(at) {
        None => false,
        Some(found) => found.as_slice() == row,
    }
}

fn has_marks(rows: &Vec<Vec<bool>>, at: u32, marks: &[bool]) -> bool {
    match rows.get(at as usize) {
        None => false,
        Some(found) => found.as_slice() == marks,
    }
}

/// Where the classes have a field of a name, and where each field.
fn fields_fit(tables: &Tables) -> bool {
    has_row(&tables.positions, 0, &[None, None])
        && has_row(&tables.positions, 1, &[None, Some(1)])
        && has_row(&tables.spots, 0, &[Some(0), Some(0)])
        && has_row(&tables.spots, 1, &[None, Some(1)])
}

fn instances_fit(tables: &Tables, above: u32, below: u32, array: u32) -> bool {
    has_marks(&tables.instances, above, &[true, true])
        && has_marks(&tables.instances, below, &[false, true])
        && tables.array_types.as_slice() == [Some(array)].as_slice()
}

/// No class has the name of a trap's.
fn traps_fit(tables: &Tables) -> bool {
    tables.trap_classes.as_slice() == [None, None, None, None, None, None].as_slice()
}

fn methods_fit(tables: &Tables) -> bool {
    has_row(&tables.dispatch, 0, &[Some(0), Some(1)])
        && has_row(&tables.dispatch, 1, &[None, Some(1)])
}

/// `length`
fn first_name(alloc: Global) -> Result<Vec<Vec<u8>>, NoMemory>
    ensures { IfOk result (λ names. map row_items names.items ≡ codes "length" ∷ []) }
{
    let mut name = Vec::new(alloc);
    name.extend_from_slice(b"length".as_slice())?;
    Ok(vec![in alloc; name]?)
}

/// `length`, and another one.
fn two_names(alloc: Global, second: &[u8]) -> Result<Vec<Vec<u8>>, NoMemory>
    ensures { IfOk result (λ names. map row_items names.items ≡ codes "length" ∷ second.now ∷ []) }
{
    let mut name = Vec::new(alloc);
    name.extend_from_slice(second)?;
    let mut names = first_name(alloc)?;
    names.push(name)?;
    Ok(names)
}

/// The tables over the types of the two classes, and of an array.
fn tables_fit(
    alloc: Global,
    sources: &Sources<'_>,
    roster: &Roster,
    types: &mut Types,
) -> Result<bool, NoMemory>
    requires sources { AreSources sources.now }
    requires roster { IsRoster sources.now.trees.now roster.now }
{
    let above = types.number(TypeForm::Class(0))?;
    let below = types.number(TypeForm::Class(1))?;
    let array = types.number(TypeForm::Array(below))?;
    let names = two_names(alloc, b"second")?;
    let tables = Tables::read(
        alloc,
        sources.trees,
        sources.heads,
        sources.members,
        types,
        roster,
        &[array],
        &names,
    )?;
    Ok(
        fields_fit(&tables)
            && instances_fit(&tables, above, below, array)
            && methods_fit(&tables)
            && traps_fit(&tables),
    )
}

fn roster_fits(alloc: Global, sources: &Sources<'_>, roster: &Roster) -> Result<bool, NoMemory>
    requires sources { AreSources sources.now }
    requires roster { IsRoster sources.now.trees.now roster.now }
{
    let mut types = Types::new(alloc)?;
    tables_fit(alloc, sources, roster, &mut types)
}

/// `Above` with the field `first` and the method `run`, and below it `Below` with the field `second` and the method `run`.
pub fn fit(alloc: Global, sources: &Sources<'_>) -> Result<bool, NoMemory>
    requires { AreSources sources.now }
{
    let roster = Roster::read(alloc, sources.members)?;
    roster_fits(alloc, sources, &roster)
}
