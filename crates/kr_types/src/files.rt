// The typing rules over all files.
ghost use Rattle.std.specs.Prelude.{◌≡◌, ◌<◌, ◌^◌, length, Some, IfOk, IfErr};
ghost use Rattle.kr_types.specs.Vocabulary.{AreHeads, AreMembers, AreNodeTypes, AreSingle, AreValues, Extends, IsClassTable, IsRoster, least, least_shown, table_in, values_of};
ghost use Rattle.kr_types.specs.Programs.{AreTypedFiles, IsProgram, IsTypedFile, all_entries};
ghost use Rattle.kr_types.specs.Refusals.{IsRefusal, faults_in, root_faults};

use crate::notes::{Noted, notes_of};
use crate::site::Site;
use crate::{Program, TypeRefusal, TypedFile};
use kr_ast::{Tree, tree_of};
use kr_base::NoMemory;
use kr_classes::ClassTable;
use kr_classes_constants::Values;
use kr_classes_members::{Members, Roster};
use kr_classes_names::{Heads, NodeTypes, Types};
use kr_types_judging::{Fault, earlier};
use kr_types_scopes::Scopes;
use std::alloc::Global;

/// The facts known of the nodes of a file.
fn typed_file(
    alloc: Global,
    trees: &[Tree],
    heads: &Heads,
    members: &Members,
    roster: &Roster,
    types: &mut Types,
    numbers: &NodeTypes,
    values: &Values,
    file: u32,
) -> Result<TypedFile, NoMemory>
    requires heads { AreHeads trees.now heads.now }
    requires members { AreMembers trees.now members.now }
    requires roster { IsRoster trees.now roster.now }
    requires numbers { AreNodeTypes trees.now types.old numbers.now }
    requires values { AreValues (values_of (table_in trees.now)) values.now }
    requires single { AreSingle (table_in trees.now) }
    requires file { file < length trees.now }
    ensures extends { Extends types.old types.new }
    ensures typed { IfOk result (λ typed. IsTypedFile trees.now types.new file typed) }
{
    let scopes = Scopes::of(alloc, tree_of(trees, file))?;
    let site = Site {
        trees,
        heads,
        members,
        roster,
        numbers,
        values,
        scopes: &scopes,
        file,
    };
    let Noted {
        notes,
        meanings,
        ..
    } = notes_of(alloc, &site, types)?;
    Ok(TypedFile {
        scopes,
        notes,
        meanings,
    })
}

/// The facts known of the nodes of all files.
fn typed_files(
    alloc: Global,
    trees: &[Tree],
    heads: &Heads,
    members: &Members,
    roster: &Roster,
    types: &mut Types,
    numbers: &NodeTypes,
    values: &Values,
) -> Result<Vec<TypedFile>, NoMemory>
    requires few { length trees.now < 65 }
    requires heads { AreHeads trees.now heads.now }
    requires members { AreMembers trees.now members.now }
    requires roster { IsRoster trees.now roster.now }
    requires numbers { AreNodeTypes trees.now types.old numbers.now }
    requires values { AreValues (values_of (table_in trees.now)) values.now }
    requires single { AreSingle (table_in trees.now) }
    ensures extends { Extends types.old types.new }
    ensures typed { IfOk result (λ files. AreTypedFiles trees.now types.new (length trees.now) files.items) }
{
    let mut files = Vec::new(alloc);
    let count = trees.len() as u32;
    for file in 0..count {
        let typed = typed_file(
            alloc, trees, heads, members, roster, types, numbers, values, file,
        )?;
        files.push(typed)?;
    }
    Ok(files)
}

/// The facts known of a program's files, and their fields and methods by number.
#[derive(Drop)]
struct Typed {
    roster: Roster,
    files: Vec<TypedFile>,
}

/// The facts known of all files.
fn typed_program(
    alloc: Global,
    trees: &[Tree],
    heads: &Heads,
    members: &Members,
    types: &mut Types,
    numbers: &NodeTypes,
    values: &Values,
) -> Result<Typed, NoMemory>
    requires few { length trees.now < 65 }
    requires heads { AreHeads trees.now heads.now }
    requires members { AreMembers trees.now members.now }
    requires numbers { AreNodeTypes trees.now types.old numbers.now }
    requires values { AreValues (values_of (table_in trees.now)) values.now }
    requires single { AreSingle (table_in trees.now) }
    ensures extends { Extends types.old types.new }
    ensures roster { IfOk result (λ typed. IsRoster trees.now typed.roster) }
    ensures typed { IfOk result (λ typed. AreTypedFiles trees.now types.new (length trees.now) typed.files.items) }
{
    let roster = Roster::read(alloc, members)?;
    let files = typed_files(
        alloc, trees, heads, members, &roster, types, numbers, values,
    )?;
    Ok(Typed { roster, files })
}

/// The first broken node of a file.
fn fault_of(trees: &[Tree], types: &Types, file: u32, typed: &TypedFile) -> Option<Fault>
    requires file { file < length trees.now }
    requires typed { IsTypedFile trees.now types.now file typed.now }
    ensures { least_shown result ≡ least (root_faults trees.now file) }
{
    let nodes = tree_of(trees, file).nodes();
    typed.notes.at(nodes - 1).least
}

/// The first broken node of all files.
fn first_fault(trees: &[Tree], types: &Types, files: &[TypedFile]) -> Option<Fault>
    requires few { length trees.now < 65 }
    requires typed { AreTypedFiles trees.now types.now (length trees.now) files.now }
    ensures { least_shown result ≡ least (faults_in trees.now (length trees.now)) }
{
    let mut first = None;
    for file in 0..trees.len() {
        let fault = fault_of(trees, types, file as u32, &files[file]);
        first = earlier(first, fault);
    }
    first
}

/// The program of these files, with the facts known of their nodes; or the first node in file and source order that
/// breaks a typing rule, with the least rule that it breaks.
pub fn check(alloc: Global, trees: Vec<Tree>, table: ClassTable) -> Result<Program, TypeRefusal>
    requires few { length trees.items < 65 }
    requires small { length (all_entries trees.items) < 2 ^ 32 }
    requires table { IsClassTable trees.items table }
    ensures typed { IfOk result (λ program. IsProgram program) }
    ensures files { IfOk result (λ program. program.trees.items ≡ trees.items) }
    ensures refused { IfErr result (λ refusal. IsRefusal trees.items refusal) }
{
    let ClassTable {
        heads,
        members,
        mut types,
        numbers,
        values,
    } = table;
    let Typed { roster, files } = typed_program(
        alloc, &trees, &heads, &members, &mut types, &numbers, &values,
    )?;
    match first_fault(&trees, &types, &files) {
        Some(fault) => Err(TypeRefusal::Broken {
            place: fault.place,
            rule: fault.rule,
        }),
        None => Ok(Program {
            trees,
            table: ClassTable {
                heads,
                members,
                types,
                numbers,
                values,
            },
            roster,
            files,
        }),
    }
}
