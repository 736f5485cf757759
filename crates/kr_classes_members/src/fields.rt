// The fields and constants that a class declares itself.
ghost use Rattle.std.specs.Prelude.{◌≡◌, ◌<◌, ◌++◌, [], None, Some, IfOk, IfSome, MatchOption, length, map, flat_map, All, option_map, option_to_list};
ghost use Rattle.kr_ast.specs.Arena.{tree_in};
ghost use Rattle.kr_classes_table.specs.Table.{items as listed, declared_in, fields_in};
ghost use Rattle.kr_classes_names.specs.Listed.{IsIndexOf};
ghost use Rattle.kr_ast.specs.Files.{file_at};
ghost use Rattle.kr_classes_members.specs.Shown.{IsField, field_name, field_shown, headings_in};

use kr_ast::{Name, Node, Tree, tree_of};
use kr_base::{NoMemory, Place, add_found};
use kr_classes_names::{Index, items};
use kr_classes_table::ClassId;
use std::alloc::Global;

/// A field or constant: the class that declares it, and the nodes of its type and its initial value, which may be absent.
#[derive(Clone, Copy)]
pub struct Field {
    pub file: u32,
    pub class: ClassId,
    pub name: Name,
    pub place: Place,
    pub is_static: bool,
    pub is_final: bool,
    pub declared: u32,
    pub initial: u32,
}

/// The part that the declarators of one field declaration share, and the list of them.
#[derive(Clone, Copy)]
struct FieldLine {
    file: u32,
    class: ClassId,
    is_static: bool,
    is_final: bool,
    declared: u32,
    declarators: u32,
}

/// The line of fields that a member is.
fn line_of_fields(trees: &[Tree], file: u32, class: ClassId, member: u32) -> Option<FieldLine>
    requires file { file < length trees.now }
    requires member { member < length (file_at trees.now file).entries }
    ensures file { IfSome result (λ d. d.file ≡ file) }
    ensures declared { IfSome result (λ d. d.declared < length (file_at trees.now file).entries) }
    ensures declarators { IfSome result (λ d. d.declarators < length (file_at trees.now file).entries) }
    ensures shown { MatchOption result (fields_in (headings_in trees.now) class (tree_in (file_at trees.now file) member) ≡ []) (λ d. fields_in (headings_in trees.now) class (tree_in (file_at trees.now file) member) ≡ flat_map (declared_in (headings_in trees.now) d.class d.is_static d.is_final (tree_in (file_at trees.now file) d.declared)) (listed (tree_in (file_at trees.now file) d.declarators))) }
{
    match tree_of(trees, file).entry(member).node {
        Node::Field {
            is_static,
            is_final,
            declared,
            declarators,
        } => Some(FieldLine {
            file,
            class,
            is_static,
            is_final,
            declared,
            declarators,
        }),
        _ => None,
    }
}

/// The field that a declarator declares.
fn declared_field(trees: &[Tree], line: FieldLine, declarator: u32) -> Option<Field>
    requires file { line.file < length trees.now }
    requires declared { line.declared < length (file_at trees.now line.file).entries }
    requires declarator { declarator < length (file_at trees.now line.file).entries }
    ensures stands { IfSome result (λ f. IsField trees.now f) }
    ensures shown { option_to_list (option_map (field_shown trees.now) result) ≡ declared_in (headings_in trees.now) line.class line.is_static line.is_final (tree_in (file_at trees.now line.file) line.declared) (tree_in (file_at trees.now line.file) declarator) }
{
    let entry = tree_of(trees, line.file).entry(declarator);
    match entry.node {
        Node::Declarator { name, initial } => Some(Field {
            file: line.file,
            class: line.class,
            name,
            place: entry.place,
            is_static: line.is_static,
            is_final: line.is_final,
            declared: line.declared,
            initial,
        }),
        _ => None,
    }
}

/// Adds the fields of a line.
fn add_declared(
    alloc: Global,
    trees: &[Tree],
    line: FieldLine,
    fields: &mut Vec<Field>,
) -> Result<(), NoMemory>
    requires file { line.file < length trees.now }
    requires declared { line.declared < length (file_at trees.now line.file).entries }
    requires declarators { line.declarators < length (file_at trees.now line.file).entries }
    requires stands { All (IsField trees.now) fields.old.items }
    ensures stands { IfOk result (λ none. All (IsField trees.now) fields.new.items) }
    ensures shown { IfOk result (λ none. map (field_shown trees.now) fields.new.items ≡ map (field_shown trees.now) fields.old.items ++ flat_map (declared_in (headings_in trees.now) line.class line.is_static line.is_final (tree_in (file_at trees.now line.file) line.declared)) (listed (tree_in (file_at trees.now line.file) line.declarators))) }
{
    let declarators = items(alloc, tree_of(trees, line.file), line.declarators)?;
    for declarator in declarators.iter() {
        add_found(fields, declared_field(trees, line, *declarator))?;
    }
    Ok(())
}

/// Adds the fields that a member declares.
fn add_fields(
    alloc: Global,
    trees: &[Tree],
    file: u32,
    class: ClassId,
    member: u32,
    fields: &mut Vec<Field>,
) -> Result<(), NoMemory>
    requires file { file < length trees.now }
    requires member { member < length (file_at trees.now file).entries }
    requires stands { All (IsField trees.now) fields.old.items }
    ensures stands { IfOk result (λ none. All (IsField trees.now) fields.new.items) }
    ensures shown { IfOk result (λ none. map (field_shown trees.now) fields.new.items ≡ map (field_shown trees.now) fields.old.items ++ fields_in (headings_in trees.now) class (tree_in (file_at trees.now file) member)) }
{
    match line_of_fields(trees, file, class, member) {
        None => Ok(()),
        Some(line) => add_declared(alloc, trees, line, fields),
    }
}

/// The fields and constants that members declare.
pub(crate) fn own_fields(
    alloc: Global,
    trees: &[Tree],
    file: u32,
    class: ClassId,
    members: &[u32],
) -> Result<Vec<Field>, NoMemory>
    requires file { file < length trees.now }
    requires members { All (λ n. n < length (file_at trees.now file).entries) members.now }
    ensures stands { IfOk result (λ fields. All (IsField trees.now) fields.items) }
    ensures shown { IfOk result (λ fields. map (field_shown trees.now) fields.items ≡ flat_map (λ n. fields_in (headings_in trees.now) class (tree_in (file_at trees.now file) n)) members.now) }
{
    let mut fields = Vec::new(alloc);
    for member in members {
        add_fields(alloc, trees, file, class, *member, &mut fields)?;
    }
    Ok(fields)
}

/// The fields by their names.
pub(crate) fn field_index(
    alloc: Global,
    trees: &[Tree],
    fields: &[Field],
) -> Result<Index, NoMemory>
    requires stands { All (IsField trees.now) fields.now }
    ensures { IfOk result (λ index. IsIndexOf (map (field_name trees.now) fields.now) index) }
{
    let count = fields.len();
    if count >= 0xffff_ffff {
        return Err(NoMemory::at_limit(fields));
    }
    let mut index = Index::new(alloc);
    for (number, field) in fields.iter().enumerate() {
        let name = tree_of(trees, field.file).name(field.name);
        index.add(alloc, name, number as u32)?;
    }
    Ok(index)
}
