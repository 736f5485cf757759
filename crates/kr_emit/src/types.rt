// Types as a builder writes them, without memory.
ghost use Rattle.std.specs.Prelude.{◌≡◌, List, map};
ghost use Rattle.kr_emit.specs.Vocabulary.{AreHeads, Arena, array_elements, class_text, element_text, heading_at, headings_of, is_long, is_named, IsPosed, posed, root, width_text};
ghost use Rattle.kr_emit.specs.TypeNames.{IsFormOf, type_name};

use kr_ast::{Tree, tree_of};
use kr_classes_names::{Heads, TypeForm};
use kr_classes_table::ClassId;
use kr_space_problem::Problem;
use kr_value::Width;

/// A type's name in three parts: an outer class, a dot, and a name. Each may be empty.
#[derive(Clone, Copy)]
pub(crate) struct TypeName<'t> {
    pub(crate) outer: &'t [u8],
    pub(crate) dot: &'t [u8],
    pub(crate) name: &'t [u8],
}

/// A name without an outer class.
fn simple<'t>(name: &'t [u8]) -> TypeName<'t>
    ensures { type_name result ≡ name.now }
{
    TypeName {
        outer: b"",
        dot: b"",
        name,
    }
}

/// The name of a class; empty where there is none.
fn heading_name<'t>(trees: &'t [Tree], heads: &Heads, class: ClassId) -> &'t [u8]
    requires { AreHeads trees.now heads.now }
    ensures { result.now ≡ (heading_at (headings_of (map root trees.now)) class).name }
{
    match heads.headings().get(class as usize) {
        None => b"",
        Some(heading) => tree_of(trees, heading.file).name(heading.name),
    }
}

/// The class that contains a class.
fn outer_class(heads: &Heads, class: ClassId) -> Option<ClassId>
    ensures { (files : List Arena) → AreHeads files heads.now → result ≡ (heading_at (headings_of (map root files)) class).outer }
{
    match heads.headings().get(class as usize) {
        None => None,
        Some(heading) => heading.outer,
    }
}

/// `C`, or `Outer.C` of a nested class.
fn class_in<'t>(trees: &'t [Tree], heads: &Heads, class: ClassId) -> TypeName<'t>
    requires { AreHeads trees.now heads.now }
    ensures { type_name result ≡ class_text (headings_of (map root trees.now)) class }
{
    let name = heading_name(trees, heads, class);
    match outer_class(heads, class) {
        None => simple(name),
        Some(outer) => TypeName {
            outer: heading_name(trees, heads, outer),
            dot: b".",
            name,
        },
    }
}

/// The name of a class of a problem.
pub(crate) fn class_name(problem: &Problem, class: ClassId) -> TypeName<'_>
    requires { IsPosed problem.now }
    ensures { type_name result ≡ class_text (posed problem.now).program.table.headings class }
{
    let program = &problem.program;
    class_in(program.trees.as_slice(), &program.table.heads, class)
}

/// The type of an array type's elements; that of no value where there is none.
fn elements_of(problem: &Problem, number: u32) -> TypeForm
    requires { IsPosed problem.now }
    ensures { IsFormOf problem.now.program.table.types result (array_elements (posed problem.now).program number) }
{
    match problem.arrays.get(number as usize) {
        None => TypeForm::Void,
        Some(array) => match problem.program.table.types.form(*array) {
            TypeForm::Array(element) => problem.program.table.types.form(element),
            _ => TypeForm::Void,
        },
    }
}

/// Whether `new` can name the type of an array type's elements.
pub(crate) fn is_named(problem: &Problem, number: u32) -> bool
    requires { IsPosed problem.now }
    ensures { result ≡ is_named (array_elements (posed problem.now).program number) }
{
    match elements_of(problem, number) {
        TypeForm::Number(_) => true,
        TypeForm::Boolean => true,
        TypeForm::Class(_) => true,
        _ => false,
    }
}

/// Whether an array type's elements are of type `long`.
pub(crate) fn has_long_elements(problem: &Problem, number: u32) -> bool
    requires { IsPosed problem.now }
    ensures { result ≡ is_long (array_elements (posed problem.now).program number) }
{
    match elements_of(problem, number) {
        TypeForm::Number(Width::Bits64) => true,
        _ => false,
    }
}

fn width_name(width: Width) -> &'static [u8]
    ensures { result.now ≡ width_text width }
{
    match width {
        Width::Bits32 => b"int",
        Width::Bits64 => b"long",
    }
}

/// The name of the type of an array type's elements; empty where `new` can't name it.
pub(crate) fn element_name(problem: &Problem, number: u32) -> TypeName<'_>
    requires { IsPosed problem.now }
    ensures { type_name result ≡ element_text (posed problem.now).program.table.headings (array_elements (posed problem.now).program number) }
{
    match elements_of(problem, number) {
        TypeForm::Number(width) => simple(width_name(width)),
        TypeForm::Boolean => simple(b"boolean"),
        TypeForm::Class(class) => class_name(problem, class),
        _ => simple(b""),
    }
}
