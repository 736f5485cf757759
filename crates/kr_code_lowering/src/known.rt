// The meaning and the type of a node, from typing.
ghost use Rattle.std.specs.Prelude.{◌≡◌, ◌<◌, IfSome, option_map};
ghost use Rattle.kr_code_lowering.specs.Vocabulary.{count, IsMeant, IsProgram, judged, table, type_at, type_in, type_width, width_in};
ghost use Rattle.kr_code_lowering.specs.Sites.{IsSite, scope_at, tree_at};

use crate::site::Site;
use kr_classes_names::{TypeForm, Types};
use kr_classes_table::TypeId;
use kr_types::Program;
use kr_types_expressions::part_type;
use kr_types_resolving::Meaning;
use kr_value::Width;

/// The meaning of a node.
pub(crate) fn meaning_at(program: &Program, site: Site) -> Meaning
    requires program { IsProgram program.now }
    requires site { IsSite program.now site }
    ensures { IsMeant (table program.now) (scope_at program.now site) (tree_at program.now site) result }
{
    let _typed = site.typed(program);
    program.meaning_of(site.file, site.node)
}

/// The type of an expression, by its number.
pub(crate) fn type_of(program: &Program, site: Site) -> Option<TypeId>
    requires program { IsProgram program.now }
    requires site { IsSite program.now site }
    ensures within { IfSome result (λ t. t < count program.now.table.types) }
    ensures shown { option_map (type_at program.now.table.types) result ≡ type_in (judged (scope_at program.now site) (tree_at program.now site)).typed }
{
    let notes = &site.typed(program).notes;
    part_type(notes.at(site.node).known)
}

/// The width of a type's numbers.
fn width_in(types: &Types, number: TypeId) -> Width
    requires { number < count types.now }
    ensures { result ≡ width_in (type_at types.now number) }
{
    match types.form(number) {
        TypeForm::Number(width) => width,
        _ => Width::Bits32,
    }
}

/// The width of the numbers of an expression.
pub(crate) fn width_of(program: &Program, site: Site) -> Width
    requires program { IsProgram program.now }
    requires site { IsSite program.now site }
    ensures { result ≡ type_width (type_in (judged (scope_at program.now site) (tree_at program.now site)).typed) }
{
    match type_of(program, site) {
        None => Width::Bits32,
        Some(number) => width_in(&program.table.types, number),
    }
}
