// The touch of the creation of an object, and of a write of a field or an element.
ghost use Rattle.std.specs.Prelude.{◌≡◌, ◌<◌, IfSome, option_map};
ghost use Rattle.kr_ast.specs.Tree as trees;
ghost use Rattle.kr_mean.specs.Program as meaning;
ghost use Rattle.kr_pure_effects.specs.Vocabulary.{Class, count, element_target, is_class, IsMeaningWithin, IsProgram, meaning_shown, table_in, type_at, TypeList, writes_to};
ghost use Rattle.kr_pure_effects.specs.Touches.{IsTouchWithin, field_written, touches};

use crate::touch::Touch;
use kr_classes_names::{TypeForm, Types};
use kr_types::Program;
use kr_types_resolving::Meaning;

/// The creation of an object of a type.
pub fn creation_touch(types: &Types, created: u32) -> Touch
    requires { created < count types.now }
    ensures within { IsTouchWithin types.now result }
    ensures shown { (mean : meaning.Program) (class : Class) → touches mean types.now result class ≡ is_class (type_at types.now created) class }
{
    match types.form(created) {
        TypeForm::Class(class) => Touch::Objects(class),
        _ => Touch::Nothing,
    }
}

/// A write of a variable that means a field of an object, or of another one.
pub(crate) fn field_touch(program: &Program, written: Meaning) -> Touch
    requires program { IsProgram program.now }
    requires written { IsMeaningWithin (table_in program.now.trees.items) written }
    ensures within { (l : TypeList) → IsTouchWithin l result }
    ensures shown { (mean : meaning.Program) (l : TypeList) (class : Class) → touches mean l result class ≡ field_written mean (meaning_shown (table_in program.now.trees.items) written) class }
{
    match written.instance() {
        None => Touch::Nothing,
        Some(number) => Touch::Fields(program.roster.fields[number as usize].class),
    }
}

/// A write of an element of an expression of a type.
pub(crate) fn element_touch(types: &Types, array: Option<u32>) -> Touch
    requires { IfSome array (λ t. t < count types.now) }
    ensures within { IsTouchWithin types.now result }
    ensures shown { (mean : meaning.Program) (a i : trees.Tree) (class : Class) → touches mean types.now result class ≡ writes_to mean (element_target a i (option_map (type_at types.now) array)) class }
{
    match array {
        None => Touch::Nothing,
        Some(number) => match types.form(number) {
            TypeForm::Array(element) => Touch::Elements(element),
            _ => Touch::Nothing,
        },
    }
}
