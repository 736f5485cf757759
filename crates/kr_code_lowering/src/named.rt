// The meaning of a name at a node.
ghost use Rattle.std.specs.Prelude.{◌≡◌, ◌<◌, Some, length};
ghost use Rattle.kr_ast.specs.declared.node.Node.TheVariants as nodes;
ghost use Rattle.kr_code_lowering.specs.Vocabulary.{all_fields, class_before, field_numbered, IsProgram, known_value, name_in, table, value, values_of};
ghost use Rattle.kr_code_lowering.specs.Origins.{node_scope, node_tree};
ghost use Rattle.kr_code_lowering.specs.Sites.{IsHere, IsSite, arena_at, scope_at};
ghost use Rattle.kr_code_lowering.specs.Named.{IsNamed};

use crate::known::meaning_at;
use crate::site::Site;
use kr_ast::{Entry, Name};
use kr_classes_table::{ClassId, FieldId};
use kr_types::Program;
use kr_types_resolving::Meaning;
use kr_value::Value;

/// The meaning of a name: a local by its number, a constant by its value, if it has one, or a field of `this` by its number.
#[derive(Clone, Copy)]
pub(crate) enum Named {
    Local(u32),
    Constant(Option<Value>),
    Own(FieldId),
    Nothing,
}

/// The value of a constant by its number among all fields, if it has one.
pub(crate) fn constant_value(program: &Program, number: FieldId) -> Option<Value>
    requires program { IsProgram program.now }
    requires number { number < length (all_fields (table program.now)) }
    ensures { result ≡ known_value (values_of (table program.now)) (Some (field_numbered (table program.now) number)) }
{
    let field = program.roster.fields[number as usize];
    program.table.values.value_of(Some(field))
}

/// The meaning of a name.
pub(crate) fn name_at(program: &Program, site: Site, _entry: Entry, _name: Name) -> Named
    requires program { IsProgram program.now }
    requires here { IsHere program.now site _entry }
    requires node { _entry.node ≡ nodes.Variable _name }
    ensures { IsNamed program.now (scope_at program.now site) (name_in (arena_at program.now site).text _name) result }
{
    match meaning_at(program, site) {
        Meaning::Local(number) => Named::Local(number),
        Meaning::Constant(field) => Named::Constant(constant_value(program, field)),
        Meaning::Instance(field) => Named::Own(field),
        _ => Named::Nothing,
    }
}

/// The class that a node before a dot means, at the node after it.
pub(crate) fn class_before(program: &Program, site: Site, object: u32) -> Option<ClassId>
    requires program { IsProgram program.now }
    requires site { IsSite program.now site }
    requires object { object < length (arena_at program.now site).entries }
    requires handed { node_scope program.now site.file object ≡ value (scope_at program.now site) }
    ensures { result ≡ class_before (scope_at program.now site) (node_tree program.now site.file object) }
{
    meaning_at(program, site.at(object)).class()
}
