// The code of classes.
ghost use Rattle.std.specs.Prelude.{◌≡◌, ◌<◌, ◌≤◌, ◌^◌, ℕ, List, IfOk, length};
ghost use Rattle.kr_code_bodies.specs.Vocabulary.{all_fields, AreNumbers, fields_of_class, first_of, IsClassNodes, IsGrown, IsProgram, table};
ghost use Rattle.kr_code_bodies.specs.Made.{AddsInitialisers, IsClassMade};

use crate::ancestor_lines::add_line;
use crate::constructors::maybe_constructor;
use crate::fields::{add_initialisers, class_initialisers};
use crate::values::add_defaults;
use kr_base::NoMemory;
use kr_classes_table::{ClassId, FieldId};
use kr_code::{ClassCode, Node};
use kr_code_lowering::{Links, NodeNumbers};
use kr_code_members::ClassNodes;
use kr_types::Program;
use kr_value::Value;
use std::alloc::Global;

/// The code of a class; its own fields have numbers from the given one on. Its values, links and initial values come after
/// those before them.
pub(crate) fn class_code(
    alloc: Global,
    program: &Program,
    numbers: &NodeNumbers,
    class: ClassId,
    members: &ClassNodes,
    first_field: FieldId,
    nodes: &mut Vec<Node>,
    links: &mut Links,
    values: &mut Vec<Value>,
) -> Result<ClassCode, NoMemory>
    requires program { IsProgram program.now }
    requires numbers { AreNumbers program.now numbers.now }
    requires class { class < length (table program.now).classes }
    requires members { IsClassNodes program.now class members.now }
    requires first { first_field ≡ first_of fields_of_class (table program.now) class }
    requires few { length (all_fields (table program.now)) < 2 ^ 32 }
    requires room { length values.old.items ≤ 4294967295 }
    ensures room { IfOk result (λ made. length values.new.items ≤ 4294967295) }
    ensures nodes { IfOk result (λ made. AddsInitialisers nodes.old.items nodes.new.items) }
    ensures links { IfOk result (λ made. IsGrown links.old links.new) }
    ensures values { IfOk result (λ made. IsGrown values.old.items values.new.items) }
    ensures made { (arrays : List ℕ) (names : List (List ℕ)) → IfOk result (λ made. IsClassMade program.now arrays names links.new nodes.new.items values.new.items class made) }
{
    let defaults = add_defaults(alloc, program, class, values)?;
    let line = add_line(alloc, program, class, links)?;
    let own = class_initialisers(alloc, program, numbers, class, &members.fields, first_field)?;
    let initialisers = add_initialisers(&own, nodes, links)?;
    let constructor = maybe_constructor(program, numbers, links, members.constructor)?;
    Ok(ClassCode {
        defaults,
        line,
        initialisers,
        constructor,
    })
}
