// The initial values of the fields of objects.
ghost use Rattle.std.specs.Prelude.{◌≡◌, ◌≤◌, IfOk, length, map, All};
ghost use Rattle.kr_code_bodies.specs.Vocabulary.{default_of, field_shown, fields_of, IsField, IsGrown, IsProgram, table};
ghost use Rattle.kr_code_bodies.specs.Made.{AreThere};

use kr_base::NoMemory;
use kr_classes_members::Field;
use kr_classes_table::ClassId;
use kr_code::Nodes;
use kr_code_lowering::default_value;
use kr_types::Program;
use kr_value::Value;
use std::alloc::Global;

/// The initial value of a field.
fn field_default(program: &Program, field: Field) -> Value
    requires program { IsProgram program.now }
    requires field { IsField program.now.trees.items field }
    ensures { result ≡ default_of (field_shown program.now.trees.items field).type }
{
    let types = &program.table.types;
    default_value(
        types,
        program.table.numbers.number(field.file, field.declared),
    )
}

/// Adds what fields begin with.
fn add_values(
    program: &Program,
    fields: &[Field],
    values: &mut Vec<Value>,
) -> Result<Nodes, NoMemory>
    requires program { IsProgram program.now }
    requires fields { All (IsField program.now.trees.items) fields.now }
    requires room { length values.old.items ≤ 4294967295 }
    ensures room { IfOk result (λ nodes. length values.new.items ≤ 4294967295) }
    ensures grown { IfOk result (λ nodes. IsGrown values.old.items values.new.items) }
    ensures there { IfOk result (λ nodes. AreThere values.new.items nodes (map (λ f. default_of f.type) (map (field_shown program.now.trees.items) fields.now))) }
{
    let start = values.len() as u32;
    for field in fields {
        if values.len() >= 0xffff_ffff {
            return Err(NoMemory::at_limit(values.as_slice()));
        }
        values.push(field_default(program, *field))?;
    }
    Ok(Nodes {
        first: start,
        count: values.len() as u32 - start,
    })
}

/// Adds what the fields of a class's objects begin with.
pub(crate) fn add_defaults(
    alloc: Global,
    program: &Program,
    class: ClassId,
    values: &mut Vec<Value>,
) -> Result<Nodes, NoMemory>
    requires program { IsProgram program.now }
    requires room { length values.old.items ≤ 4294967295 }
    ensures room { IfOk result (λ nodes. length values.new.items ≤ 4294967295) }
    ensures grown { IfOk result (λ nodes. IsGrown values.old.items values.new.items) }
    ensures there { IfOk result (λ nodes. AreThere values.new.items nodes (map (λ f. default_of f.type) (fields_of (table program.now) class))) }
{
    let fields = program.table.members.fields_of(alloc, class)?;
    add_values(program, &fields, values)
}
