// The code of methods and classes.
ghost use Rattle.std.specs.Prelude.{◌≡◌, ◌<◌, ◌^◌, ℕ, List, Some, IfOk, length, slice_get};
ghost use Rattle.kr_code_bodies.specs.Vocabulary.{all_fields, all_methods, AreMemberNodes, AreNumbers, Becomes, Code, Final, Found, IsClassNodes, IsGrown, IsProgram, IsRoster, Made, numbering_of, run_program, table};
ghost use Rattle.kr_code_bodies.specs.Made.{AddsInitialisers, AreBodies, IsClassMade};

use crate::classes::class_code;
use crate::methods::method_codes;
use kr_base::NoMemory;
use kr_classes_members::Roster;
use kr_code::{ClassCode, MethodCode, Node};
use kr_code_lowering::{Links, NodeNumbers};
use kr_code_members::{ClassNodes, MemberNodes};
use kr_types::Program;
use kr_value::Value;
use std::alloc::Global;

/// The methods and classes of code by their numbers, and the values that objects begin with.
#[derive(Drop)]
pub struct Bodies {
    pub methods: Vec<MethodCode>,
    pub classes: Vec<ClassCode>,
    pub values: Vec<Value>,
}

/// Classes with their values.
#[derive(Drop)]
struct Classes {
    classes: Vec<ClassCode>,
    values: Vec<Value>,
}

/// The code of classes.
fn class_codes(
    alloc: Global,
    program: &Program,
    numbers: &NodeNumbers,
    members: &[ClassNodes],
    nodes: &mut Vec<Node>,
    links: &mut Links,
) -> Result<Classes, NoMemory>
    requires program { IsProgram program.now }
    requires numbers { AreNumbers program.now numbers.now }
    requires few { length (all_fields (table program.now)) < 2 ^ 32 }
    requires count { length members.now ≡ length (table program.now).classes }
    requires members { (c : ℕ) (k : Found) → slice_get members.now c ≡ Some k → IsClassNodes program.now c k }
    ensures nodes { IfOk result (λ made. AddsInitialisers nodes.old.items nodes.new.items) }
    ensures grown { IfOk result (λ made. IsGrown links.old links.new) }
    ensures count { IfOk result (λ made. length made.classes.items ≡ length members.now) }
    ensures made { (arrays : List ℕ) (names : List (List ℕ)) → IfOk result (λ made. (c : ℕ) (k : Made) → slice_get made.classes.items c ≡ Some k → IsClassMade program.now arrays names links.new nodes.new.items made.values.items c k) }
{
    let mut classes = Vec::new(alloc);
    let mut values = Vec::new(alloc);
    let mut field = 0;
    let count = members.len() as u32;
    for class in 0..count {
        let own = &members[class as usize];
        let made = class_code(
            alloc,
            program,
            numbers,
            class,
            own,
            field,
            nodes,
            links,
            &mut values,
        )?;
        classes.push(made)?;
        field += own.fields.len() as u32;
    }
    Ok(Classes { classes, values })
}

/// The code of the methods and classes of a program, with the initial values of fields as nodes, and links, after those before
/// them. Err: out of memory, or too many of something for its numbers.
pub fn bodies_of(
    alloc: Global,
    program: &Program,
    numbers: &NodeNumbers,
    roster: &Roster,
    members: &MemberNodes,
    nodes: &mut Vec<Node>,
    links: &mut Links,
) -> Result<Bodies, NoMemory>
    requires program { IsProgram program.now }
    requires numbers { AreNumbers program.now numbers.now }
    requires roster { IsRoster program.now.trees.items roster.now }
    requires members { AreMemberNodes program.now members.now }
    ensures nodes { IfOk result (λ bodies. AddsInitialisers nodes.old.items nodes.new.items) }
    ensures links { IfOk result (λ bodies. IsGrown links.old links.new) }
    ensures methods { IfOk result (λ bodies. length bodies.methods.items ≡ length (all_methods (table program.now))) }
    ensures classes { IfOk result (λ bodies. length bodies.classes.items ≡ length (table program.now).classes) }
    ensures made { (arrays : List ℕ) (names : List (List ℕ)) (final : Final) (code : Code) → IfOk result (λ bodies. Becomes program.now names links.new final code → code.nodes.items ≡ nodes.new.items → code.methods.items ≡ bodies.methods.items → code.classes.items ≡ bodies.classes.items
        → code.values.items ≡ bodies.values.items → AreBodies (run_program program.now arrays) code (numbering_of program.now final)) }
{
    let methods = method_codes(alloc, program, numbers, &members.methods, links)?;
    let made = class_codes(alloc, program, numbers, &members.classes, nodes, links)?;
    Ok(Bodies {
        methods,
        classes: made.classes,
        values: made.values,
    })
}
