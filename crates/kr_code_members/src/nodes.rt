// The nodes of members.
ghost use Rattle.std.specs.Prelude.{◌≡◌, ◌<◌, length};
ghost use Rattle.kr_code_members.specs.Nodes.{IsHere, IsThere, arena_at};

use kr_ast::{Entry, Tree, tree_of};
use kr_types::Program;

/// A method: its own node, the lists of its contract lines and of its statements, and the class that declares it.
#[derive(Clone, Copy)]
pub struct MethodNode {
    pub file: u32,
    pub class: u32,
    pub node: u32,
    pub contracts: u32,
    pub body: u32,
}

/// A field or constant: its initial value, which may be absent.
#[derive(Clone, Copy)]
pub struct FieldNode {
    pub file: u32,
    pub is_static: bool,
    pub initial: u32,
}

/// A constructor: its own node, the call of the superclass's constructor, which may be absent, and the list of its statements.
#[derive(Clone, Copy)]
pub struct ConstructorNode {
    pub file: u32,
    pub node: u32,
    pub super_call: u32,
    pub body: u32,
}

/// A class: its own fields and constants in source order, and its constructor.
#[derive(Drop)]
pub struct ClassNodes {
    pub fields: Vec<FieldNode>,
    pub constructor: Option<ConstructorNode>,
}

/// The methods of all classes, those of one class after those of another, and the classes.
#[derive(Drop)]
pub struct MemberNodes {
    pub methods: Vec<MethodNode>,
    pub classes: Vec<ClassNodes>,
}

/// The tree of a file.
pub(crate) fn tree_at(program: &Program, file: u32) -> &Tree
    requires { file < length program.now.trees.items }
    ensures { result.now ≡ arena_at program.now file }
{
    tree_of(&program.trees, file)
}

/// A node with its parts.
pub(crate) fn entry(program: &Program, file: u32, node: u32) -> Entry
    requires { IsThere program.now file node }
    ensures { IsHere program.now file node result }
{
    tree_at(program, file).entry(node)
}
