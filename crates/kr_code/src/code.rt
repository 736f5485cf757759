// The code of a program, with its tables.
ghost use Rattle.std.specs.Prelude.{◌≤◌, vec_len};

use crate::{Catch, Declarator, Expression, Nodes, Statement};
use kr_classes_table::{ClassId, FieldId, MethodId, TypeId};
use kr_value::Value;

/// A field with an initial value, as one that is stored.
#[derive(Clone, Copy)]
pub struct Initialiser {
    pub field: FieldId,
    pub value: u32,
}

/// A node.
#[derive(Clone, Copy)]
pub enum Node {
    Expression(Expression),
    Statement(Statement),
    Declarator(Declarator),
    Catch(Catch),
    Initialiser(Initialiser),
}

/// A method: the types of its parameters, whether it gives no value, and its statements.
#[derive(Clone, Copy)]
pub struct MethodCode {
    /// The links are types.
    pub parameters: Nodes,
    pub is_void: bool,
    pub body: Nodes,
}

/// A constructor: the types of its parameters, the arguments of a written call of the superclass's, and its statements.
#[derive(Clone, Copy)]
pub struct Constructor {
    /// The links are types.
    pub parameters: Nodes,
    pub call: Option<Nodes>,
    pub body: Nodes,
}

/// A class: what the fields of its objects begin with, the classes from it upwards, the initial values of the fields that it
/// declares itself, and the constructor that it declares, if it does.
#[derive(Clone, Copy)]
pub struct ClassCode {
    /// Among the code's values.
    pub defaults: Nodes,
    /// The links are classes.
    pub line: Nodes,
    pub initialisers: Nodes,
    pub constructor: Option<Constructor>,
}

/// The nodes, the links of lists to their nodes, values, methods and classes by their numbers, and the tables: where the objects
/// of a class have the field of a name, where they have a field that is stored, which method they run in place of one,
/// which classes are instances of a type, and the type of the arrays of each class. The name with the number 0 is `length`.
#[derive(Drop)]
pub struct Code {
    pub nodes: Vec<Node>,
    pub links: Vec<u32>,
    pub values: Vec<Value>,
    pub methods: Vec<MethodCode>,
    pub classes: Vec<ClassCode>,
    pub positions: Vec<Vec<Option<u32>>>,
    pub spots: Vec<Vec<Option<u32>>>,
    pub dispatch: Vec<Vec<Option<MethodId>>>,
    pub instances: Vec<Vec<bool>>,
    pub array_types: Vec<Option<TypeId>>,
    /// The classes of the kinds of traps, in the order of the kinds.
    pub trap_classes: Vec<Option<ClassId>>,
    /// A link has a number.
    pub ghost small: { vec_len links ≤ 4294967295 },
}
