// The representation of a scope.
ghost use Rattle.std.specs.Prelude.{◌≡◌, None, Some};
ghost use Rattle.kr_types_scopes.specs.Scoped.{nowhere};

use kr_ast::Name;

/// Whether a node is in code, or in a contract of one kind.
#[derive(Clone, Copy, PartialEq, Eq)]
pub enum Part {
    Code,
    Requiring,
    Ensuring,
    Signalling,
}

/// The role of an expression: a value, a statement, or the operand of a unary minus.
#[derive(Clone, Copy, PartialEq, Eq)]
pub enum Role {
    AsValue,
    AsStatement,
    UnderMinus,
}

/// The kind of item that a declarator declares; for constants, whether they are `final`.
#[derive(Clone, Copy, PartialEq, Eq)]
pub enum Declaring {
    Locals,
    Fields,
    Constants(bool),
}

/// A local or parameter: its name, the node of its type, the bindings below it, and how many locals these are.
#[derive(Clone, Copy)]
pub struct Binding {
    pub name: Name,
    pub declared: Option<u32>,
    pub below: usize,
    pub number: usize,
}

/// A scope: the node of the class, whether the code is static, the node of the method's result type, the bindings in
/// A scope: the node of the class, whether the code is static, the node of the method's result type, the bindings in
/// scope by their top, and the context that the typing rules need; and where the search for the node's own name begins.
/// Fields are laid out in this order: wide ones first, which saves memory and time.
#[derive(Clone, Copy)]
pub struct Within {
    pub top: usize,
    pub class: Option<u32>,
    pub result: Option<u32>,
    pub declared: Option<u32>,
    pub start: u32,
    pub is_static: bool,
    pub is_in_loop: bool,
    pub part: Part,
    pub is_in_old: bool,
    pub role: Role,
    pub declaring: Declaring,
}

impl Within {
    /// The scope outside of classes.
    pub fn outside() -> Within
        ensures { result ≡ nowhere }
    {
        Within {
            class: None,
            is_static: false,
            result: None,
            top: 0,
            is_in_loop: false,
            part: Part::Code,
            is_in_old: false,
            role: Role::AsValue,
            declaring: Declaring::Fields,
            declared: None,
            start: 0,
        }
    }

    /// The scope of a class's members.
    pub(crate) fn in_class(class: u32) -> Within
        ensures { result ≡ record nowhere { class = Some class } }
    {
        let mut made = Within::outside();
        made.class = Some(class);
        made
    }
}
