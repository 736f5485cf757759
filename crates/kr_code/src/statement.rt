// Statements whose parts are resolved.

use crate::Nodes;
use kr_value::Value;

/// A local that is declared: its number, what it begins with, and its initial value, if it has one.
#[derive(Clone, Copy)]
pub struct Declarator {
    pub local: u32,
    pub default: Value,
    pub initial: Option<u32>,
}

/// A `catch`: the class that it names, as a type, and its block. The object is the next local.
#[derive(Clone, Copy)]
pub struct Catch {
    pub caught: u32,
    pub body: u32,
}

/// A statement over the indices of its parts.
#[derive(Clone, Copy)]
pub enum Statement {
    /// Nothing that has a meaning.
    Stuck,
    Empty,
    Block(Nodes),
    Evaluate(u32),
    IfThen {
        condition: u32,
        then: u32,
    },
    IfElse {
        condition: u32,
        then: u32,
        otherwise: u32,
    },
    While {
        condition: u32,
        body: u32,
    },
    Do {
        body: u32,
        condition: u32,
    },
    For {
        initial: Nodes,
        condition: Option<u32>,
        updates: Nodes,
        body: u32,
    },
    Break,
    Continue,
    Throw(u32),
    /// The block, and the catches in order.
    Try {
        body: u32,
        catches: Nodes,
    },
    /// A `return` without a value.
    Leave,
    Return(u32),
    /// Declarators.
    Declare(Nodes),
}
