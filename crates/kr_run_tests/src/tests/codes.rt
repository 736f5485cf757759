// Code that is written node by node.

use kr_ast::BinaryOperator;
use kr_base::NoMemory;
use kr_code::{
    Callee, ClassCode, Code, CollectionCall, Expression, MethodCode, Node, Nodes, Statement,
};
use kr_mean::BinaryOperation;
use kr_space_layout::counted;
use kr_value::{Value, Width};
use std::alloc::Global;

pub(crate) const NONE: Nodes = Nodes { first: 0, count: 0 };

/// An operator on ints.
pub(crate) fn int_operation(operator: BinaryOperator) -> BinaryOperation {
    BinaryOperation {
        operator,
        width: Width::Bits32,
        assigned: None,
    }
}

/// The lists of code.
#[derive(Drop)]
pub(crate) struct Parts {
    pub(crate) nodes: Vec<Node>,
    pub(crate) links: Vec<u32>,
    pub(crate) values: Vec<Value>,
    pub(crate) methods: Vec<MethodCode>,
    pub(crate) classes: Vec<ClassCode>,
    pub(crate) positions: Vec<Vec<Option<u32>>>,
    pub(crate) spots: Vec<Vec<Option<u32>>>,
    pub(crate) dispatch: Vec<Vec<Option<u32>>>,
    pub(crate) instances: Vec<Vec<bool>>,
    pub(crate) trap_classes: Vec<Option<u32>>,
}

impl Parts {
    fn new(alloc: Global) -> Parts {
        Parts {
            nodes: Vec::new(alloc),
            links: Vec::new(alloc),
            values: Vec::new(alloc),
            methods: Vec::new(alloc),
            classes: Vec::new(alloc),
            positions: Vec::new(alloc),
            spots: Vec::new(alloc),
            dispatch: Vec::new(alloc),
            instances: Vec::new(alloc),
            trap_classes: Vec::new(alloc),
        }
    }

    pub(crate) fn node(&mut self, node: Node) -> Result<u32, NoMemory> {
        let number = counted(self.nodes.as_slice())?;
        self.nodes.push(node)?;
        Ok(number)
    }

    pub(crate) fn put(&mut self, expression: Expression) -> Result<u32, NoMemory> {
        self.node(Node::Expression(expression))
    }

    pub(crate) fn statement(&mut self, statement: Statement) -> Result<u32, NoMemory> {
        self.node(Node::Statement(statement))
    }

    pub(crate) fn int(&mut self, number: i64) -> Result<u32, NoMemory> {
        self.put(Expression::Literal(Value::Int(number)))
    }

    pub(crate) fn binary(
        &mut self,
        operator: BinaryOperator,
        left: u32,
        right: u32,
    ) -> Result<u32, NoMemory> {
        self.put(Expression::Binary {
            operation: int_operation(operator),
            left,
            right,
        })
    }

    pub(crate) fn list(&mut self, nodes: &[u32]) -> Result<Nodes, NoMemory> {
        let first = counted(self.links.as_slice())?;
        let count = counted(nodes)?;
        self.links.extend_from_slice(nodes)?;
        Ok(Nodes { first, count })
    }

    pub(crate) fn call(&mut self, method: u32, arguments: &[u32]) -> Result<u32, NoMemory> {
        let listed = self.list(arguments)?;
        self.put(Expression::Call {
            callee: Callee::Own(method),
            arguments: listed,
        })
    }

    pub(crate) fn method(
        &mut self,
        parameters: u32,
        is_void: bool,
        body: &[u32],
    ) -> Result<(), NoMemory> {
        let listed = self.list(body)?;
        self.methods.push(MethodCode {
            parameters: Nodes {
                first: 0,
                count: parameters,
            },
            is_void,
            body: listed,
        })?;
        Ok(())
    }

    /// A method that returns an expression's value.
    pub(crate) fn returning(&mut self, parameters: u32, value: u32) -> Result<(), NoMemory> {
        let node = self.statement(Statement::Return(value))?;
        self.method(parameters, false, &[node])
    }

    pub(crate) fn collection(
        &mut self,
        object: u32,
        call: CollectionCall,
        arguments: &[u32],
    ) -> Result<u32, NoMemory> {
        let listed = self.list(arguments)?;
        self.put(Expression::CallCollection {
            object,
            call,
            arguments: listed,
        })
    }
}

/// Nodes written as code.
pub(crate) trait Written {
    fn write(alloc: Global, parts: &mut Parts) -> Result<(), NoMemory>;
}

/// The code of these lists; no test has as many links.
fn finished(alloc: Global, parts: Parts) -> Code {
    let mut links = parts.links;
    links.truncate(1000);
    Code {
        nodes: parts.nodes,
        links,
        values: parts.values,
        methods: parts.methods,
        classes: parts.classes,
        positions: parts.positions,
        spots: parts.spots,
        dispatch: parts.dispatch,
        instances: parts.instances,
        array_types: Vec::new(alloc),
        trap_classes: parts.trap_classes,
    }
}

/// The code that is written.
pub(crate) fn code_of<W: Written>(alloc: Global) -> Result<Code, NoMemory> {
    let mut parts = Parts::new(alloc);
    W::write(alloc, &mut parts)?;
    Ok(finished(alloc, parts))
}

/// Adds a row.
pub(crate) fn push_row(
    alloc: Global,
    rows: &mut Vec<Vec<Option<u32>>>,
    row: &[Option<u32>],
) -> Result<(), NoMemory> {
    let row = Vec::from_slice(alloc, row)?;
    rows.push(row)?;
    Ok(())
}
