// Looking things up in code.
ghost use Rattle.std.specs.Prelude.{◌≡◌, ◌∷◌, [], None, false, IfOk, MatchOption};
ghost use Rattle.std.proofs.Common.{get_or};
ghost use Rattle.kr_code.specs.Tables.{node_at, declarator_of, initialiser_of, listed, values_in, method_at, class_at, row_items, cell, position_in, spot_in, method_in, is_instance, is_numbered};

use crate::{ClassCode, Code, Declarator, Expression, Initialiser, MethodCode, Node, Nodes};
use kr_base::NoMemory;
use kr_classes_table::{ClassId, FieldId, MethodId, NameId, TypeId};
use kr_value::{Class, Value};
use std::alloc::Global;

fn number_in(rows: &Vec<Vec<Option<u32>>>, row: u32, column: u32) -> Option<u32>
    ensures { result ≡ cell None rows.now.items row column }
{
    match rows.get(row as usize) {
        Some(numbers) => match numbers.get(column as usize) {
            Some(number) => *number,
            None => None,
        },
        None => None,
    }
}

fn mark_in(rows: &Vec<Vec<bool>>, row: u32, column: u32) -> bool
    ensures { result ≡ cell false rows.now.items row column }
{
    match rows.get(row as usize) {
        Some(marks) => match marks.get(column as usize) {
            Some(mark) => *mark,
            None => false,
        },
        None => false,
    }
}

fn is_number_at(numbers: &Vec<Option<u32>>, at: u32, number: u32) -> bool
    ensures { result ≡ is_numbered number (get_or numbers.now.items at None) }
{
    match numbers.get(at as usize) {
        Some(found) => match *found {
            Some(own) => own == number,
            None => false,
        },
        None => false,
    }
}

impl Code {
    pub(crate) fn node(&self, node: u32) -> Node
        ensures { result ≡ node_at self.now node }
    {
        match self.nodes.get(node as usize) {
            Some(found) => *found,
            None => Node::Expression(Expression::Stuck),
        }
    }

    /// The declarator that is a node.
    pub fn declarator(&self, node: u32) -> Option<Declarator>
        ensures { result ≡ declarator_of (node_at self.now node) }
    {
        match self.node(node) {
            Node::Declarator(declarator) => Some(declarator),
            _ => None,
        }
    }

    /// The initial value of a field that is a node.
    pub fn initialiser(&self, node: u32) -> Option<Initialiser>
        ensures { result ≡ initialiser_of (node_at self.now node) }
    {
        match self.node(node) {
            Node::Initialiser(initialiser) => Some(initialiser),
            _ => None,
        }
    }

    /// The first of some nodes, and the others.
    pub fn split(&self, nodes: Nodes) -> Option<(u32, Nodes)>
        ensures { MatchOption result (listed self.now nodes ≡ []) (λ p. listed self.now nodes ≡ p.0 ∷ listed self.now p.1) }
    {
        if nodes.count == 0 {
            return None;
        }
        match self.links.get(nodes.first as usize) {
            None => None,
            Some(node) => Some((
                *node,
                Nodes {
                    first: nodes.first + 1,
                    count: nodes.count - 1,
                },
            )),
        }
    }

    pub fn method(&self, method: MethodId) -> Option<MethodCode>
        ensures { result ≡ method_at self.now method }
    {
        self.methods.get(method as usize).copied()
    }

    pub fn class(&self, class: ClassId) -> Option<ClassCode>
        ensures { result ≡ class_at self.now class }
    {
        self.classes.get(class as usize).copied()
    }

    /// Where the objects of a class have the field of a name.
    pub fn position(&self, name: NameId, class: ClassId) -> Option<u32>
        ensures { result ≡ position_in self.now name class }
    {
        number_in(&self.positions, name, class)
    }

    /// Where what is of a class has a field that is stored.
    pub fn spot(&self, field: FieldId, class: Class) -> Option<u32>
        ensures { result ≡ spot_in self.now field class }
    {
        match class {
            Class::Object(number) => number_in(&self.spots, field, number),
            _ => None,
        }
    }

    /// The method that what is of a class runs in place of one.
    pub fn method_in(&self, method: MethodId, class: Class) -> Option<MethodId>
        ensures { result ≡ method_in self.now method class }
    {
        match class {
            Class::Object(number) => number_in(&self.dispatch, method, number),
            _ => None,
        }
    }

    /// Whether what is of a class is an instance of a type.
    pub fn is_instance(&self, type_number: TypeId, class: Class) -> bool
        ensures { result ≡ is_instance self.now type_number class }
    {
        match class {
            Class::Object(number) => mark_in(&self.instances, type_number, number),
            Class::Array(number) => is_number_at(&self.array_types, number, type_number),
            _ => false,
        }
    }

    /// Values that follow one another.
    pub fn copy_values(&self, alloc: Global, nodes: Nodes) -> Result<Vec<Value>, NoMemory>
        ensures { IfOk result (λ values. values.items ≡ values_in self.now nodes) }
    {
        let first = (nodes.first as usize).min(self.values.len());
        let rest = &self.values[first..];
        let count = (nodes.count as usize).min(rest.len());
        Ok(rest[..count].to_vec(alloc)?)
    }
}
