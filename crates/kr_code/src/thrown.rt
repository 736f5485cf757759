// The classes and kinds of what is thrown.
ghost use Rattle.std.specs.Prelude.{◌≡◌, None};
ghost use Rattle.std.proofs.Common.{get_or};
ghost use Rattle.kr_code.specs.Tables.{node_at, catch_of, class_in_kind, kind_in, is_caught_by};
ghost use Rattle.kr_mean.specs.Thrown.{is_class};

use crate::{Catch, Code, Node};
use kr_classes_table::{ClassId, TypeId};
use kr_mean::Kind;
use kr_value::Class;

fn trap_class(classes: &Vec<Option<ClassId>>, at: usize) -> Option<ClassId>
    ensures { result ≡ get_or classes.now.items at None }
{
    match classes.get(at) {
        Some(class) => *class,
        None => None,
    }
}

fn is_class(class: ClassId, found: Option<ClassId>) -> bool
    ensures { result ≡ is_class class found }
{
    match found {
        Some(own) => class == own,
        None => false,
    }
}

impl Code {
    /// The `catch` that is a node.
    pub fn catch(&self, node: u32) -> Option<Catch>
        ensures { result ≡ catch_of (node_at self.now node) }
    {
        match self.node(node) {
            Node::Catch(catch) => Some(catch),
            _ => None,
        }
    }

    /// The class of a kind.
    pub fn class_in_kind(&self, kind: Kind) -> Option<ClassId>
        ensures { result ≡ class_in_kind self.now kind }
    {
        match kind {
            Kind::NullPointerException => trap_class(&self.trap_classes, 0),
            Kind::ArithmeticException => trap_class(&self.trap_classes, 1),
            Kind::ArrayIndexOutOfBoundsException => trap_class(&self.trap_classes, 2),
            Kind::NegativeArraySizeException => trap_class(&self.trap_classes, 3),
            Kind::ClassCastException => trap_class(&self.trap_classes, 4),
            Kind::NoSuchElementException => trap_class(&self.trap_classes, 5),
            Kind::Thrown(class) => Some(class),
            Kind::NoReturn => None,
            Kind::ArrayTooLong => None,
        }
    }

    /// The kind of a class.
    pub fn kind_in(&self, class: ClassId) -> Kind
        ensures { result ≡ kind_in self.now class }
    {
        if is_class(class, self.class_in_kind(Kind::NullPointerException)) {
            Kind::NullPointerException
        } else if is_class(class, self.class_in_kind(Kind::ArithmeticException)) {
            Kind::ArithmeticException
        } else if is_class(
            class,
            self.class_in_kind(Kind::ArrayIndexOutOfBoundsException),
        ) {
            Kind::ArrayIndexOutOfBoundsException
        } else if is_class(class, self.class_in_kind(Kind::NegativeArraySizeException)) {
            Kind::NegativeArraySizeException
        } else if is_class(class, self.class_in_kind(Kind::ClassCastException)) {
            Kind::ClassCastException
        } else if is_class(class, self.class_in_kind(Kind::NoSuchElementException)) {
            Kind::NoSuchElementException
        } else {
            Kind::Thrown(class)
        }
    }

    /// Whether a class fits a type that is caught.
    pub fn is_caught_by(&self, caught: TypeId, class: Option<ClassId>) -> bool
        ensures { result ≡ is_caught_by self.now caught class }
    {
        match class {
            Some(number) => self.is_instance(caught, Class::Object(number)),
            None => false,
        }
    }
}
