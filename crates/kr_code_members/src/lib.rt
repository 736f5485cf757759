//! The members of all classes by number: the name of each field and method, the fields and methods of each class, and the nodes
//! of initial values and bodies in the files, each in the scope that its code runs in.
#![tactic(auto)]

mod classes;
mod constructors;
mod fields;
mod lists;
mod members;
mod methods;
mod nodes;

pub use lists::list_nodes;
pub use members::member_nodes;
pub use nodes::{ClassNodes, ConstructorNode, FieldNode, MemberNodes, MethodNode};
