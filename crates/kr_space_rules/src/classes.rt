// The classes of a program, as rules need them.

use kr_ast::Tree;
use kr_classes_members::Members;
use kr_classes_names::{Heads, NodeTypes};

/// The files of a program with what is known of their classes: what names mean, the members, and the types that nodes name.
#[derive(Drop)]
pub struct Classes<'p> {
    pub trees: &'p [Tree],
    pub heads: &'p Heads,
    pub members: &'p Members,
    pub numbers: &'p NodeTypes,
}
