// The tables in which names are looked up.

use kr_ast::Tree;
use kr_classes_members::{Members, Roster};
use kr_classes_names::Heads;

/// The declarations in the files of a program: classes by name, their members, and all fields and methods by number.
#[derive(Clone, Copy)]
pub struct Classes<'a> {
    pub trees: &'a [Tree],
    pub heads: &'a Heads,
    pub members: &'a Members,
    pub roster: &'a Roster,
}
