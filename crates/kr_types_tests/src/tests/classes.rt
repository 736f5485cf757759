// A class that extends another one, and a class that extends none of the classes.
ghost use Rattle.std.specs.Prelude.{◌<◌, length};

use kr_ast::Tree;
use kr_classes::{ClassRefusal, classes, hierarchy_of};
use std::alloc::Global;

/// The table of two classes, the second below the first.
pub fn table_fits(alloc: Global, trees: &[Tree]) -> bool
    requires { length trees.now < 65 }
{
    match classes(alloc, trees) {
        Ok(table) => table.members.len() == 2 && table.members.superclass(1) == Some(0),
        Err(_) => false,
    }
}

/// The first class extends `Object`, which is none of the classes.
pub fn hierarchy_fits(alloc: Global, trees: &[Tree]) -> bool
    requires { length trees.now < 65 }
{
    match hierarchy_of(alloc, trees) {
        Err(ClassRefusal::Broken { place, rule }) => {
            place.file == 0 && place.col == 21 && rule.code() == "C2"
        }
        _ => false,
    }
}
