// The classes with their superclasses.
ghost use Rattle.std.specs.Prelude.{◌≡◌, ◌<◌, List, Some, None, IfOk, IfErr, MatchOption, length};
ghost use Rattle.kr_ast.specs.Arena.{Arena};
ghost use Rattle.kr_classes_table.specs.Table.{super_of};
ghost use Rattle.kr_classes_names.specs.Shown.{AreHeads, count_of};
ghost use Rattle.kr_classes.specs.Faults.{AreBelow, AreSuperclasses};
ghost use Rattle.kr_classes_members.specs.Shown.{table_in};
ghost use Rattle.kr_classes.specs.Refusals.{IsHierarchy, IsRefusal, names_fault, rule_number};

use crate::name_rules::{first_own_ancestor, first_repeated_name, first_unknown_superclass};
use crate::refusal::{ClassRefusal, ClassRule, Found};
use kr_ast::Tree;
use kr_classes_names::{Heads, superclasses};
use kr_classes_table::ClassId;
use std::alloc::Global;

/// The heads of the classes, and the superclass of each.
#[derive(Drop)]
pub struct Hierarchy {
    pub(crate) heads: Heads,
    pub(crate) supers: Vec<Option<ClassId>>,
}

/// The first broken rule of those on names and on what classes extend.
fn first_broken(trees: &[Tree], heads: &Heads, supers: &[Option<ClassId>]) -> Option<Found>
    requires heads { AreHeads trees.now heads.now }
    requires count { length supers.now ≡ count_of heads.now }
    requires supers { AreSuperclasses supers.now (table_in trees.now) }
    requires below { AreBelow supers.now }
    ensures { MatchOption result (names_fault (table_in trees.now) ≡ None) (λ found. names_fault (table_in trees.now) ≡ Some (record { place = found.place; rule = rule_number found.rule })) }
{
    match first_repeated_name(trees, heads) {
        Some(place) => Some(Found {
            place,
            rule: ClassRule::RepeatedClass,
        }),
        None => match first_unknown_superclass(trees, heads, supers) {
            Some(place) => Some(Found {
                place,
                rule: ClassRule::UnknownSuperclass,
            }),
            None => match first_own_ancestor(heads, supers) {
                Some(place) => Some(Found {
                    place,
                    rule: ClassRule::OwnAncestor,
                }),
                None => None,
            },
        },
    }
}

/// The heads and superclasses of these files; or the first broken rule on names and `extends`, which is then the first
/// broken class rule.
pub fn hierarchy_of(alloc: Global, trees: &[Tree]) -> Result<Hierarchy, ClassRefusal>
    requires { length trees.now < 65 }
    ensures read { IfOk result (λ hierarchy. IsHierarchy trees.now hierarchy) }
    ensures refused { IfErr result (λ refusal. IsRefusal trees.now refusal) }
{
    let heads = Heads::read(alloc, trees)?;
    let supers = superclasses(alloc, trees, &heads)?;
    match first_broken(trees, &heads, &supers) {
        Some(found) => Err(ClassRefusal::Broken {
            place: found.place,
            rule: found.rule,
        }),
        None => Ok(Hierarchy { heads, supers }),
    }
}

impl Hierarchy {
    /// The superclass of a class.
    pub fn superclass(&self, class: usize) -> Option<ClassId>
        ensures { (files : List Arena) → IsHierarchy files self.now → result ≡ super_of (table_in files) class }
    {
        if class < self.supers.len() {
            self.supers[class]
        } else {
            None
        }
    }
}
