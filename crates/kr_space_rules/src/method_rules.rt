// The rules on methods of the root: its predicate (S7), and the method under test (S8).
ghost use Rattle.std.specs.Prelude.{◌≡◌, IfOk, IfSome, OnOk, fold, option_map, not, codes};
ghost use Rattle.kr_space_rules.specs.Vocabulary.{break_if, is_instance_method, is_predicate_method, IsMethod, lesser, method_of, method_shown};
ghost use Rattle.kr_space_rules.specs.Classes.{AreClasses, AreTyped, table_of};

use crate::classes::Classes;
use crate::parameters::{method_at, parameters_of_method};
use kr_base::NoMemory;
use kr_classes_members::Method;
use kr_classes_names::Types;
use kr_fin::Least;
use kr_space_meaning::SpaceRule;
use std::alloc::Global;

/// Whether a method is `boolean` and has no parameters, and objects have it.
fn is_predicate(
    alloc: Global,
    classes: &Classes,
    types: &Types,
    found: Option<Method>,
) -> Result<bool, NoMemory>
    requires stands { IfSome found (IsMethod classes.now.trees.now) }
    requires typed { AreTyped classes.now types.now }
    ensures { IfOk result (λ b. b ≡ is_predicate_method (option_map (method_shown classes.now.trees.now) found)) }
{
    let Some(method) = found else {
        return Ok(false);
    };
    let parameters = parameters_of_method(alloc, classes.trees, method)?;
    let number = classes.numbers.number(method.file, method.result);
    Ok(!method.is_static && parameters.is_empty() && types.is_same(number, types.boolean()))
}

/// Whether there is a method that objects have.
fn is_instance(classes: &Classes, found: Option<Method>) -> bool
    ensures { result ≡ is_instance_method (option_map (method_shown classes.now.trees.now) found) }
{
    let _ = classes;
    match found {
        None => false,
        Some(method) => !method.is_static,
    }
}

/// S7: the root has an instance method `boolean repOk()`.
pub fn note_predicate(
    least: &mut Least<SpaceRule>,
    classes: &Classes,
    types: &Types,
    root: Option<u32>,
) -> Result<(), NoMemory>
    requires classes { AreClasses classes.now }
    requires typed { AreTyped classes.now types.now }
    ensures { OnOk result (least.new ≡ fold lesser least.old (break_if (not (is_predicate_method (method_of (table_of classes.now) root (codes "repOk")))) SpaceRule.NoPredicate (codes "root"))) }
{
    let found = method_at(classes, root, b"repOk".as_slice());
    if is_predicate(least.alloc(), classes, types, found)? {
        Ok(())
    } else {
        least.note(SpaceRule::NoPredicate, "root")
    }
}

/// S8: the root has an instance method of the given name.
pub fn note_method(
    least: &mut Least<SpaceRule>,
    classes: &Classes,
    root: Option<u32>,
    name: &[u8],
) -> Result<(), NoMemory>
    requires { AreClasses classes.now }
    ensures { OnOk result (least.new ≡ fold lesser least.old (break_if (not (is_instance_method (method_of (table_of classes.now) root name.now))) SpaceRule.NoMethod (codes "method"))) }
{
    if is_instance(classes, method_at(classes, root, name)) {
        Ok(())
    } else {
        least.note(SpaceRule::NoMethod, "method")
    }
}
