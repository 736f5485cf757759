// The parameters of the method under test, put into a sink.
ghost use Rattle.std.specs.Prelude.{◌≡◌, ◌||◌, IfOk, IfSome, List, ℕ, codes, flat_map};
ghost use Rattle.kr_report_rows.specs.Vocabulary.{are_any, bare, in_parentheses, IsMethod, joined_by, names_of, separated, Writes};
ghost use Rattle.kr_report_rows.specs.Parts.{argument_named, parameter_named};

use crate::places::parameter_at;
use crate::values::put_field;
use kr_ast::Tree;
use kr_base::{Failed, Sink, put_all};
use kr_classes_members::Method;
use kr_report::parameter_name_of;
use kr_space_layout::Layout;
use kr_value::Value;

/// Whether a structure has parameters.
fn has_parameters(layout: &Layout, structure: &[(u32, Value)]) -> bool
    ensures { (names : List (List ℕ)) → result ≡ are_any (flat_map (parameter_named (bare layout.now) names) structure.now) }
{
    for entry in structure {
        match parameter_at(layout, entry.0) {
            None => {}
            Some(_) => return true,
        }
    }
    false
}

/// Writes `x=value` of a parameter. Returns whether something is written by now.
fn put_parameter<K: Sink>(
    trees: &[Tree],
    method: Option<Method>,
    layout: &Layout,
    parameter: Option<u32>,
    value: Value,
    any: bool,
    out: &mut K,
) -> Result<bool, Failed>
    requires { IfSome method (IsMethod trees.now) }
    ensures text { Writes K.taken K.faults out.old out.new (separated (codes ",") any (argument_named (bare layout.now) (names_of trees.now method) value parameter)) result }
    ensures any { IfOk result (λ now. now ≡ (any || are_any (argument_named (bare layout.now) (names_of trees.now method) value parameter))) }
{
    match parameter {
        None => Ok(any),
        Some(number) => {
            let name = parameter_name_of(trees, method, number);
            put_field(name, layout, value, any, out)?;
            Ok(true)
        }
    }
}

/// Writes the parameters that a structure has, parted by commas.
fn put_list<K: Sink>(
    trees: &[Tree],
    method: Option<Method>,
    layout: &Layout,
    structure: &[(u32, Value)],
    out: &mut K,
) -> Result<(), Failed>
    requires { IfSome method (IsMethod trees.now) }
    ensures { Writes K.taken K.faults out.old out.new (joined_by (codes ",") (flat_map (parameter_named (bare layout.now) (names_of trees.now method)) structure.now)) result }
{
    let mut any = false;
    for entry in structure {
        let parameter = parameter_at(layout, entry.0);
        any = put_parameter(trees, method, layout, parameter, entry.1, any, out)?;
    }
    Ok(())
}

/// Writes the parameters that a structure has, where there are any, in parentheses, with a space.
pub(crate) fn put_parameters<K: Sink>(
    trees: &[Tree],
    method: Option<Method>,
    layout: &Layout,
    structure: &[(u32, Value)],
    out: &mut K,
) -> Result<(), Failed>
    requires { IfSome method (IsMethod trees.now) }
    ensures { Writes K.taken K.faults out.old out.new (in_parentheses (flat_map (parameter_named (bare layout.now) (names_of trees.now method)) structure.now)) result }
{
    if !has_parameters(layout, structure) {
        return Ok(());
    }
    put_all(out, b"(")?;
    put_list(trees, method, layout, structure, out)?;
    put_all(out, b") ")
}
