// Calls as expressions.
ghost use Rattle.std.specs.Prelude.{◌≡◌, List, ℕ, Some, None, IfOk, option_and_then};
ghost use Rattle.kr_ast.specs.declared.node.Node.TheVariants as nodes;
ghost use Rattle.kr_code_lowering.specs.Vocabulary.{class_before, IsGrown, IsProgram, method_meant, method_named, name_in, static_only, super_method, table};
ghost use Rattle.kr_code_lowering.specs.Origins.{node_tree};
ghost use Rattle.kr_code_lowering.specs.Numbered.{AreNumbers};
ghost use Rattle.kr_code_lowering.specs.Sites.{IsHere, Resolves, arena_at, scope_at};
ghost use Rattle.kr_code_lowering.specs.Calls.{IsOwnCallee, IsStaticCallee};

use crate::known::meaning_at;
use crate::links::Links;
use crate::lists::list_links;
use crate::numbering::NodeNumbers;
use crate::site::Site;
use kr_ast::{Entry, Name};
use kr_base::NoMemory;
use kr_code::{Callee, Expression};
use kr_types::Program;
use kr_types_resolving::Meaning;

/// The target of a call without object.
fn own_callee(program: &Program, site: Site, _entry: Entry, _name: Name, _arguments: u32) -> Callee
    requires program { IsProgram program.now }
    requires here { IsHere program.now site _entry }
    requires node { _entry.node ≡ nodes.Call _name _arguments }
    ensures { IsOwnCallee program.now (method_meant (scope_at program.now site) (name_in (arena_at program.now site).text _name)) result }
{
    match meaning_at(program, site) {
        Meaning::Static(number) => Callee::Static(number),
        Meaning::Virtual(number) => Callee::Own(number),
        _ => Callee::Unknown,
    }
}

/// The target of a call after a class's name.
pub(crate) fn static_callee(
    program: &Program,
    site: Site,
    _entry: Entry,
    _object: u32,
    _name: Name,
    _arguments: u32,
) -> Callee
    requires program { IsProgram program.now }
    requires here { IsHere program.now site _entry }
    requires node { _entry.node ≡ nodes.MethodCall _object _name _arguments }
    ensures { (class : ℕ) → class_before (scope_at program.now site) (node_tree program.now site.file _object) ≡ Some class → IsStaticCallee program.now (option_and_then static_only (method_named (table program.now) class (name_in (arena_at program.now site).text _name))) result }
{
    match meaning_at(program, site).method() {
        None => Callee::Unknown,
        Some(number) => Callee::Static(number),
    }
}

/// A call without object as an expression.
pub(crate) fn call_expression(
    program: &Program,
    numbers: &NodeNumbers,
    links: &mut Links,
    site: Site,
    entry: Entry,
    name: Name,
    arguments: u32,
) -> Result<Expression, NoMemory>
    requires program { IsProgram program.now }
    requires numbers { AreNumbers program.now numbers.now }
    requires here { IsHere program.now site entry }
    requires node { entry.node ≡ nodes.Call name arguments }
    ensures grown { IsGrown links.old links.new }
    ensures resolves { (arrays : List ℕ) (names : List (List ℕ)) → IfOk result (Resolves program.now arrays site names links.new) }
{
    let callee = own_callee(program, site, entry, name, arguments);
    let arguments = list_links(program, numbers, site.at(arguments), links)?;
    Ok(Expression::Call { callee, arguments })
}

/// A call of the superclass's method as an expression.
pub(crate) fn super_call_expression(
    program: &Program,
    numbers: &NodeNumbers,
    links: &mut Links,
    site: Site,
    entry: Entry,
    name: Name,
    arguments: u32,
) -> Result<Expression, NoMemory>
    requires program { IsProgram program.now }
    requires numbers { AreNumbers program.now numbers.now }
    requires here { IsHere program.now site entry }
    requires node { entry.node ≡ nodes.SuperCall name arguments }
    ensures grown { IsGrown links.old links.new }
    ensures resolves { (arrays : List ℕ) (names : List (List ℕ)) → IfOk result (Resolves program.now arrays site names links.new) }
{
    let method = meaning_at(program, site).super_method();
    let arguments = list_links(program, numbers, site.at(arguments), links)?;
    Ok(Expression::Call {
        callee: Callee::Super(method),
        arguments,
    })
}
