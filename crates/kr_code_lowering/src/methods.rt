// Calls on objects and after a class's name, and creations, as expressions.
ghost use Rattle.std.specs.Prelude.{◌≡◌, ◌<◌, List, ℕ, IfOk, IfSome, length};
ghost use Rattle.kr_ast.specs.declared.node.Node.TheVariants as nodes;
ghost use Rattle.kr_code_lowering.specs.Vocabulary.{all_methods, count, IsGrown, IsProgram, table, type_at};
ghost use Rattle.kr_code_lowering.specs.Numbered.{AreNumbers};
ghost use Rattle.kr_code_lowering.specs.Sites.{IsHere, Resolves};
ghost use Rattle.kr_code_lowering.specs.Calls.{IsCalledOn, IsCreator};

use crate::calls::static_callee;
use crate::known::meaning_at;
use crate::links::Links;
use crate::lists::list_links;
use crate::named::class_before;
use crate::numbering::NodeNumbers;
use crate::site::Site;
use crate::types::named_type;
use kr_ast::{Entry, Name};
use kr_base::NoMemory;
use kr_classes_names::{TypeForm, Types};
use kr_classes_table::{MethodId, TypeId};
use kr_code::{Callee, CollectionCall, Expression, Nodes};
use kr_types::Program;

/// A call on an object, by the method that its type has: one that the type doesn't have is a collection's.
pub fn called_on(
    program: &Program,
    object: u32,
    method: Option<MethodId>,
    name: &[u8],
    arguments: Nodes,
) -> Expression
    requires program { IsProgram program.now }
    requires method { IfSome method (λ k. k < length (all_methods (table program.now))) }
    ensures { IsCalledOn program.now object name.now arguments method result }
{
    match method {
        None => Expression::CallCollection {
            object,
            call: CollectionCall::named(name),
            arguments,
        },
        Some(method) => {
            if program.roster.methods[method as usize].is_static {
                Expression::StaticCallOn {
                    object,
                    method,
                    arguments,
                }
            } else {
                Expression::CallOn {
                    object,
                    method,
                    arguments,
                }
            }
        }
    }
}

/// A call after a dot as an expression.
pub(crate) fn method_call_expression(
    program: &Program,
    numbers: &NodeNumbers,
    links: &mut Links,
    site: Site,
    entry: Entry,
    object: u32,
    name: Name,
    arguments: u32,
) -> Result<Expression, NoMemory>
    requires program { IsProgram program.now }
    requires numbers { AreNumbers program.now numbers.now }
    requires here { IsHere program.now site entry }
    requires node { entry.node ≡ nodes.MethodCall object name arguments }
    ensures grown { IsGrown links.old links.new }
    ensures resolves { (arrays : List ℕ) (names : List (List ℕ)) → IfOk result (Resolves program.now arrays site names links.new) }
{
    let nodes = list_links(program, numbers, site.at(arguments), links)?;
    match class_before(program, site, object) {
        Some(_) => Ok(Expression::Call {
            callee: static_callee(program, site, entry, object, name, arguments),
            arguments: nodes,
        }),
        None => {
            let method = meaning_at(program, site).method();
            let text = site.text(program, name);
            Ok(called_on(
                program,
                site.code_number(program, numbers, object),
                method,
                text,
                nodes,
            ))
        }
    }
}

/// The creator of an object of a type.
fn creator(types: &Types, created: TypeId) -> Callee
    requires { created < count types.now }
    ensures { IsCreator (type_at types.now created) result }
{
    match types.form(created) {
        TypeForm::Class(class) => Callee::New(class),
        TypeForm::Set(_) => Callee::NewSet,
        TypeForm::List(_) => Callee::NewList,
        TypeForm::Number(_)
        | TypeForm::Boolean
        | TypeForm::Null
        | TypeForm::Void
        | TypeForm::Inferred
        | TypeForm::Array(_)
        | TypeForm::Unknown(..)
        | TypeForm::Applied(..) => Callee::Unknown,
    }
}

/// A creation of an object as an expression.
pub(crate) fn creation_expression(
    program: &Program,
    numbers: &NodeNumbers,
    links: &mut Links,
    site: Site,
    entry: Entry,
    class: u32,
    arguments: u32,
) -> Result<Expression, NoMemory>
    requires program { IsProgram program.now }
    requires numbers { AreNumbers program.now numbers.now }
    requires here { IsHere program.now site entry }
    requires node { entry.node ≡ nodes.ObjectCreation class arguments }
    ensures grown { IsGrown links.old links.new }
    ensures resolves { (arrays : List ℕ) (names : List (List ℕ)) → IfOk result (Resolves program.now arrays site names links.new) }
{
    let callee = creator(&program.table.types, named_type(program, site, class));
    let arguments = list_links(program, numbers, site.at(arguments), links)?;
    Ok(Expression::Call { callee, arguments })
}
