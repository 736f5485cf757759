// Declarators of locals.
ghost use Rattle.std.specs.Prelude.{◌≡◌, IfNone, IfOk, IfSome, length};
ghost use Rattle.kr_ast.specs.declared.node.Node.TheVariants as nodes;
ghost use Rattle.kr_code_lowering.specs.Vocabulary.{bind_local, IsProgram, IsTypeNumber, JavaType, Scope};
ghost use Rattle.kr_code_lowering.specs.Numbered.{AreNumbers};
ghost use Rattle.kr_code_lowering.specs.Sites.{IsHere, IsSite, scope_at};
ghost use Rattle.kr_code_lowering.specs.Named.{IsLocal, IsNoLocal};
ghost use Rattle.kr_code_lowering.specs.Statements.{Declares};

use crate::numbering::NodeNumbers;
use crate::site::Site;
use crate::statements::maybe_part;
use crate::types::default_value;
use kr_ast::{Entry, Name, tree_of};
use kr_base::NoMemory;
use kr_classes_table::TypeId;
use kr_code::Declarator;
use kr_types::Program;
use kr_types_judging::type_of_node;
use kr_types_scopes::LocalFound;

/// The number of the type that a node's scope declares.
fn declared_type(program: &Program, site: Site) -> TypeId
    requires program { IsProgram program.now }
    requires site { IsSite program.now site }
    ensures { IsTypeNumber program.now.table.types result (scope_at program.now site).declared }
{
    let here = site.typed(program).scopes.at(site.node);
    type_of_node(
        &program.trees,
        &program.table.types,
        &program.table.numbers,
        site.file,
        here.declared,
    )
}

/// The local or parameter that a name means at a node.
fn local_at(program: &Program, site: Site, name: &[u8]) -> Option<LocalFound>
    requires program { IsProgram program.now }
    requires site { IsSite program.now site }
    ensures found { IfSome result (λ l. IsLocal (scope_at program.now site) name.now l.number) }
    ensures none { IfNone result (IsNoLocal (scope_at program.now site) name.now) }
{
    let tree = tree_of(&program.trees, site.file);
    site.typed(program).scopes.local(tree, site.node, name)
}

/// The number of the local of a name in its own initial value: how many are declared before it.
fn own_number(program: &Program, initial: Site, name: &[u8]) -> usize
    requires program { IsProgram program.now }
    requires site { IsSite program.now initial }
    ensures { (t : JavaType) (s : Scope) → scope_at program.now initial ≡ bind_local name.now t s → result ≡ length s.locals }
{
    match local_at(program, initial, name) {
        Some(local) => local.number,
        None => 0,
    }
}

/// A declarator of a local: its number is the one that its name has in its own initial value. The error says that there
/// are 2^32 - 1 locals.
pub(crate) fn declarator_at(
    program: &Program,
    numbers: &NodeNumbers,
    site: Site,
    entry: Entry,
    name: Name,
    initial: u32,
) -> Result<Declarator, NoMemory>
    requires program { IsProgram program.now }
    requires numbers { AreNumbers program.now numbers.now }
    requires here { IsHere program.now site entry }
    requires node { entry.node ≡ nodes.Declarator name initial }
    ensures { IfOk result (Declares program.now site) }
{
    let text = site.text(program, name);
    let number = own_number(program, site.at(initial), text);
    if number >= 0xffff_ffff {
        return Err(NoMemory::at_sum(number as u64, 1));
    }
    Ok(Declarator {
        local: number as u32,
        default: default_value(&program.table.types, declared_type(program, site)),
        initial: maybe_part(program, numbers, site.at(initial)),
    })
}
