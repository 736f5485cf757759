// Locals and parameters as they come into scope.
ghost use Rattle.std.specs.Prelude.{◌≤◌, ◌∷◌, [], length, OnOk};
ghost use Rattle.kr_ast.specs.Arena.{name_in, AreNamesIn};
ghost use Rattle.kr_types_meaning.specs.Scopes.{bind_local, bind_as};
ghost use Rattle.kr_types_scopes.specs.Settings.{IsChain, type_there, scope_in};
ghost use Rattle.kr_types_scopes.specs.Tasks.{IsBound, IsStep};

use crate::within::{Binding, Declaring, Within};
use kr_ast::{Name, Tree};
use kr_base::NoMemory;

/// A local more upon those of a scope.
fn push_local(
    bindings: &mut Vec<Binding>,
    here: &mut Within,
    name: Name,
    declared: Option<u32>,
) -> Result<(), NoMemory>
    requires top { here.old.top ≤ length bindings.old.items }
    requires chain { IsChain bindings.old.items }
    ensures { OnOk result (IsBound name declared here.old bindings.old.items bindings.new.items here.new) }
{
    let count = bindings.len();
    let number = if here.top == 0 {
        0
    } else {
        bindings[here.top - 1].number + 1
    };
    bindings.push(Binding {
        name,
        declared,
        below: here.top,
        number,
    })?;
    here.top = count + 1;
    Ok(())
}

/// Brings a local into a scope. The tree is read by contracts alone.
pub fn bind(
    _tree: &Tree,
    bindings: &mut Vec<Binding>,
    here: &mut Within,
    name: Name,
    declared: Option<u32>,
) -> Result<(), NoMemory>
    requires top { here.old.top ≤ length bindings.old.items }
    requires chain { IsChain bindings.old.items }
    requires named { AreNamesIn _tree.now.text (name ∷ []) }
    ensures { OnOk result (IsStep _tree.now bindings.old.items bindings.new.items here.new (λ g. bind_local (name_in g.tree.text name) (type_there g declared) (scope_in g bindings.old.items here.old))) }
{
    push_local(bindings, here, name, declared)
}

/// Brings into a scope what a declarator declares there.
pub(crate) fn bind_declared(
    tree: &Tree,
    bindings: &mut Vec<Binding>,
    here: &mut Within,
    name: Name,
) -> Result<(), NoMemory>
    requires top { here.old.top ≤ length bindings.old.items }
    requires chain { IsChain bindings.old.items }
    requires named { AreNamesIn tree.now.text (name ∷ []) }
    ensures { OnOk result (IsStep tree.now bindings.old.items bindings.new.items here.new (λ g. bind_as (scope_in g bindings.old.items here.old).declaring (name_in g.tree.text name) (scope_in g bindings.old.items here.old))) }
{
    let declared = here.declared;
    match here.declaring {
        Declaring::Locals => bind(tree, bindings, here, name, declared),
        _ => Ok(()),
    }
}
