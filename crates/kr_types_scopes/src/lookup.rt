// The local that a name means.
ghost use Rattle.std.specs.Prelude.{◌≤◌, length, IfSome, IfNone};
ghost use Rattle.kr_types_scopes.specs.Settings.{IsChain, AreNamed};
ghost use Rattle.kr_types_scopes.specs.Lookups.{IsLocalThere, IsNoLocal};

use crate::within::Binding;
use kr_ast::Tree;

/// A local or parameter: its number, which counts those in scope declared before it, and the node of its type.
#[derive(Clone, Copy)]
pub struct LocalFound {
    pub number: usize,
    pub declared: Option<u32>,
}

/// The newest local of that name among the bindings below a top.
pub fn find_local(
    tree: &Tree,
    bindings: &Vec<Binding>,
    top: usize,
    name: &[u8],
) -> Option<LocalFound>
    requires top { top ≤ length bindings.now.items }
    requires chain { IsChain bindings.now.items }
    requires named { AreNamed tree.now bindings.now.items }
    ensures found { IfSome result (IsLocalThere tree.now bindings.now.items top name.now) }
    ensures none { IfNone result (IsNoLocal tree.now bindings.now.items top name.now) }
{
    let mut at = top;
    while at > 0 {
        let binding = bindings[at - 1];
        let own = tree.name(binding.name);
        if own == name {
            return Some(LocalFound {
                number: binding.number,
                declared: binding.declared,
            });
        }
        at = binding.below;
    }
    None
}
