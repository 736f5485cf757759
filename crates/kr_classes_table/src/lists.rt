// Lists of a tree.
ghost use Rattle.std.specs.Prelude.{◌≡◌, ◌<◌, ◌∷◌, [], IfSome, MatchOption, length};
ghost use Rattle.kr_ast.specs.Arena.{tree_in};
ghost use Rattle.kr_classes_table.specs.Table.{items};

use kr_ast::{Node, Tree};

/// The first item of a list and the rest of the list.
pub fn first_item(tree: &Tree, list: u32) -> Option<(u32, u32)>
    requires { list < length tree.now.entries }
    ensures within { IfSome result (λ p. p.0 < length tree.now.entries) }
    ensures behind { IfSome result (λ p. p.1 < list) }
    ensures shown { MatchOption result (items (tree_in tree.now list) ≡ []) (λ p. items (tree_in tree.now list) ≡ tree_in tree.now p.0 ∷ items (tree_in tree.now p.1)) }
{
    match tree.entry(list).node {
        Node::Cons { first, rest } => Some((first, rest)),
        _ => None,
    }
}
