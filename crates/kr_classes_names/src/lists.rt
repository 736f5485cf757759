// Lists of a tree.
ghost use Rattle.std.specs.Prelude.{◌≡◌, ◌<◌, IfOk, length, map, All};
ghost use Rattle.kr_ast.specs.Arena.{tree_in};
ghost use Rattle.kr_classes_table.specs.Table.{items};

use kr_ast::Tree;
use kr_base::NoMemory;
use kr_classes_table::first_item;
use std::alloc::Global;

/// The items of a list.
pub fn items(alloc: Global, tree: &Tree, list: u32) -> Result<Vec<u32>, NoMemory>
    requires { list < length tree.now.entries }
    ensures within { IfOk result (λ nodes. All (λ n. n < length tree.now.entries) nodes.items) }
    ensures shown { IfOk result (λ nodes. map (tree_in tree.now) nodes.items ≡ items (tree_in tree.now list)) }
{
    let mut nodes = Vec::new(alloc);
    let mut at = list;
    while let Some((item, rest)) = first_item(tree, at) {
        nodes.push(item)?;
        at = rest;
    }
    Ok(nodes)
}
