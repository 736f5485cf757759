// The two texts of the demo, around the number of nodes.
ghost use Rattle.std.specs.Prelude.{◌≡◌, ◌++◌, IfOk, decimal};
ghost use Rattle.kr_demo.specs.Texts.{source_text, finitization_text};

use itoa::Buffer;
use kr_base::NoMemory;
use std::alloc::Global;

/// The class, up to the number of nodes.
const SOURCE_FRONT: &[u8] = b"import java.util.*;
class Node {
  Node left;
  Node right;
}
class Tree {
  Node root;
  boolean repOk() {
    if (root == null) return false;
    HashSet<Node> seen = new HashSet<Node>();
    LinkedList<Node> work = new LinkedList<Node>();
    seen.add(root);
    work.add(root);
    while (!work.isEmpty()) {
      Node n = work.removeFirst();
      if (n.left != null) {
        if (!seen.add(n.left)) return false;
        work.add(n.left);
      }
      if (n.right != null) {
        if (!seen.add(n.right)) return false;
        work.add(n.right);
      }
    }
    return seen.size() == ";

/// The text after it.
const SOURCE_BACK: &[u8] = b";
  }
}
";

/// The finitization, up to the number of nodes.
const FINITIZATION_FRONT: &[u8] = b"root = \"Tree\"
fuel = 2000
[objects]
Tree = 1
Node = ";

/// The text after it.
const FINITIZATION_BACK: &[u8] = b"
[fields]
\"Tree.root\" = [\"null\", \"Node\"]
\"Node.left\" = [\"null\", \"Node\"]
\"Node.right\" = [\"null\", \"Node\"]
";

/// A number between two texts.
fn around(alloc: Global, front: &[u8], number: u32, back: &[u8]) -> Result<Vec<u8>, NoMemory>
    ensures { IfOk result (λ text. text.items ≡ front.now ++ decimal number ++ back.now) }
{
    let mut digits = Buffer::new();
    let mut text = Vec::new(alloc);
    text.extend_from_slice(front)?;
    text.extend_from_slice(digits.format(number).as_bytes())?;
    text.extend_from_slice(back)?;
    Ok(text)
}

/// The source: a class of binary trees, of which `repOk` accepts those with this many nodes.
pub fn demo_source(alloc: Global, nodes: u32) -> Result<Vec<u8>, NoMemory>
    ensures text { IfOk result (λ text. text.items ≡ source_text nodes) }
{
    around(alloc, SOURCE_FRONT, nodes, SOURCE_BACK)
}

/// The finitization: one tree, and this many nodes for it.
pub fn demo_finitization(alloc: Global, nodes: u32) -> Result<Vec<u8>, NoMemory>
    ensures text { IfOk result (λ text. text.items ≡ finitization_text nodes) }
{
    around(alloc, FINITIZATION_FRONT, nodes, FINITIZATION_BACK)
}
