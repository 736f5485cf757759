// The files of a program, and nodes in them.
ghost use Rattle.std.specs.Prelude.{◌≡◌, ◌<◌, length};
ghost use Rattle.kr_ast.specs.Files.{file_at};

use crate::tree::Tree;

/// A node of one of the files.
#[derive(Clone, Copy)]
pub struct NodeId {
    pub file: u32,
    pub node: u32,
}

/// The tree of a file.
pub fn tree_of(trees: &[Tree], file: u32) -> &Tree
    requires { file < length trees.now }
    ensures { result.now ≡ file_at trees.now file }
{
    &trees[file as usize]
}
