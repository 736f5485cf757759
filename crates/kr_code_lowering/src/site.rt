// Nodes of files, and the numbers that code has for them.
ghost use Rattle.std.specs.Prelude.{◌≡◌, ◌<◌, ◌∷◌, [], Some, length, slice_get};
ghost use Rattle.kr_code_lowering.specs.Vocabulary.{AreNamesIn, file_at, IsProgram, name_in};
ghost use Rattle.kr_code_lowering.specs.Numbered.{AreNumbers};
ghost use Rattle.kr_code_lowering.specs.Sites.{IsHere, IsSite, arena_at, number_at};

use crate::numbering::NodeNumbers;
use kr_ast::{Entry, Name, tree_of};
use kr_types::{Program, TypedFile};

/// A node of a file, and the place of the file's first node among those of all files.
#[derive(Clone, Copy)]
pub struct Site {
    pub file: u32,
    pub node: u32,
    pub first: u32,
}

impl Site {
    /// The site of a node of a file.
    pub fn of(program: &Program, file: u32, node: u32) -> Site
        requires program { IsProgram program.now }
        requires file { file < length program.now.trees.items }
        requires node { node < length (file_at program.now.trees.items file).entries }
        ensures site { IsSite program.now result }
        ensures file { result.file ≡ file }
        ensures node { result.node ≡ node }
    {
        let mut first = 0;
        for before in 0..file {
            first += tree_of(&program.trees, before).nodes();
        }
        Site { file, node, first }
    }

    /// The node with its parts.
    pub fn entry(self, program: &Program) -> Entry
        requires { IsSite program.now self }
        ensures { IsHere program.now self result }
    {
        tree_of(&program.trees, self.file).entry(self.node)
    }

    /// Another node of the file.
    pub fn at(self, node: u32) -> Site
        ensures { result ≡ record self { node = node } }
    {
        Site {
            file: self.file,
            node,
            first: self.first,
        }
    }

    /// The number that code has for a node of the file.
    pub fn code_number(self, _program: &Program, numbers: &NodeNumbers, node: u32) -> u32
        requires { AreNumbers _program.now numbers.now }
        ensures { result ≡ number_at _program.now self node }
    {
        numbers.at(self.first as usize + node as usize)
    }

    /// The bytes of a name in the file.
    pub(crate) fn text(self, program: &Program, name: Name) -> &[u8]
        requires site { IsSite program.now self }
        requires named { AreNamesIn (arena_at program.now self).text (name ∷ []) }
        ensures { result.now ≡ name_in (arena_at program.now self).text name }
    {
        tree_of(&program.trees, self.file).name(name)
    }

    /// The typing of the nodes of the file.
    pub(crate) fn typed(self, program: &Program) -> &TypedFile
        requires program { IsProgram program.now }
        requires site { IsSite program.now self }
        ensures { slice_get program.now.files.items self.file ≡ Some result.now }
    {
        &program.files[self.file as usize]
    }
}
