// Contract lines, one by one.
ghost use Rattle.std.specs.Prelude.{◌≡◌, [], MatchOption};
ghost use Rattle.kr_judge_code.specs.Vocabulary.{AreContractLines, IsProgram, IsSite, items, tree_at};
ghost use Rattle.kr_judge_code.specs.Lines.{IsLine};

use kr_code_lowering::{Site, first_item};
use kr_types::Program;

/// The first of some contract lines, and the rest.
pub(crate) fn first_line(program: &Program, list: Site) -> Option<(u32, u32)>
    requires program { IsProgram program.now }
    requires site { IsSite program.now list }
    requires shape { AreContractLines (tree_at program.now list) }
    ensures { MatchOption result (items (tree_at program.now list) ≡ []) (λ p. IsLine program.now list p.0 p.1) }
{
    first_item(program, list)
}
