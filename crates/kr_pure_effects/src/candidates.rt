// Whether a node touches the candidates of a problem.
ghost use Rattle.std.specs.Prelude.{◌≡◌, ◌↔◌, ◌^◌, ◌<◌, ◌≤◌, IfOk, OnErr, IsTrue, Some, length, slice_get};
ghost use Rattle.kr_pure_effects.specs.Vocabulary.{file_at, IsPosed, posed, Typed};
ghost use Rattle.kr_pure_effects.specs.Nodes.{TouchesCandidates, node_there};

use crate::nodes::touch_of;
use crate::touch::touches_some;
use kr_base::NoMemory;
use kr_space_problem::Problem;

/// Whether a node of a file creates, or may write, an object of a class that the finitization counts. The error says that there are
/// 2^32 class domains.
pub fn touches_candidates(problem: &Problem, file: u32, node: u32) -> Result<bool, NoMemory>
    requires problem { IsPosed problem.now }
    requires file { file < length problem.now.program.trees.items }
    requires node { node < length (file_at problem.now.program.trees.items file).entries }
    ensures touched { IfOk result (λ touched. (t : Typed) → slice_get problem.now.program.files.items file ≡ Some t → IsTrue touched ↔ TouchesCandidates (posed problem.now) (node_there problem.now.program.trees.items file t node)) }
    ensures many { OnErr result (2 ^ 32 ≤ length problem.now.layout.domains) }
{
    let domains = problem.layout.domains();
    if domains > 0xffff_ffff {
        return Err(problem.layout.at_domain_limit());
    }
    Ok(touches_some(
        &problem.program.table.types,
        &problem.program.table.members,
        &problem.arrays,
        &problem.layout,
        domains as u32,
        touch_of(&problem.program, file, node),
    ))
}
