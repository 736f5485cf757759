// The preconditions of a method.
ghost use Rattle.std.specs.Prelude.{◌≡◌, ◌++◌, ◌∷◌, [], IfOk, map, option_to_list};
ghost use Rattle.kr_judge_code.specs.Vocabulary.{AreContractLines, AreNumbers, Final, IsProgram, IsSite, items, numbering_of, running, Scope, scope_at, tree_at};
ghost use Rattle.kr_judge_code.specs.Lines.{required};

use crate::lines::first_line;
use kr_ast::Node;
use kr_base::{NoMemory, add_found};
use kr_code_lowering::{NodeNumbers, Site};
use kr_types::Program;

/// The condition of a contract line, if it is a precondition.
fn condition_of(program: &Program, numbers: &NodeNumbers, line: Site) -> Option<u32>
    requires program { IsProgram program.now }
    requires numbers { AreNumbers program.now numbers.now }
    requires site { IsSite program.now line }
    ensures { (s : Scope) (final : Final) → running (scope_at program.now line) ≡ s → map (numbering_of program.now final).origin (option_to_list result) ≡ required s (tree_at program.now line ∷ []) }
{
    match line.entry(program).node {
        Node::Requires { condition } => Some(line.code_number(program, numbers, condition)),
        _ => None,
    }
}

/// Adds the conditions of the preconditions among contract lines, in order.
pub fn add_required(
    program: &Program,
    numbers: &NodeNumbers,
    list: Site,
    conditions: &mut Vec<u32>,
) -> Result<(), NoMemory>
    requires program { IsProgram program.now }
    requires numbers { AreNumbers program.now numbers.now }
    requires site { IsSite program.now list }
    requires shape { AreContractLines (tree_at program.now list) }
    ensures { (s : Scope) (final : Final) → running (scope_at program.now list) ≡ s → IfOk result (λ none. map (numbering_of program.now final).origin conditions.new.items ≡ map (numbering_of program.now final).origin conditions.old.items ++ required s (items (tree_at program.now list))) }
{
    let mut at = list;
    while let Some((line, rest)) = first_line(program, at) {
        add_found(conditions, condition_of(program, numbers, at.at(line)))?;
        at = at.at(rest);
    }
    Ok(())
}
