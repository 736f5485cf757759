// The `\old`s of an expression.
ghost use Rattle.std.specs.Prelude.{◌≡◌, ◌++◌, IfOk, OnOk, option_to_list, reverse};
ghost use Rattle.kr_judge_code.specs.Vocabulary.{AreNumbers, Final, IsExpression, IsProgram, IsSite, old_in, running, scope_at, tree_at};
ghost use Rattle.kr_judge_code.specs.Olds.{olds_below, shown};

use kr_ast::Node;
use kr_base::{NoMemory, add_found};
use kr_code_lowering::{NodeNumbers, Site};
use kr_judge_prepared::OldCode;
use kr_types::Program;
use std::alloc::Global;

/// The `\old` that a node is, if it is one; the thrown object may have a name there.
fn old_of(program: &Program, numbers: &NodeNumbers, at: Site, is_named: bool) -> Option<OldCode>
    requires program { IsProgram program.now }
    requires numbers { AreNumbers program.now numbers.now }
    requires site { IsSite program.now at }
    ensures { (final : Final) → shown program.now final (option_to_list result) ≡ old_in is_named (running (scope_at program.now at)) (tree_at program.now at) }
{
    let entry = at.entry(program);
    match entry.node {
        Node::Old { operand } => Some(OldCode {
            place: entry.place,
            operand: at.code_number(program, numbers, operand),
            is_named,
        }),
        _ => None,
    }
}

/// Adds items, the last of them first.
fn add_reversed(alloc: Global, waiting: &mut Vec<u32>, items: &[u32]) -> Result<(), NoMemory>
    ensures { OnOk result (waiting.new.items ≡ waiting.old.items ++ reverse items.now) }
{
    let mut turned = Vec::from_slice(alloc, items)?;
    turned.reverse();
    waiting.extend_from_slice(&turned)?;
    Ok(())
}

/// Adds the `\old`s of an expression in source order: each node comes before its parts, and these from left to right. The
/// thrown object may have a name there.
pub(crate) fn add_olds(
    alloc: Global,
    program: &Program,
    numbers: &NodeNumbers,
    expression: Site,
    is_named: bool,
    olds: &mut Vec<OldCode>,
) -> Result<(), NoMemory>
    requires program { IsProgram program.now }
    requires numbers { AreNumbers program.now numbers.now }
    requires site { IsSite program.now expression }
    requires shape { IsExpression (tree_at program.now expression) }
    ensures { (final : Final) → IfOk result (λ none. shown program.now final olds.new.items ≡ shown program.now final olds.old.items ++ olds_below is_named program.now expression.file expression.node) }
{
    let mut waiting = Vec::new(alloc);
    waiting.push(expression.node)?;
    while let Some(node) = waiting.pop() {
        let at = expression.at(node);
        add_found(olds, old_of(program, numbers, at, is_named))?;
        let parts = at.entry(program).node.parts();
        add_reversed(alloc, &mut waiting, parts.as_slice())?;
    }
    Ok(())
}
