// What is asked after the body of a method: its postconditions, and its `signals`.
ghost use Rattle.std.specs.Prelude.{◌≡◌, ◌∷◌, [], IfOk};
ghost use Rattle.kr_ast.specs.declared.node.Node.TheVariants as nodes;
ghost use Rattle.kr_judge_code.specs.Vocabulary.{AreContractLines, AreNumbers, Final, IsContractLine, IsHere, IsProgram, IsSite, items, names_thrown, numbering_of, running, Scope, scope_at, tree_at};
ghost use Rattle.kr_judge_code.specs.Olds.{AreAdded};

use crate::lines::first_line;
use crate::olds::add_olds;
use kr_ast::{Entry, Node};
use kr_base::NoMemory;
use kr_code_lowering::{NodeNumbers, Site, caught_type};
use kr_judge_prepared::{Contract, SignalCode};
use kr_types::Program;
use std::alloc::Global;

/// Adds a postcondition and its `\old`s.
fn add_postcondition(
    alloc: Global,
    program: &Program,
    numbers: &NodeNumbers,
    line: Site,
    entry: Entry,
    condition: u32,
    contract: &mut Contract,
) -> Result<(), NoMemory>
    requires program { IsProgram program.now }
    requires numbers { AreNumbers program.now numbers.now }
    requires here { IsHere program.now line entry }
    requires node { entry.node ≡ nodes.Ensures condition }
    requires shape { IsContractLine (tree_at program.now line) }
    ensures { (s : Scope) (final : Final) → running (scope_at program.now line) ≡ s → IfOk result (λ none. AreAdded (numbering_of program.now final) s (tree_at program.now line ∷ []) contract.old contract.new) }
{
    add_olds(
        alloc,
        program,
        numbers,
        line.at(condition),
        false,
        &mut contract.olds,
    )?;
    contract
        .postconditions
        .push(line.code_number(program, numbers, condition))?;
    Ok(())
}

/// Whether a `signals` clause names the thrown object.
fn names_thrown(program: &Program, declared: Site) -> bool
    requires program { IsProgram program.now }
    requires site { IsSite program.now declared }
    ensures { result ≡ names_thrown (tree_at program.now declared) }
{
    match declared.entry(program).node {
        Node::Parameter { .. } => true,
        _ => false,
    }
}

/// Adds a `signals` clause and the `\old`s of its condition.
fn add_signals(
    alloc: Global,
    program: &Program,
    numbers: &NodeNumbers,
    line: Site,
    entry: Entry,
    declared: u32,
    condition: u32,
    contract: &mut Contract,
) -> Result<(), NoMemory>
    requires program { IsProgram program.now }
    requires numbers { AreNumbers program.now numbers.now }
    requires here { IsHere program.now line entry }
    requires node { entry.node ≡ nodes.Signals declared condition }
    requires shape { IsContractLine (tree_at program.now line) }
    ensures { (s : Scope) (final : Final) → running (scope_at program.now line) ≡ s → IfOk result (λ none. AreAdded (numbering_of program.now final) s (tree_at program.now line ∷ []) contract.old contract.new) }
{
    let is_named = names_thrown(program, line.at(declared));
    add_olds(
        alloc,
        program,
        numbers,
        line.at(condition),
        is_named,
        &mut contract.olds,
    )?;
    contract.signals.push(SignalCode {
        caught: caught_type(program, line, declared),
        is_named,
        condition: line.code_number(program, numbers, condition),
    })?;
    Ok(())
}

/// Adds what a contract line asks after the body, if it does.
fn add_line(
    alloc: Global,
    program: &Program,
    numbers: &NodeNumbers,
    line: Site,
    contract: &mut Contract,
) -> Result<(), NoMemory>
    requires program { IsProgram program.now }
    requires numbers { AreNumbers program.now numbers.now }
    requires site { IsSite program.now line }
    requires shape { IsContractLine (tree_at program.now line) }
    ensures { (s : Scope) (final : Final) → running (scope_at program.now line) ≡ s → IfOk result (λ none. AreAdded (numbering_of program.now final) s (tree_at program.now line ∷ []) contract.old contract.new) }
{
    let entry = line.entry(program);
    match entry.node {
        Node::Ensures { condition } => add_postcondition(
            alloc, program, numbers, line, entry, condition, contract,
        ),
        Node::Signals {
            declared,
            condition,
        } => add_signals(
            alloc, program, numbers, line, entry, declared, condition, contract,
        ),
        _ => Ok(()),
    }
}

/// Adds what contract lines ask after the body, in order.
pub fn add_after_body(
    alloc: Global,
    program: &Program,
    numbers: &NodeNumbers,
    list: Site,
    contract: &mut Contract,
) -> Result<(), NoMemory>
    requires program { IsProgram program.now }
    requires numbers { AreNumbers program.now numbers.now }
    requires site { IsSite program.now list }
    requires shape { AreContractLines (tree_at program.now list) }
    ensures { (s : Scope) (final : Final) → running (scope_at program.now list) ≡ s → IfOk result (λ none. AreAdded (numbering_of program.now final) s (items (tree_at program.now list)) contract.old contract.new) }
{
    let mut at = list;
    while let Some((line, rest)) = first_line(program, at) {
        add_line(alloc, program, numbers, at.at(line), contract)?;
        at = at.at(rest);
    }
    Ok(())
}
