// The numbers that code has for the nodes of files.
ghost use Rattle.std.specs.Prelude.{◌≡◌, ◌+◌, ◌<◌, ◌++◌, ◌∷◌, [], suc, IfOk, length, slice_index, if◌then◌else◌};
ghost use Rattle.kr_code_lowering.specs.Vocabulary.{IsProgram};
ghost use Rattle.kr_code_lowering.specs.Origins.{file_count, first_node};
ghost use Rattle.kr_code_lowering.specs.Numbered.{AreBegun, AreNumbers};

use crate::coding::has_code;
use crate::site::Site;
use kr_ast::tree_of;
use kr_base::NoMemory;
use kr_types::Program;
use std::alloc::Global;

/// Of each node of the files, one file after another, the number that code has for it; and how many have code.
#[derive(Drop)]
pub struct NodeNumbers {
    pub all: Vec<u32>,
    pub coded: u32,
}

/// Adds the number of a node: the next one where it has code, and otherwise this one.
fn add_number(has_code: bool, other: u32, numbers: &mut NodeNumbers) -> Result<(), NoMemory>
    requires { numbers.old.coded < 4294967295 }
    ensures added { IfOk result (λ none. numbers.new.all.items ≡ numbers.old.all.items ++ (if has_code then numbers.old.coded else other) ∷ []) }
    ensures coded { IfOk result (λ none. numbers.new.coded ≡ numbers.old.coded + (if has_code then 1 else 0)) }
{
    if has_code {
        numbers.all.push(numbers.coded)?;
        numbers.coded += 1;
    } else {
        numbers.all.push(other)?;
    }
    Ok(())
}

/// Adds the numbers of a file's nodes. Those of nodes without code begin with the given one.
fn add_numbers(
    program: &Program,
    others: u32,
    file: u32,
    numbers: &mut NodeNumbers,
) -> Result<(), NoMemory>
    requires program { IsProgram program.now }
    requires others { others + file_count program.now ≡ 4294967295 }
    requires file { file < length program.now.trees.items }
    requires begun { AreBegun program.now others (first_node program.now.trees.items file) numbers.old }
    ensures { IfOk result (λ none. AreBegun program.now others (first_node program.now.trees.items (suc file)) numbers.new) }
{
    let first = numbers.all.len() as u32;
    let entries = tree_of(&program.trees, file).nodes();
    for node in 0..entries {
        let site = Site { file, node, first };
        let other = others + first + node;
        add_number(has_code(site.entry(program).node), other, numbers)?;
    }
    Ok(())
}

impl NodeNumbers {
    /// The numbers of a program's nodes. Err: out of memory, or more nodes than numbers.
    pub fn of(alloc: Global, program: &Program) -> Result<NodeNumbers, NoMemory>
        requires { IsProgram program.now }
        ensures { IfOk result (AreNumbers program.now) }
    {
        let count = program.nodes();
        let others = 0xffff_ffff - count;
        let all = Vec::with_capacity(alloc, count as usize)?;
        let mut numbers = NodeNumbers { all, coded: 0 };
        let files = program.trees.len() as u32;
        for file in 0..files {
            add_numbers(program, others, file, &mut numbers)?;
        }
        if numbers.coded > others {
            return Err(NoMemory::at_sum(u64::from(numbers.coded), u64::from(count)));
        }
        Ok(numbers)
    }

    /// The number of the node at a place; 0 where none is.
    pub(crate) fn at(&self, place: usize) -> u32
        ensures { result ≡ slice_index self.now.all.items place }
    {
        match self.all.get(place) {
            Some(number) => *number,
            None => 0,
        }
    }
}
