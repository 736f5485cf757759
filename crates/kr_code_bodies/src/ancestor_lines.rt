// Classes from one upwards, and other numbers, as links.
ghost use Rattle.std.specs.Prelude.{IfOk};
ghost use Rattle.kr_code_bodies.specs.Vocabulary.{IsGrown, IsProgram, line_of, table};
ghost use Rattle.kr_code_bodies.specs.Made.{AreThere};

use kr_base::NoMemory;
use kr_classes_table::ClassId;
use kr_code::Nodes;
use kr_code_lowering::Links;
use kr_types::Program;
use std::alloc::Global;

/// Adds links to these numbers.
pub(crate) fn add_links(numbers: &[u32], links: &mut Links) -> Result<Nodes, NoMemory>
    ensures grown { IfOk result (λ nodes. IsGrown links.old links.new) }
    ensures there { IfOk result (λ nodes. AreThere links.new nodes numbers.now) }
{
    let start = links.len();
    for number in numbers {
        links.push(*number)?;
    }
    Ok(Nodes {
        first: start,
        count: links.len() - start,
    })
}

/// A class and its ancestors as links.
pub(crate) fn add_line(
    alloc: Global,
    program: &Program,
    class: ClassId,
    links: &mut Links,
) -> Result<Nodes, NoMemory>
    requires program { IsProgram program.now }
    ensures grown { IfOk result (λ nodes. IsGrown links.old links.new) }
    ensures there { IfOk result (λ nodes. AreThere links.new nodes (line_of (table program.now) class)) }
{
    let line = program.table.members.line(alloc, class)?;
    add_links(&line, links)
}
