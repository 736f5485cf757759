// Segments by number, and changes of one.
ghost use Rattle.std.specs.Prelude.{◌≡◌, ◌<◌, true, false, length, IfSome, IfNone, IfOk};
ghost use Rattle.std.specs.Option.{option_map};
ghost use Rattle.kr_base.specs.declared.span.Bound.TheVariants.{At};
ghost use Rattle.kr_core.specs.Openings.{untouched};
ghost use Rattle.kr_core.specs.Reaches.{owner_behind};
ghost use Rattle.kr_core.specs.Steps.{lowered, owned, scanned, stolen};
ghost use Rattle.kr_trace.specs.Chains.{at_number, cleared, dropped, ended_at, going, linked_to, node_at, node_of, nodes_at, split_by, with};

use kr_base::{Bound, Cut, NoMemory};
use kr_core::Segment;
use std::alloc::Global;

/// A segment, the number of the next one in the order of candidates, and whether it wasn't dropped.
#[derive(Drop)]
pub(crate) struct Node {
    pub(crate) segment: Segment,
    pub(crate) later: Option<usize>,
    pub(crate) there: bool,
}

/// The segment of a number.
pub(crate) fn find(nodes: &[Node], number: u64) -> Option<&Segment>
    ensures none { IfNone result (node_of nodes.now number ≡ None) }
    ensures some { IfSome result (λ s. option_map (λ x. x.segment) (node_of nodes.now number) ≡ Some s.now) }
{
    if number >= nodes.len() as u64 {
        return None;
    }
    let node = &nodes[number as usize];
    if node.there {
        Some(&node.segment)
    } else {
        None
    }
}

/// Another owner for the segment of a number.
pub(crate) fn set_owner(nodes: &mut Vec<Node>, number: u64, owner: Option<u32>)
    ensures { nodes.new.items ≡ at_number nodes.old.items number (with (owned owner)) }
{
    if number < nodes.len() as u64 {
        nodes[number as usize].segment.owner = owner;
    }
}

fn owner_behind(reach: &Bound, upto: &Bound, owner: Option<u32>) -> Option<u32>
    ensures { result ≡ owner_behind reach.now upto.now owner }
{
    if !reach.is_below(upto) { None } else { owner }
}

/// The segment of a number is scanned up to a reach.
pub(crate) fn scan_to(nodes: &mut Vec<Node>, number: u64, reach: Bound, rows: u64, tried: u64)
    ensures { nodes.new.items ≡ at_number nodes.old.items number (with (scanned reach rows tried false)) }
{
    if number < nodes.len() as u64 {
        let segment = &mut nodes[number as usize].segment;
        segment.owner = owner_behind(&reach, &segment.upto, segment.owner);
        segment.mark = reach;
        segment.rows = segment.rows.saturating_add(rows);
        segment.tried = segment.tried.saturating_add(tried);
    }
}

/// The segment of a number is scanned up to a reach and ends there. `upto` is the reach again.
pub(crate) fn end_at(
    nodes: &mut Vec<Node>,
    number: u64,
    reach: Bound,
    upto: Bound,
    rows: u64,
    tried: u64,
)
    requires { upto ≡ reach }
    ensures { nodes.new.items ≡ at_number nodes.old.items number (with (scanned reach rows tried true)) }
{
    if number < nodes.len() as u64 {
        let segment = &mut nodes[number as usize].segment;
        segment.mark = reach;
        segment.upto = upto;
        segment.owner = None;
        segment.rows = segment.rows.saturating_add(rows);
        segment.tried = segment.tried.saturating_add(tried);
    }
}

/// The rest after a cut of a segment, under a new number.
pub(crate) fn rest_of(node: &Node, seat: u32, cut: &Cut, number: u64) -> Result<Node, NoMemory>
    ensures { IfOk result (λ rest. rest ≡ node_at (stolen seat cut.now number node.now.segment) node.now.later) }
{
    Ok(Node {
        segment: Segment {
            number,
            after: Bound::At(cut.try_clone()?),
            mark: Bound::At(cut.try_clone()?),
            upto: node.segment.upto.try_clone()?,
            owner: Some(seat),
            rows: 0,
            tried: 0,
        },
        later: node.later,
        there: true,
    })
}

/// The segment at an index ends at a cut, and another is the next.
pub(crate) fn lower(nodes: &mut Vec<Node>, at: usize, cut: Cut, next: usize)
    requires { at < length nodes.old.items }
    ensures { nodes.new.items ≡ at_number nodes.old.items at (split_by (lowered cut) next) }
{
    let node = &mut nodes[at];
    node.segment.upto = Bound::At(cut);
    node.later = Some(next);
}

/// The segment at an index ends at a mark, without an owner.
pub(crate) fn end_segment(nodes: &mut Vec<Node>, at: usize, mark: Cut)
    requires { at < length nodes.old.items }
    ensures { nodes.new.items ≡ at_number nodes.old.items at (with (ended_at mark)) }
{
    let segment = &mut nodes[at].segment;
    segment.upto = Bound::At(mark);
    segment.owner = None;
}

/// The segment at an index has no rows any more.
pub(crate) fn clear_rows(nodes: &mut Vec<Node>, at: usize)
    requires { at < length nodes.old.items }
    ensures { nodes.new.items ≡ at_number nodes.old.items at (with cleared) }
{
    nodes[at].segment.rows = 0;
}

/// The segment at an index is dropped.
pub(crate) fn drop_node(nodes: &mut Vec<Node>, at: usize)
    requires { at < length nodes.old.items }
    ensures { nodes.new.items ≡ at_number nodes.old.items at dropped }
{
    nodes[at].there = false;
}

/// Another segment, or none, is the next after that at an index.
pub(crate) fn link_to(nodes: &mut Vec<Node>, at: usize, later: Option<usize>)
    requires { at < length nodes.old.items }
    ensures { nodes.new.items ≡ at_number nodes.old.items at (linked_to later) }
{
    nodes[at].later = later;
}

/// What was tried in a closed segment that isn't the last.
pub(crate) fn going(node: &Node) -> Option<u64>
    ensures { result ≡ going node.now }
{
    if node.later.is_some() && node.segment.is_closed() {
        Some(node.segment.tried)
    } else {
        None
    }
}

fn untouched(number: u64, after: &Cut, upto: Bound, later: Option<usize>) -> Result<Node, NoMemory>
    ensures { IfOk result (λ x. x ≡ node_at (untouched number (At after.now) upto) later) }
{
    Ok(Node {
        segment: Segment {
            number,
            after: Bound::At(after.try_clone()?),
            mark: Bound::At(after.try_clone()?),
            upto,
            owner: None,
            rows: 0,
            tried: 0,
        },
        later,
        there: true,
    })
}

/// Segments that adjoin at the cuts, from a cut on to an end.
pub(crate) fn nodes_at(
    alloc: Global,
    after: &Cut,
    cuts: &[Cut],
    end: &Bound,
) -> Result<Vec<Node>, NoMemory>
    ensures { IfOk result (λ v. v.items ≡ nodes_at 0 (Bound.At after.now) cuts.now end.now) }
{
    let mut nodes = Vec::new(alloc);
    let mut begin = after;
    let mut number: usize = 0;
    for cut in cuts {
        nodes.push(untouched(
            number as u64,
            begin,
            Bound::At(cut.try_clone()?),
            Some(number + 1),
        )?)?;
        begin = cut;
        number += 1;
    }
    nodes.push(untouched(number as u64, begin, end.try_clone()?, None)?)?;
    Ok(nodes)
}
